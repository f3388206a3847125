// The losses of an event in turn through their treaties.
ghost use Rattle.std.specs.Prelude.{[], ◌≡◌, ◌≤◌, length};
ghost use Rattle.std.proofs.lemmas.List.Edits.{sets};
ghost use Rattle.treaty.specs.Losses.{left_of_each};
ghost use Rattle.losses.specs.Cede.{losses_from, AfterTreaties};
ghost use Rattle.losses.specs.Treaties.{treaties_from};
ghost use Rattle.losses.specs.Event.{CanCedeEach};

use crate::kept;
use crate::treaties::NUMBERS;
use treaty::Treaty;

// What an event's losses come to under the treaties: their amounts and what is ceded of them, added.
#[derive(Clone, Copy)]
pub struct ByTreaties {
    pub gross: u64,
    pub ceded: u64,
}

// Puts the losses, three numbers each (T, E, g), through their treaties. What is left of each goes to `left`; at place
// T `cessions` gains what treaty T cedes.
pub fn cede_each(
    register: &[Treaty],
    losses: &[u64],
    left: &mut [u64],
    cessions: &mut [u64],
) -> ByTreaties
    requires { CanCedeEach register.now losses.now cessions.old
        × (length (losses_from losses.now) ≤ length left.old) }
    ensures { AfterTreaties (treaties_from register.now) (losses_from losses.now)
        cessions.old cessions.new result
        × (left.new
        ≡ sets left.old 0
        (left_of_each (treaties_from register.now) [] (losses_from losses.now))) }
{
    let count = kept::count(losses);
    let mut taken = [0u64; NUMBERS];
    let mut gross: u64 = 0;
    let mut ceded: u64 = 0;
    for i in 0..count {
        let loss = kept::loss_at(losses, i);
        let number = loss.treaty as usize;
        let cession = register[number].cede(taken[number], loss);
        left[i] = cession.left;
        taken[number] = cession.taken;
        cessions[number] += cession.ceded;
        gross += loss.amount;
        ceded += cession.ceded;
    }
    ByTreaties { gross, ceded }
}
