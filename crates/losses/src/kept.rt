// Events as numbers in a lent slice: the day of each and how many losses it has, then three numbers for each loss (T,
// E, g). No other file knows where a number stands. Memory is fixed: with heads and losses in one slice three numbers
// do for 13 bytes of text, and a slice of structs for each would need places for the most of both.
ghost use Rattle.std.specs.Prelude.{[], ◌∷◌, ◌≡◌, ◌+◌, ◌*◌, ◌^◌, ◌<◌, length, get_or};
ghost use Rattle.text.specs.Buffer.{Put};
ghost use Rattle.treaty.specs.Treaty.{loss_of};
ghost use Rattle.losses.specs.Cede.{losses_from};
ghost use Rattle.losses.specs.Event.{loss_numbers};

use treaty::Loss;

// How many numbers stand before an event's losses, and how many a loss has.
const HEAD: usize = 2;

pub const LOSS: usize = 3;

// The day of the event that begins at a place.
pub fn day_at(events: &[u64], at: usize) -> u64
    requires { at < length events.now }
    ensures { result ≡ get_or events.now at 0 }
{
    events[at]
}

// How many losses it has.
pub fn count_at(events: &[u64], at: usize) -> usize
    requires { at + 1 < length events.now }
    ensures { result ≡ get_or events.now (at + 1) 0 }
{
    events[at + 1] as usize
}

// Where its losses begin.
pub fn losses_from(at: usize) -> usize
    requires { at < 2 ^ 63 }
    ensures { result ≡ at + 2 }
{
    at + HEAD
}

// Where losses end that begin at a place.
pub fn losses_end(from: usize, count: usize) -> usize
    requires { (from < 2 ^ 62) × (count < 2 ^ 60) }
    ensures { result ≡ from + 3 * count }
{
    from + LOSS * count
}

// How many losses some numbers are of.
pub fn count(losses: &[u64]) -> usize
    ensures { result ≡ length (losses_from losses.now) }
{
    losses.len() / LOSS
}

// The loss in place i of several.
pub fn loss_at(losses: &[u64], i: usize) -> Loss
    requires { (i < 64) × (i < length (losses_from losses.now)) }
    ensures { result ≡ get_or (losses_from losses.now) i (loss_of 0 0 0) }
{
    let at = LOSS * i;
    Loss {
        treaty: losses[at],
        maximum: losses[at + 1],
        amount: losses[at + 2],
    }
}

// Keeps a loss: the place after it.
pub fn keep_loss(kept: &mut [u64], at: usize, loss: Loss) -> usize
    requires { at < 2 ^ 62 }
    ensures { Put kept.old at (loss_numbers (loss ∷ [])) kept.new result }
{
    scratch::keep(kept, at, &[loss.treaty, loss.maximum, loss.amount])
}

// Keeps an event's day and the count of its losses, which stand before them.
pub fn keep_head(kept: &mut [u64], at: usize, day: u64, count: usize)
    requires { at < 2 ^ 62 }
    ensures { Put kept.old at (day ∷ count ∷ []) kept.new (at + 2) }
{
    scratch::keep(kept, at, &[day, count as u64]);
}
