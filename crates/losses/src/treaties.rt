// A table's treaties by their numbers: place T of a register, for T from 0 to 8, holds treaty T, or one that cedes
// nothing where the table has none.
ghost use Rattle.std.specs.Prelude.{true, false, cond, ◌≡◌};
ghost use Rattle.programme.specs.Contract.{treaties_in};
ghost use Rattle.programme.specs.Valid.{valid_treaties};
ghost use Rattle.events.specs.Rules.{in_table};
ghost use Rattle.losses.specs.Treaties.{treaties_from, Registered};

use programme::contract;
use programme::contract::Treaties;
use treaty::Treaty;

// How many numbers T a loss may have: those of treaties, 1 to 8, and 0.
pub const NUMBERS: usize = 9;

// Whether the table lacks a number other than 0.
pub fn lacks(register: &[Treaty], number: u64) -> bool
    requires { Registered register.now }
    ensures { result ≡ cond (in_table (treaties_from register.now) number) false true }
{
    if number < NUMBERS as u64 {
        let place = number as usize;
        return register[place].number != number;
    }
    true
}

// A programme's treaties by their numbers.
pub fn register_of(treaties: &Treaties) -> [Treaty; NUMBERS]
    requires { valid_treaties treaties.now ≡ true }
    ensures { (treaties_from result ≡ treaties_in treaties.now) × Registered result }
{
    let mut register = [contract::no_treaty(); NUMBERS];
    for t in &treaties.places[..treaties.count] {
        let place = t.number as usize;
        register[place] = *t;
    }
    register
}
