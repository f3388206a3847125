// Standings: a year opened, a standing tested, a tier borne by a standing's own places.
#![tactic(auto)]

ghost use Rattle.std.specs.Prelude.{◌≡◌, true};
ghost use Rattle.programme.specs.Contract.{contracts_in};
ghost use Rattle.programme.specs.Valid.{valid};
ghost use Rattle.year.specs.Standing.{fresh, standing_passes, open_of};

use events::rule;
use programme::contract::{PLACES, Programme};
use programme::valid;
use refusal::Refusal;
use year::{Opening, Standing};

pub mod test;
pub mod tier;

// A fresh year's standing: nothing spent, no day run, no timed premium. A derived default says of the arrays no more
// than that each element is a default.
pub fn fresh() -> Standing
    ensures { result ≡ fresh }
{
    Standing {
        risk: [0; PLACES],
        cat: [0; PLACES],
        day: 0,
        risk_timed: [0; PLACES],
        cat_timed: [0; PLACES],
    }
}

// Opens a year: refusal 6 where no table text reads to the programme, and the fresh standing in any case, which no
// `Result` would hand out with a refusal.
pub fn open(programme: Programme) -> Opening
    ensures { result ≡ open_of programme }
{
    if valid::holds(&programme) {
        return Opening {
            refusal: 0,
            number: 0,
            standing: fresh(),
        };
    }
    Opening {
        refusal: Refusal::NotAProgramme.number(),
        number: 0,
        standing: fresh(),
    }
}

// Whether a standing may be run on: no spent amount above its cap, no timed premium above the amount premium or on a
// layer without time, none of these other than 0 for a missing layer, and no day over 366.
pub fn passes(programme: &Programme, standing: &Standing) -> bool
    requires { valid programme.now ≡ true }
    ensures { result ≡ standing_passes (contracts_in programme.now) standing.now }
{
    if rule::LAST_DAY < standing.day {
        return false;
    }
    let risk = &programme.risk.places[..programme.risk.count];
    let cat = &programme.cat.places[..programme.cat.count];
    test::tier_passes(risk, &standing.risk, &standing.risk_timed)
        && test::tier_passes(cat, &standing.cat, &standing.cat_timed)
}
