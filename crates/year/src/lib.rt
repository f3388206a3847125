// The year: standings and amounts. What a run, a ledger and a history are stands in the definitions.
#![tactic(auto)]

ghost use Rattle.std.specs.Prelude.{[], ◌≡◌};
ghost use Rattle.year.specs.Statement.{added};

use programme::contract::PLACES;

// Each layer's spent amount, in eight places for each tier, the last day run, and each layer's timed premium, which is
// 0 where its premium is not by time. The lists stand side by side as in the struct of the header.
#[repr(C)]
#[derive(Clone, Copy)]
pub struct Standing {
    pub risk: [u64; PLACES],
    pub cat: [u64; PLACES],
    pub day: u64,
    pub risk_timed: [u64; PLACES],
    pub cat_timed: [u64; PLACES],
}

// What opening a year answers: refusal 0 and the fresh standing, or a refusal, its second number and the same. The
// refusal is a number, as in the struct of the header.
#[repr(C)]
#[derive(Clone, Copy)]
pub struct Opening {
    pub refusal: u64,
    pub number: u64,
    pub standing: Standing,
}

// What an event, or a whole run, comes to.
#[derive(Clone, Copy, Default)]
pub struct Amounts {
    pub gross: u64,
    pub ceded: u64,
    pub risk: u64,
    pub cat: u64,
    pub net: u64,
    pub premium: u64,
}

impl Amounts {
    // What no events come to.
    pub fn none() -> Amounts
        ensures { result ≡ added [] }
    {
        Amounts::default()
    }
}
