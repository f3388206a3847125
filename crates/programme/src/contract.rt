// A programme: its treaties, risk layers and cat layers, each kind in eight places.
ghost use Rattle.std.specs.Prelude.{◌≡◌, ◌+◌, ◌<◌, set};
ghost use Rattle.programme.specs.Contract.{no_treaty, no_terms, no_contracts, programme_of};
ghost use Rattle.programme.specs.Contract.{place_of, programme_with};

use layer::terms::{RATES, Terms};
use layer::tier;
use treaty::Treaty;

// The places for treaties, and for the layers of each tier.
pub const PLACES: usize = tier::PLACES;

// The first `count` places are used; in a valid programme every number of the others is 0.
#[repr(C)]
#[derive(Clone, Copy)]
pub struct Treaties {
    pub places: [Treaty; PLACES],
    pub count: usize,
}

// The layers of one tier; places as above. The header has two structs, one for each kind of place.
#[repr(C)]
#[derive(Clone, Copy)]
pub struct Layers {
    pub places: [Terms; PLACES],
    pub count: usize,
}

// A caller may hand in any numbers: that a programme is valid stands in contracts, and is no invariant of the type.
#[repr(C)]
#[derive(Clone, Copy)]
pub struct Programme {
    pub treaties: Treaties,
    pub risk: Layers,
    pub cat: Layers,
}

// What one line of a table says.
#[derive(Clone, Copy)]
pub enum Contract {
    Proportional(Treaty),
    Risk(Terms),
    Cat(Terms),
}

// What an unused place holds.
pub fn no_treaty() -> Treaty
    ensures { result ≡ no_treaty }
{
    Treaty::default()
}

// The same for a layer, by its numbers: a derived default says of an array, as its rates, no more than that each
// element is a default.
pub fn no_terms() -> Terms
    ensures { result ≡ no_terms }
{
    Terms {
        attachment: 0,
        limit: 0,
        deductible: 0,
        reinstatements: 0,
        premium: 0,
        placed: 0,
        rates: [0; RATES],
        time: 0,
    }
}

impl Programme {
    // The programme without contracts.
    pub fn empty() -> Programme
        ensures { result ≡ programme_of no_contracts }
    {
        let treaties = [no_treaty(); PLACES];
        let terms = [no_terms(); PLACES];
        Programme {
            treaties: Treaties {
                places: treaties,
                count: 0,
            },
            risk: Layers {
                places: terms,
                count: 0,
            },
            cat: Layers {
                places: terms,
                count: 0,
            },
        }
    }

    // Holds one more contract, in the first unused place of its kind.
    pub fn add(&mut self, contract: &Contract)
        requires { place_of self.old contract.now < 8 }
        ensures { self.new ≡ programme_with self.old contract.now }
    {
        match contract {
            Contract::Proportional(t) => enter(
                &mut self.treaties.places,
                &mut self.treaties.count,
                t,
            ),
            Contract::Risk(l) => enter(&mut self.risk.places, &mut self.risk.count, l),
            Contract::Cat(l) => enter(&mut self.cat.places, &mut self.cat.count, l),
        }
    }
}

// Puts one more into the first unused place.
fn enter<P: Copy>(places: &mut [P; PLACES], count: &mut usize, entering: &P)
    requires { count.old < 8 }
    ensures places { places.new ≡ set places.old count.old entering.now }
    ensures count { count.new ≡ count.old + 1 }
{
    places[*count] = *entering;
    *count += 1;
}
