// Faults 3, 4 and 5 of a table's line that is one of the four forms.
ghost use Rattle.std.specs.Prelude.{◌≡◌, ◌≤◌};
ghost use Rattle.refusal.specs.Refusal.{refusal_number};
ghost use Rattle.programme.specs.Contract.{no_contracts};
ghost use Rattle.programme.specs.Rules.{treaty_fault, layer_fault, fault_after};
ghost use Rattle.programme.specs.Rules.{before_of};
ghost use Rattle.programme.specs.LineByLine.{before_next, next_of, EightAtMost};

use crate::contract::{Contract, PLACES};
use crate::range;
use layer::terms::Terms;
use refusal::Refusal;
use treaty::Treaty;

// How many of a kind stand before a line, and the last one's number or end of band, 0 without one.
#[derive(Clone, Copy, Default)]
pub struct Last {
    pub count: usize,
    pub figure: u64,
}

// What stands before a line.
#[derive(Clone, Copy, Default)]
pub struct Before {
    pub treaties: Last,
    pub risk: Last,
    pub cat: Last,
}

// The fault of a treaty after the number `before`, with `later` contracts of later kinds before it.
fn treaty_fault(later: usize, before: u64, t: &Treaty) -> Result<(), Refusal>
    ensures { refusal_number result ≡ treaty_fault later before t.now }
{
    if 0 < range::treaty_outside(t) {
        return Err(Refusal::TableNumberOutOfRange);
    }
    if 0 < later || t.number <= before {
        return Err(Refusal::TableOutOfOrder);
    }
    Ok(())
}

// The fault of a layer after others of its tier.
fn layer_fault(later: usize, before: Last, l: &Terms) -> Result<(), Refusal>
    ensures { refusal_number result ≡ layer_fault later before l.now }
{
    if 0 < range::terms_outside(l) {
        return Err(Refusal::TableNumberOutOfRange);
    }
    if 0 < later || PLACES <= before.count {
        return Err(Refusal::TableOutOfOrder);
    }
    if l.attachment < before.figure {
        return Err(Refusal::BandsOverlap);
    }
    Ok(())
}

impl Last {
    // One more of the kind, with its figure.
    fn next(self, figure: u64) -> Last
        requires { self.count ≤ 8 }
        ensures { result ≡ next_of self figure }
    {
        Last {
            count: self.count + 1,
            figure,
        }
    }
}

impl Before {
    // Before the first line.
    pub fn first() -> Before
        ensures { result ≡ before_of no_contracts }
    {
        Before::default()
    }

    // The fault of the next line's contract.
    pub fn fault(self, contract: &Contract) -> Result<(), Refusal>
        requires { EightAtMost self }
        ensures { refusal_number result ≡ fault_after self contract.now }
    {
        match contract {
            Contract::Proportional(t) => {
                treaty_fault(self.risk.count + self.cat.count, self.treaties.figure, t)
            }
            Contract::Risk(l) => layer_fault(self.cat.count, self.risk, l),
            Contract::Cat(l) => layer_fault(0, self.cat, l),
        }
    }

    // What stands before the line after a contract's that is without fault.
    pub fn after(self, contract: &Contract) -> Before
        requires { EightAtMost self × (fault_after self contract.now ≡ 0) }
        ensures { result ≡ before_next self contract.now }
    {
        match contract {
            Contract::Proportional(t) => Before {
                treaties: self.treaties.next(t.number),
                ..self
            },
            Contract::Risk(l) => Before {
                risk: self.risk.next(l.attachment + l.limit),
                ..self
            },
            Contract::Cat(l) => Before {
                cat: self.cat.next(l.attachment + l.limit),
                ..self
            },
        }
    }
}
