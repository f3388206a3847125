// Whether some table text reads to a programme: a test on its numbers.
ghost use Rattle.std.specs.Prelude.{Bool, ◌&&◌, ℕ, ◌≡◌, ◌≤◌, take};
ghost use Rattle.lists.specs.Chains.{chained, every};
ghost use Rattle.programme.specs.Rules.{treaty_number, band_end};
ghost use Rattle.programme.specs.Valid.{treaty_passes, layer_passes, treaty_unused, terms_unused};
ghost use Rattle.programme.specs.Valid.{figure_if, eight_places, valid};

use crate::contract::{PLACES, Programme};
use crate::range;
use layer::terms::Terms;
use treaty::Treaty;

// What a place of a programme holds: a treaty, or a layer of a tier. It passes after the figure of the place before it,
// and its own figure is a treaty's number or the end of a layer's band.
trait Place {
    ghost passes: { ℕ → Self → Bool };

    ghost figure: { Self → ℕ };

    ghost unused: { Self → Bool };

    // The figure of a place that passes after the figure `before`.
    fn figure_after(&self, before: u64) -> Option<u64>
        ensures { result ≡ figure_if (passes before self.now) (figure self.now) };

    // Whether it holds nothing but 0.
    fn is_unused(&self) -> bool
        ensures { result ≡ unused self.now };
}

impl Place for Treaty {
    ghost passes = { treaty_passes };

    ghost figure = { treaty_number };

    ghost unused = { treaty_unused };

    // In range, and its number above the one before: the rules of `treaty_fault` (rule), which tells the broken one.
    fn figure_after(&self, before: u64) -> Option<u64> {
        if 0 < range::treaty_outside(self) || self.number <= before {
            return None;
        }
        Some(self.number)
    }

    fn is_unused(&self) -> bool {
        range::treaty_not_zero(self) == 0
    }
}

impl Place for Terms {
    ghost passes = { layer_passes };

    ghost figure = { band_end };

    ghost unused = { terms_unused };

    // In range, and attaching at or above the end of the band before: the rules of `layer_fault` (rule) likewise.
    fn figure_after(&self, before: u64) -> Option<u64> {
        if 0 < range::terms_outside(self) || self.attachment < before {
            return None;
        }
        Some(self.attachment + self.limit)
    }

    fn is_unused(&self) -> bool {
        range::terms_not_zero(self) == 0
    }
}

// Whether each place passes after the one before it.
fn all_pass<P: Place>(places: &[P]) -> bool
    ensures { result ≡ chained P.passes P.figure 0 places.now }
{
    let mut before: u64 = 0;
    for place in places {
        let Some(figure) = place.figure_after(before) else {
            return false;
        };
        before = figure;
    }
    true
}

// Whether none of them is used.
fn all_unused<P: Place>(places: &[P]) -> bool
    ensures { result ≡ every P.unused places.now }
{
    places.iter().all(|place| place.is_unused())
}

// Whether there are `count` places, the first ones, that keep to the rules, and the others are unused.
fn keep_to_rules<P: Place>(places: &[P; PLACES], count: usize) -> bool
    ensures { result ≡ (eight_places P.unused count places.now && chained P.passes P.figure 0 (take count places.now)) }
{
    let Some((used, others)) = places.split_at_checked(count) else {
        return false;
    };
    all_unused(others) && all_pass(used)
}

// Whether a programme is valid.
pub fn holds(programme: &Programme) -> bool
    ensures { result ≡ valid programme.now }
{
    keep_to_rules(&programme.treaties.places, programme.treaties.count)
        && keep_to_rules(&programme.risk.places, programme.risk.count)
        && keep_to_rules(&programme.cat.places, programme.cat.count)
}
