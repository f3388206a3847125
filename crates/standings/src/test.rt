// The spent amounts and timed premiums of one tier, tested against its layers, by the layer's place in each list (a zip
// of three hands out nested pairs, whose facts are longer).
ghost use Rattle.std.specs.Prelude.{◌&&◌, ◌≡◌, ℕ, ◌≤◌, eqb, length};
ghost use Rattle.lists.specs.Chains.{every};
ghost use Rattle.lists.specs.Each.{Each};
ghost use Rattle.layer.specs.Layer.{layer_of};
ghost use Rattle.layer.specs.Ranges.{InRange};
ghost use Rattle.year.specs.Standing.{within_cap, within_premium, tier_passes};

use layer::amount::Whole;
use layer::terms::Terms;
use programme::contract::PLACES;

// Whether a layer's spent amount is not above its cap, and its timed premium not above what it may be at that amount.
fn layer_passes(terms: &Terms, spent: u64, timed: u64) -> bool
    requires { InRange terms.now }
    ensures { let layer = layer_of terms.now spent timed in result ≡ (within_cap layer && within_premium layer) }
{
    if terms.cap().cents() < spent {
        return false;
    }
    if timed == 0 {
        return true;
    }
    timed <= terms.timed_most(Whole::new(spent)).cents()
}

// Whether all places hold 0.
fn zeros(amounts: &[u64]) -> bool
    ensures { result ≡ every (λ (m : ℕ). eqb m 0) amounts.now }
{
    amounts.iter().all(|amount| *amount == 0)
}

// Whether the spent amounts and timed premiums of one tier may be run on.
pub fn tier_passes(terms: &[Terms], spent: &[u64; PLACES], timed: &[u64; PLACES]) -> bool
    requires few { length terms.now ≤ 8 }
    requires ranges { Each InRange terms.now }
    ensures { result ≡ tier_passes terms.now spent.now timed.now }
{
    for (place, own) in terms.iter().enumerate() {
        if !layer_passes(own, spent[place], timed[place]) {
            return false;
        }
    }
    zeros(&spent[terms.len()..]) && zeros(&timed[terms.len()..])
}
