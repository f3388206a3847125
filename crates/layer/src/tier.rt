// The layers of one tier: each looks at the same subject amounts, and none sees another's remainder. They are lent as
// a list of records, each brought up to date in its place.
ghost use Rattle.std.specs.Prelude.{◌≡◌, ◌≤◌, take};
ghost use Rattle.layer.specs.Tier.{layers_through, sums_through, layers_of, tier_after};
ghost use Rattle.layer.specs.Ranges.{SoundLayers, AmpleForTier};

use crate::record::{Layer, Sums};

// The places for the layers of a tier.
pub const PLACES: usize = 8;

// The layers of a tier, in the first places; the places past the count are unused. Nothing is allocated, so that the
// count stands beside an array.
#[derive(Clone, Copy)]
pub struct Tier {
    pub layers: [Layer; PLACES],
    pub count: usize,
}

// The tier after subject amounts, and its layers' recoveries and premiums, added.
#[derive(Clone, Copy)]
pub struct TierBorne {
    pub tier: Tier,
    pub sums: Sums,
}

// Brings each layer of a lent list up to date in its place: amounts come to it, each in turn the subject, and its
// recoveries and the premiums due are added to the sums. Layer by layer, since none looks at another.
pub fn bear_all(layers: &mut [Layer], subjects: &[u64], mut sums: Sums) -> Sums
    requires { SoundLayers layers.old × AmpleForTier sums }
    ensures sums { result ≡ sums_through subjects.now sums layers.old }
    ensures layers { layers.new ≡ layers_through sums.share subjects.now layers.old }
{
    for layer in layers.iter_mut() {
        let borne = layer.bear_each(subjects, sums);
        *layer = borne.layer;
        sums = borne.sums;
    }
    sums
}

impl Tier {
    // The same for a tier: its layers, in the first places, are lent; the other places stay.
    pub fn bear(&mut self, subjects: &[u64], sums: Sums) -> Sums
        requires { (self.old.count ≤ 8) × SoundLayers (layers_of self.old) × AmpleForTier sums }
        ensures sums { result ≡ sums_through subjects.now sums (layers_of self.old) }
        ensures tier { self.new ≡ tier_after sums.share subjects.now self.old }
    {
        let count = self.count;
        bear_all(&mut self.layers[..count], subjects, sums)
    }
}

// The same for the tier of eight places by value, of which the first `count` are its layers.
pub fn bear_first(layers: [Layer; PLACES], count: usize, subjects: &[u64], sums: Sums) -> TierBorne
    requires { (count ≤ 8) × SoundLayers (take count layers) × AmpleForTier sums }
    ensures { (result.tier
        ≡ tier_after sums.share subjects.now (record { layers = layers; count = count }))
        × (result.sums ≡ sums_through subjects.now sums (take count layers)) }
{
    let mut tier = Tier { layers, count };
    let after = tier.bear(subjects, sums);
    TierBorne { tier, sums: after }
}
