// What a run goes by.
ghost use Rattle.std.specs.Prelude.{true, ◌≡◌};
ghost use Rattle.scale.specs.Scale.{none_over};
ghost use Rattle.losses.specs.Treaties.{Registered};

use layer::terms::Terms;
use treaty::Treaty;

// The time shares, of which none is over the whole, a table's treaties by their numbers, and the layers of each tier.
#[derive(Clone, Copy)]
pub struct Basis<'a> {
    pub shares: &'a [u64],
    pub register: &'a [Treaty],
    pub risk: &'a [Terms],
    pub cat: &'a [Terms],
    pub ghost fair: { none_over shares.now ≡ true },
    pub ghost registered: { Registered register.now },
}
