// A layer's terms, as its line of the table gives them.
ghost use Rattle.std.specs.Prelude.{◌≡◌, ◌+◌, ◌-◌, ◌*◌, ◌≤◌};
ghost use Rattle.arith.specs.Round.{rounded};
ghost use Rattle.layer.specs.Layer.{brought_by, cap_of, cut_at_cap, placed_of, rated_of};
ghost use Rattle.layer.specs.Layer.{premium_of, is_timed, timed_most};
ghost use Rattle.layer.specs.Ranges.{InRange};

use crate::amount::{Placed, Rated, Whole};

// The places for the rates of reinstatements.
pub const RATES: usize = 20;

// Attachment, limit, deductible and premium are at 100% of the layer; placed share and rates are in basis points. The
// first rates, as many as reinstatements, are used; every other is 0. `time` is 1 where premium is by amount and time,
// and 0 elsewhere: C may lend any number there, and only a number keeps it. A caller may hand in any numbers: that
// terms are in range stands in contracts, and is no invariant of the type.
#[repr(C)]
#[derive(Clone, Copy)]
pub struct Terms {
    pub attachment: u64,
    pub limit: u64,
    pub deductible: u64,
    pub reinstatements: u64,
    pub premium: u64,
    pub placed: u64,
    pub rates: [u64; RATES],
    pub time: u64,
}

impl Terms {
    // Whether premium is by amount and time.
    pub fn is_timed(&self) -> bool
        ensures { result ≡ is_timed self.now }
    {
        self.time == 1
    }

    // The loss that a subject amount brings.
    pub fn brings(&self, subject: u64) -> Whole
        ensures { result.0 ≡ brought_by self.now subject }
    {
        let above = Whole::new(subject).less(Whole::new(self.attachment));
        above.at_most(Whole::new(self.limit))
    }

    // The most that a year's losses can spend.
    pub fn cap(&self) -> Whole
        requires { InRange self.now }
        ensures { result.0 ≡ cap_of self.now }
    {
        Whole::new(self.deductible + self.limit * (self.reinstatements + 1))
    }

    // The spent amount after the loss that a subject amount brings.
    pub fn spent_after(&self, spent: Whole, subject: u64) -> Whole
        requires { InRange self.now × (spent.0 ≤ cap_of self.now) }
        ensures { result.0 ≡ cut_at_cap self.now (spent.0 + brought_by self.now subject) }
    {
        spent.plus(self.brings(subject)).at_most(self.cap())
    }

    // An amount of the layer at its placed share; used amounts are at most the limit and its reinstatements.
    pub fn placed_share(&self, amount: Whole) -> Placed
        requires { InRange self.now × (amount.0 ≤ 21 * self.now.limit) }
        ensures { result.0 ≡ placed_of self.now amount.0 }
    {
        amount.placed_share(self.placed)
    }

    // Each slice of a used amount at the rate of its reinstatement, added. Above the used amount there are none.
    fn rated(&self, used: Whole) -> Rated
        requires { InRange self.now × (used.0 ≤ 21 * self.now.limit) }
        ensures { result.0 ≡ rated_of self.now used.0 }
    {
        let count = self.reinstatements as usize;
        let limit = Whole::new(self.limit);
        let mut sum = Rated::none();
        let mut below = Placed::none();
        let mut end = Whole::new(0);
        for rate in &self.rates[..count] {
            if used.cents() <= end.cents() {
                return sum;
            }
            end = end.plus(limit);
            let above = self.placed_share(used.at_most(end));
            sum = sum.plus(above.less(below).at_rate(*rate));
            below = above;
        }
        sum
    }

    // The year's premium for a used amount.
    pub fn premium_for(&self, used: Whole) -> Placed
        requires { InRange self.now × (used.0 ≤ 21 * self.now.limit) }
        ensures { result.0 ≡ rounded (rated_of self.now used.0 * self.now.premium) (10000 * self.now.limit) }
    {
        let rated = self.rated(used);
        rated.premium(Whole::new(self.premium), Whole::new(self.limit))
    }

    // The same for a spent amount.
    pub fn premium_at(&self, spent: Whole) -> Placed
        requires { InRange self.now × (spent.0 ≤ cap_of self.now) }
        ensures { result.0 ≡ premium_of self.now spent.0 }
    {
        self.premium_for(spent.less(Whole::new(self.deductible)))
    }

    // The most that the year's timed premium may be at a spent amount: the amount premium, and 0 without time.
    pub fn timed_most(&self, spent: Whole) -> Placed
        requires { InRange self.now × (spent.0 ≤ cap_of self.now) }
        ensures { result.0 ≡ timed_most self.now spent.0 }
    {
        if self.is_timed() {
            return self.premium_at(spent);
        }
        Placed::none()
    }

    // What it grows by from one used amount to another: of terms with twenty rates, one copy serves both.
    pub fn premium_between(&self, before: Whole, after: Whole) -> Placed
        requires { InRange self.now × (before.0 ≤ 21 * self.now.limit) × (after.0 ≤ 21 * self.now.limit) }
        ensures { result.0 ≡ rounded (rated_of self.now after.0 * self.now.premium) (10000 * self.now.limit)
            - rounded (rated_of self.now before.0 * self.now.premium) (10000 * self.now.limit) }
    {
        self.premium_for(after).less(self.premium_for(before))
    }
}
