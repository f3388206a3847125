// A layer's record: it takes losses and gives back the record after them.
ghost use Rattle.std.specs.Prelude.{◌≡◌, true, false, ◌≤◌};
ghost use Rattle.layer.specs.Layer.{deductible_left_of, cover_left_of, used_of, recovered_of, year_premium};
ghost use Rattle.lists.specs.Sums.{sum_of};
ghost use Rattle.layer.specs.Layer.{layer_of, sums_of, brought_by, layer_after, recovered_since, charged_since};
ghost use Rattle.layer.specs.Layer.{is_timed, borne_since, borne_by, borne_through};
ghost use Rattle.layer.specs.Ranges.{Sound, Room, Ample};

use crate::amount::{Placed, Whole};
use crate::terms::Terms;

// Terms with the spent amount, the year's losses, cut off at the cap, and with the year's timed premium, which is 0
// where premium is not by time. That a record is sound stands in contracts, since `layer_of` makes one of any terms.
#[derive(Clone, Copy)]
pub struct Layer {
    pub terms: Terms,
    pub spent: Whole,
    pub timed: Placed,
}

// The time share of a day, and recoveries and premiums of that day, added over layers.
#[derive(Clone, Copy)]
pub struct Sums {
    pub share: u64,
    pub recovered: Placed,
    pub premium: Placed,
}

// The record after losses, and the sums with their recoveries and premiums.
#[derive(Clone, Copy)]
pub struct Borne {
    pub layer: Layer,
    pub sums: Sums,
}

impl Sums {
    // The sums of a day before any layer's.
    pub fn none(share: u64) -> Sums
        ensures { result ≡ sums_of share 0 0 }
    {
        Sums {
            share,
            recovered: Placed::none(),
            premium: Placed::none(),
        }
    }
}

impl Layer {
    // The record of a layer's terms with what a standing holds of it.
    pub fn of_standing(terms: Terms, spent: u64, timed: u64) -> Layer
        ensures { result ≡ layer_of terms spent timed }
    {
        Layer {
            terms,
            spent: Whole::new(spent),
            timed: Placed::of_standing(timed),
        }
    }

    // The record after a loss; what passes the cap is cut off. The premium due for the loss is not in it yet.
    pub fn take(self, loss: Whole) -> Layer
        requires { Sound self × (loss.0 ≤ self.terms.limit) }
        ensures { result ≡ layer_after loss.0 self }
    {
        Layer {
            spent: self.spent.plus(loss).at_most(self.terms.cap()),
            ..self
        }
    }

    pub fn deductible_left(&self) -> Whole
        ensures { result.0 ≡ deductible_left_of self.now.terms self.now.spent.0 }
    {
        Whole::new(self.terms.deductible).less(self.spent)
    }

    pub fn cover_left(&self) -> Whole
        requires { Sound self.now }
        ensures { result.0 ≡ cover_left_of self.now.terms self.now.spent.0 }
    {
        self.terms
            .cap()
            .less(self.used().plus(Whole::new(self.terms.deductible)))
    }

    // What the losses took of the cover, above the deductible.
    pub fn used(&self) -> Whole
        ensures { result.0 ≡ used_of self.now.terms self.now.spent.0 }
    {
        self.spent.less(Whole::new(self.terms.deductible))
    }

    pub fn recovered(&self) -> Placed
        requires { Sound self.now }
        ensures { result.0 ≡ recovered_of self.now.terms self.now.spent.0 }
    {
        self.terms.placed_share(self.used())
    }

    // The reinstatement premium of the year: by time the timed premium, else by amount.
    pub fn premium(&self) -> Placed
        requires { Sound self.now }
        ensures { result.0 ≡ year_premium self.now }
    {
        if self.terms.is_timed() {
            return self.timed;
        }
        self.terms.premium_for(self.used())
    }

    // What has been recovered since an earlier record of the year: one loss's recovery, from the record before it.
    pub fn recovery_since(&self, before: &Layer) -> Placed
        requires { Sound self.now × Sound before.now }
        ensures { result.0 ≡ recovered_since before.now self.now }
    {
        self.recovered().less(before.recovered())
    }

    // The amount premium since an earlier record of the year.
    pub fn premium_since(&self, before: &Layer) -> Placed
        requires { Sound self.now × Sound before.now × (self.now.terms ≡ before.now.terms) }
        ensures { result.0 ≡ charged_since before.now self.now }
    {
        self.terms.premium_between(before.used(), self.used())
    }

    // The record after the losses that amounts bring, each in turn. At the cap it stays.
    fn take_each(&self, subjects: &[u64]) -> Layer
        requires { Sound self.now }
        ensures { result ≡ layer_after (sum_of (brought_by self.now.terms) subjects.now) self.now }
    {
        let cap = self.terms.cap();
        let mut layer = *self;
        for subject in subjects {
            layer = layer.take(layer.terms.brings(*subject));
            if cap.cents() <= layer.spent.cents() {
                return layer;
            }
        }
        layer
    }

    // The record, and the sums with what it has come to recover and to charge since an earlier record of the year, for
    // a premium that is not by time. Where nothing more is spent, the sums stay as they were.
    fn borne_since(&self, before: &Layer, sums: Sums) -> Borne
        requires { Sound self.now × Sound before.now × Room sums × (self.now.terms ≡ before.now.terms)
            × (is_timed self.now.terms ≡ false) }
        ensures { result ≡ borne_since before.now sums self.now }
    {
        if self.spent.cents() == before.spent.cents() {
            return Borne { layer: *self, sums };
        }
        let recovery = self.recovery_since(before);
        let premium = self.premium_since(before);
        Borne {
            layer: *self,
            sums: Sums {
                recovered: sums.recovered.plus(recovery),
                premium: sums.premium.plus(premium),
                ..sums
            },
        }
    }

    // The record and the sums after the losses that amounts bring, each amount in turn the subject, for a premium by
    // time: each loss's is settled by itself. Most losses of a full year bring a layer nothing.
    fn bear_timed(&self, subjects: &[u64], sums: Sums) -> Borne
        requires { Sound self.now × Ample sums × (is_timed self.now.terms ≡ true) }
        ensures { result ≡ borne_through subjects.now sums self.now }
    {
        let mut spent = self.spent;
        let mut premium = self.terms.premium_at(spent);
        let mut due = Placed::none();
        for subject in subjects {
            let after = self.terms.spent_after(spent, *subject);
            if after.cents() <= spent.cents() {
                continue;
            }
            let later = self.terms.premium_at(after);
            due = due.plus(later.less(premium).at_time(sums.share));
            premium = later;
            spent = after;
        }
        let timed = self.timed.plus(due);
        let layer = Layer {
            spent,
            timed,
            ..*self
        };
        let recovery = layer.recovery_since(self);
        Borne {
            layer,
            sums: Sums {
                recovered: sums.recovered.plus(recovery),
                premium: sums.premium.plus(due),
                ..sums
            },
        }
    }

    // The same for every layer. Without time the single recoveries and premiums add up to those of all losses at once.
    fn bear_by_kind(&self, subjects: &[u64], sums: Sums) -> Borne
        requires { Sound self.now × Ample sums }
        ensures { result ≡ borne_through subjects.now sums self.now }
    {
        if self.terms.is_timed() {
            return self.bear_timed(subjects, sums);
        }
        let after = self.take_each(subjects);
        after.borne_since(self, sums)
    }

    // The same with the terms taken from the record before, where they are the same whatever its kind: twenty rates
    // are then not copied from the one result or the other.
    pub fn bear_each(self, subjects: &[u64], sums: Sums) -> Borne
        requires { Sound self × Ample sums }
        ensures { result ≡ borne_through subjects.now sums self }
    {
        let borne = self.bear_by_kind(subjects, sums);
        Borne {
            layer: Layer {
                terms: self.terms,
                ..borne.layer
            },
            sums: borne.sums,
        }
    }

    // The same after the loss that one subject amount brings.
    pub fn bear(self, subject: u64, sums: Sums) -> Borne
        requires { Sound self × Ample sums }
        ensures { result ≡ borne_by subject sums self }
    {
        self.bear_each(&[subject], sums)
    }
}
