// Proportional treaties: what a quota share or a surplus cedes of one loss.
#![tactic(auto)]

ghost use Rattle.std.specs.Prelude.{◌≡◌};
ghost use Rattle.treaty.specs.Treaty.{ceded_by_quota, ceded_by_surplus, ceded_of, cut_to_limit, cession_of};
ghost use Rattle.treaty.specs.Ranges.{AmountInRange, Cedable};

// Kinds are numbers, since the struct that C is lent holds one, and an unused place holds 0.
pub const QUOTA_SHARE: u64 = 1;

pub const SURPLUS: u64 = 2;

// A treaty: its kind, its number in the table, the terms of both kinds (those of the other kind are 0) and
// its event limit, the most ceded to it of one event. Capacity 0 and limit 0 mean none.
#[repr(C)]
#[derive(Clone, Copy, Default)]
pub struct Treaty {
    pub kind: u64,
    pub number: u64,
    pub cede: u64,
    pub capacity: u64,
    pub retention: u64,
    pub lines: u64,
    pub limit: u64,
}

// A loss: its treaty's number (0: none), its estimated maximum loss E and its amount g.
#[derive(Clone, Copy)]
pub struct Loss {
    pub treaty: u64,
    pub maximum: u64,
    pub amount: u64,
}

// What a treaty does with one loss: what is ceded, what is left, and what the treaty has then taken in the event.
#[derive(Clone, Copy)]
pub struct Cession {
    pub ceded: u64,
    pub left: u64,
    pub taken: u64,
}

impl Treaty {
    // That maximum and amount are in range stands in contracts: a caller may make any loss of them.
    fn by_quota(self, maximum: u64, amount: u64) -> u64
        requires { AmountInRange self maximum amount }
        ensures { result ≡ ceded_by_quota self.cede self.capacity maximum amount }
    {
        if self.capacity == 0 || maximum <= self.capacity {
            return arith::mul_div_word(amount, self.cede, arith::WHOLE);
        }
        arith::mul_div(amount, self.cede * self.capacity, arith::WHOLE * maximum)
    }

    fn by_surplus(self, maximum: u64, amount: u64) -> u64
        requires { AmountInRange self maximum amount }
        ensures { result ≡ ceded_by_surplus self.retention self.lines maximum amount }
    {
        if maximum <= self.retention {
            return 0;
        }
        if self.retention * (1 + self.lines) < maximum {
            return arith::mul_div(amount, self.lines * self.retention, maximum);
        }
        arith::mul_div(amount, maximum - self.retention, maximum)
    }

    fn by_kind(self, maximum: u64, amount: u64) -> u64
        requires { AmountInRange self maximum amount }
        ensures { result ≡ ceded_of self maximum amount }
    {
        match self.kind {
            QUOTA_SHARE => self.by_quota(maximum, amount),
            SURPLUS => self.by_surplus(maximum, amount),
            _ => 0,
        }
    }

    // What is ceded of a loss without an event limit, cut to the limit less what the treaty took before.
    fn cut_to_limit(self, taken: u64, ceded: u64) -> u64
        ensures { result ≡ cut_to_limit self.limit taken ceded }
    {
        if self.limit == 0 {
            return ceded;
        }
        if self.limit <= taken {
            return 0;
        }
        let room = self.limit - taken;
        ceded.min(room)
    }

    // The cession of one loss, where `taken` is what the treaty took of earlier losses of the event.
    pub fn cede(self, taken: u64, loss: Loss) -> Cession
        requires { Cedable self taken loss }
        ensures { result ≡ cession_of self taken loss }
    {
        let unlimited = self.by_kind(loss.maximum, loss.amount);
        let ceded = self.cut_to_limit(taken, unlimited);
        Cession {
            ceded,
            left: loss.amount - ceded,
            taken: taken + ceded,
        }
    }
}
