// The lines of a statement, by what they show.
use year::Amounts;

// The tier that a layer is in.
#[derive(Clone, Copy)]
pub enum Tier {
    Risk,
    Cat,
}

// What a layer's line shows of it: the year's deductible left, cover left, recovered, premium.
#[derive(Clone, Copy)]
pub struct Figures {
    pub deductible: u64,
    pub cover: u64,
    pub recovered: u64,
    pub premium: u64,
}

#[derive(Clone, Copy)]
pub enum Line {
    // The event's day, and what it comes to.
    Event(u64, Amounts),
    // The treaty's number, and what it cedes.
    Treaty(u64, u64),
    // The layer's tier and place in it, and its figures.
    Layer(Tier, u64, Figures),
    // What all events come to.
    Total(Amounts),
}
