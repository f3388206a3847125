// The losses of an event through their treaties, and the treaties by number.
#![tactic(auto)]

pub mod event;
pub mod kept;
pub mod treaties;
