// Events: the parts of an event form, read off a line, and the rules that a line keeps to.
#![tactic(auto)]

pub mod form;
pub mod rule;
