// The engine: events run through a year.
#![tactic(auto)]

pub mod run;
