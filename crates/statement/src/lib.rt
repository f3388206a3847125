// The lines of a statement, put into a lent buffer.
#![tactic(auto)]

pub mod line;
pub mod lines;
pub mod print;
