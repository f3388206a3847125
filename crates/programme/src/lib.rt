// A programme of contracts: its numbers' ranges, the rules of its table's lines, and the test of its validity.
#![tactic(auto)]

pub mod contract;
pub mod range;
pub mod rule;
pub mod valid;
