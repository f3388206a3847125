// A run's events booked: what they come to, and their lines.
#![tactic(auto)]

pub mod basis;
pub mod book;
