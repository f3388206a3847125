// Texts: bytes into a lent buffer, numbers in base 10, templates, lines. No word of insurance.
#![tactic(auto)]

pub mod buffer;
pub mod feed;
pub mod line;
pub mod number;
pub mod template;
pub mod word;
