// What proofs by hand about lent structs share: definitions and laws alone.
#![tactic(auto)]
