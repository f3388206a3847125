// Sums over lists, facts of each element and passes in place order: definitions and laws alone.
#![tactic(auto)]
