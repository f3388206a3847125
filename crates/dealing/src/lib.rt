// What re-dating a year's events leaves as it is: definitions and laws alone.
#![tactic(auto)]
