// Theorems only: what the box promises, about the definitions that the crates below are proved to meet.
#![tactic(auto)]
