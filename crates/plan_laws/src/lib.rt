// Definitions and laws only: what the plan's lists say of the matrix and of its factor.
#![tactic(auto)]
