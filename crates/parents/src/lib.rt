// Definitions and laws only: the parent of a row in the factor, and the rows of the factor met along parents.
#![tactic(auto)]
