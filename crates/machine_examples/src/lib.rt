// Worked examples of the one-lane machine: definitions and laws only.
#![tactic(auto)]
