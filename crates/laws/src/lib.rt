// Definitions and laws on lists and numbers that more than one crate cites. No code.
#![tactic(auto)]
