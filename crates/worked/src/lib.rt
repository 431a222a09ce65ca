// The worked cases.
#![tactic(auto)]
