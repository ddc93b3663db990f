// A candidate's line in the names that a key signature calls for.
#![tactic(auto)]

pub mod found;
pub mod line;
