// The lead of a voicing, and the pool that it leaves.
#![tactic(auto)]

pub mod lead;
