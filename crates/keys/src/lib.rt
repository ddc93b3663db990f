// The keys of a tone within a range, and the one nearest to a wanted key.
#![tactic(auto)]

pub mod bits;
pub mod nearest;
