// From a chord to the keys that a player strikes: the voicing generator of the Rust's `voicings/mod.rs`.
#![tactic(auto)]

mod guides;
mod offers;
pub mod range;
pub mod voicing;
