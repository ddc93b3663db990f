// The quality of a chord: the Rust's `chord/quality.rs`.
#![tactic(auto)]

pub mod quality;
