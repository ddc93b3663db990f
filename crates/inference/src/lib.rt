// From the classes that sound to how a chord is written: the Rust's `inference` module.
#![tactic(auto)]

pub mod normalize;
mod wording;
