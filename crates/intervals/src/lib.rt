// Sets of classes, intervals and degrees: the Rust's `chord/interval.rs`. Besides, a chord's bass.
#![tactic(auto)]

pub mod bass;
pub mod interval;
pub mod set;
