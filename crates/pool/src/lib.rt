// The pool of a voicing: its tones, and their order.
#![tactic(auto)]

pub mod order;
pub mod pool;
