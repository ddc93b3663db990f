// The boundary: each function takes plain numbers and byte ranges, as the C interface does, and turns the library's answer into a number.
// Crate `hemotusap_c` exports them for C, and include/hemotusap.h declares them. No contract fixes the order of parameters:
// tests/run-differential notices a wrong one.
#![tactic(auto)]

pub mod moves;
pub mod naming;
mod outputs;
pub mod scores;
pub mod symbols;
pub mod voices;
