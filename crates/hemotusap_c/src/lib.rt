// The calls that C links: each hands its arguments on to the boundary's function of that name, and promises what that promises.
// Two crates, since one is a library or a static library. include/hemotusap.h declares them. No contract fixes the order of parameters: tests/run-differential notices a wrong one.
#![tactic(auto)]

pub mod moves;
pub mod naming;
pub mod scores;
pub mod symbols;
pub mod voices;
