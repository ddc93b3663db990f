// From a suffix back to every rooted set that it stands for.
#![tactic(auto)]

pub mod search;
