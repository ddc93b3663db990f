// The library's answers as the numbers that a host gets: at or above 0 for an answer, below 0 for a refusal.
#![tactic(auto)]

pub mod numbers;
