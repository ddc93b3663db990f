// What the library's calls have in common: why they refuse, how they write an answer into the range that a caller
// lends, and short texts held in one number.
#![tactic(auto)]

pub mod output;
pub mod refusal;
pub mod text;
pub mod word;
