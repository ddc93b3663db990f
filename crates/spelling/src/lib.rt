// The tones of a chord, spelled as notes: the root's name, and from it each interval on the letter of its degree.
#![tactic(auto)]

pub mod tones;
