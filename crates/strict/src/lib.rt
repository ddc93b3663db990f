// The candidates of keys alone, for hardware: a list with a code that MIDI 1.0 does not allow is refused.
#![tactic(auto)]

pub mod entry;
