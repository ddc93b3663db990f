// The pairs of note class and interval that a host gives, looked at before they become tones.
#![tactic(auto)]

pub mod checks;
