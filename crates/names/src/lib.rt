// Names of the pitch classes: the Rust's `inference/tables.rs`.
#![tactic(auto)]

pub mod table;
