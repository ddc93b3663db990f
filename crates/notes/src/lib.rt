// Notes and their moves: the Rust's `chord/note.rs`.
#![tactic(auto)]

pub mod note;
