// A rooted set described: its intervals, the quality that it shows, and what of it a suffix names.
#![tactic(auto)]

pub mod classes;
pub mod descriptor;
pub mod kinds;
pub mod members;
pub mod showing;
