// A chord line in MusicXML: the `harmony` element of a candidate.
#![tactic(auto)]

mod degrees;
mod element;
pub mod harmony;
mod kinds;
