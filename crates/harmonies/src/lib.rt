// The `harmony` element of MusicXML: definitions in `specs/`, what is written and how it is read, and in `proofs/` that nothing is lost
// between the two. It has no code.
#![tactic(auto)]
