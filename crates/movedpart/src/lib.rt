// A moved part keeps its symbols: definitions in `specs/`, what it is to be raised, and in `proofs/` the laws. It has no code.
#![tactic(auto)]
