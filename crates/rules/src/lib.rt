// The rules of the suffix: definitions in `specs/`, and in `proofs/` what holds of them at each rooted set. It has no code.
#![tactic(auto)]
