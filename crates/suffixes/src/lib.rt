// Every rooted set that a suffix stands for: definitions in `specs/`, and in `proofs/` demand 3 as theorems on them. It has no code.
#![tactic(auto)]
