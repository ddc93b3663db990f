// Paper 01's proof sheet: its rows as one table in `specs/`, proved together in `proofs/`.
#![tactic(auto)]
