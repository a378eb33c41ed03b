// The definitions stand in specs/, the theorems on them in proofs/. This crate has no code.
#![tactic(auto)]
