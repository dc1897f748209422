#![tactic(auto)]

// This crate has no code: its definitions stand in specs/, its theorems in proofs/.
