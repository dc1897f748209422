// This crate has no code: it proves what a job that passed the checker promises the engine.
#![tactic(auto)]
