// Demand 2 as a promise of code: the settled table after any list of turns is the serial run of the first f jobs.
#![tactic(auto)]

pub mod finish;
