// The instruction machine and the checker of a block paper.
#![tactic(auto)]

pub mod bytes;
pub mod counts;
pub mod instruction;
pub mod job;
pub mod paper;
pub mod step;
pub mod verdict;
