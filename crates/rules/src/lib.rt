// What the engine is made of: the parts of a block in work, and the rules of a turn on the parts of one job.
#![tactic(auto)]

pub mod block;
pub mod journal;
pub mod marks;
pub mod own;
pub mod program;
pub mod sizes;
pub mod versions;
