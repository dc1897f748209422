// A session: its bytes to the text of what happened.
#![tactic(auto)]

mod fields;
pub mod play;
mod text;
