// The word of a turn, with its byte and its refusal's number.
#![tactic(auto)]

pub mod word;
