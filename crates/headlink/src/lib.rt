// The head's C functions. Each takes numbers and lent bytes apart, calls a proved function and hands its answer on.
#![tactic(auto)]

pub mod building;
pub mod fields;
pub mod replies;
