// A Mercury three-phase meter beside ours: the request for accumulated energy, 05 hex, and what is read of its answer.
#![tactic(auto)]

pub mod answering;
pub mod asking;
