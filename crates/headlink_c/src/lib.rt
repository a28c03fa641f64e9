// The exports of `headlink`, each with its clauses, as the static library that C and Rust link.
#![tactic(auto)]

pub mod building;
pub mod fields;
pub mod replies;
