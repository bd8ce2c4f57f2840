// The cases of the list of answers: one function for each call, which reads a case, makes the call and compares.
#![tactic(auto)]

pub mod factors;
pub mod graphs;
pub mod list;
pub mod matches;
pub mod matrices;
