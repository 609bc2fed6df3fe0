// Every run of a crew, and what is promised of it.
#![tactic(auto)]

pub mod laws;
