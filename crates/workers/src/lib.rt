// A worker: its share of the places, and its calls.
#![tactic(auto)]

mod answer;
mod got;
mod history;
mod letters;
mod phase;
mod saying;
mod shares;
mod station;
mod worker;

pub use answer::Answer;
pub use worker::Worker;
