// What places are after so many rounds, and what they work with: numbers, letters, outbox and inbox, plans.
#![tactic(auto)]

mod group;
mod inbox;
pub mod laws;
mod letters;
mod numbers;
mod outbox;
mod plan;
#[cfg(test)]
mod tests;

pub use inbox::{Inbox, LettersTo, TakeOverError};
pub use letters::{Head, Iter, Letters, Received};
pub use numbers::{PLACES, Place, ROUNDS, Round};
pub use outbox::{Outbox, Overfull};
pub use plan::{Done, Given, Plan};
