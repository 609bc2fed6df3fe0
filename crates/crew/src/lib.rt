// What machines say to each other and keep, what each call comes to (specs/), and the foreman, who paces the rounds.
#![tactic(auto)]

mod foreman;
mod journal;
mod message;
mod numbers;
mod outcome;
mod partition;
#[cfg(test)]
mod tests;

pub use foreman::{Foreman, OpenFault, Paced};
pub use journal::{Journal, Note, Owed, Record, Share, is_due};
pub use message::{Anew, Batch, Go, Hello, Kind, Parcel, PutBy, Ready};
pub use numbers::{ATTEMPTS, Attempt, Line};
pub use outcome::{Outcome, Refusal};
pub use partition::{Partition, PartitionFault, Stretch};
