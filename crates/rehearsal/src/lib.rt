// What both programs do: read a script, complain of a bad one, and play one machine alone.
#![tactic(auto)]

mod alone;
mod blocks;
mod input;
mod named;
mod progress;
#[cfg(test)]
mod tests;

pub use alone::{play, show};
pub use blocks::Blocks;
pub use input::rehearse;
pub use named::{Player, PlayerOnce, with_plan, with_plan_once};
