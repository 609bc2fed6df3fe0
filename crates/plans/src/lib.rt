// The plans that come with the engine: three to test it with, and one to measure it with.
#![tactic(auto)]

mod bytes;
mod digest;
mod echo;
mod filling;
mod grid;
mod scramble;
mod sending;
mod sum;

pub use echo::Echo;
pub use grid::Grid;
pub use scramble::Scramble;
pub use sum::Sum;
