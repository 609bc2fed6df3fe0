// Byte strings packed into one pool: no allocation for each string, and one string is a part of the pool.
#![tactic(auto)]

mod cuts;
mod store;
#[cfg(test)]
mod tests;

pub use cuts::part;
pub use store::{Iter, Strings};
