// Letters between workers: put together, cut up and judged.
#![tactic(auto)]

mod judged;
mod merged;
mod parts;

pub use judged::{between, well_formed};
pub use merged::{merge, merge_all};
pub use parts::cut;
