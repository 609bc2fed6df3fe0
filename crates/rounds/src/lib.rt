// One round for all places, and the run by one machine alone.
#![tactic(auto)]

mod alone;
mod fault;
mod standing;
#[cfg(test)]
mod tests;
mod worked;

pub use alone::{Alone, Watch, run};
pub use fault::Fault;
pub use standing::{Held, Iter, Standing};
pub use worked::Worked;
