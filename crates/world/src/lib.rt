// A whole crew in one program: its machines, their journals, and what is under way.
#![tactic(auto)]

mod call;
mod event;
mod look;
mod machine;
mod state;
mod world;

pub use event::Event;
pub use look::Look;
pub use state::State;
pub use world::World;
