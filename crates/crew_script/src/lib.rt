// The language of scripts with crews: what it adds to the scripts of one machine, and the line of counts.
#![tactic(auto)]

mod complaints;
mod draws;
mod events;
mod given;
mod output;
mod reader;
mod settings;
mod statements;
mod tallies;

pub use complaints::Expected;
pub use draws::{Draws, draw};
pub use output::line;
pub use reader::read;
pub use script::{Choice, Complaint, head};
pub use settings::{Crew, Event, Machine, Run, Script, Span};
pub use tallies::{Tally, counts};
