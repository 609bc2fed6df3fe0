// The language of the program `rehearse`: the scripts that it reads, and the lines that it prints.
#![tactic(auto)]

mod complaints;
mod given;
mod lines;
mod numbers;
mod output;
mod reader;
mod settings;
mod statements;
#[cfg(test)]
mod tests;
mod words;

pub use complaints::{Complaint, Expected, Unread, note};
pub use given::{Given, say_once};
pub use lines::{Lines, Position};
pub use numbers::{limited, only};
pub use output::{head, line, put};
pub use reader::{lack, read};
pub use settings::{Choice, Script};
pub use statements::{MOST_PLACES, Statement, bare, parse, said};
pub use words::{Words, is};
