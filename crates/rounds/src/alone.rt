// One machine that has all places.
ghost use Rattle.std.specs.Prelude.{◌≡◌, ◌<◌, ◌≤◌, length};
ghost use Rattle.meaning.specs.Caps.{place_cap};
ghost use Rattle.rounds.specs.Work.{places_of};

use crate::standing::Standing;
use crate::worked::Worked;
use meaning::{Inbox, Round};

mod calls;
mod runs;

pub use runs::run;

/// Is told of each round that is done.
// A trait of the engine's own: who passes a closure would have to show that it may be called.
pub trait Watch {
    fn reached(&mut self, round: Round);
}

/// All places after so many rounds, and memory for the next round beside.
// How many there are stands by itself, since places are counted by 32 bits and what they have by the machine's words.
#[derive(Drop)]
pub struct Alone {
    round: Round,
    places: u32,
    standing: Standing,
    inbox: Inbox,
    next: Worked,
    ghost few: { places ≤ place_cap },
    ghost known: { length standing.rests.items ≡ places },
    ghost beside: { places_of next ≡ places },
}
