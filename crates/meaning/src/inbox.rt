// The inbox: the letters that were sent in the last round, found by receiver.
ghost use Rattle.std.specs.Prelude.{◌-◌, length};
ghost use Rattle.meaning.specs.Groups.{Indexed};
ghost use Rattle.meaning.specs.Packets.{There};

use crate::group::Index;
use crate::letters::Letters;
use crate::numbers::Place;
use thiserror::Error;

mod calls;
mod impls;

/// The letters stand as they were sent, and the index finds those of a place. The next round's index is made in the
/// spare one.
#[derive(Drop)]
pub struct Inbox {
    letters: Letters,
    index: Index,
    spare: Index,
    ghost there: { There (length index.starts.items - 1) letters.heads.items },
    ghost indexed: { Indexed (length index.starts.items - 1) letters.heads.items index.starts.items index.order.items },
}

/// Goes through one place's letters, by rising senders, those of one sender in the order sent, from the next one on.
#[derive(Drop)]
pub struct LettersTo<'a> {
    inbox: &'a Inbox,
    place: Place,
    next: usize,
}

/// Why letters were not taken over.
#[derive(Clone, Copy, Debug, PartialEq, Eq, Error)]
pub enum TakeOverError {
    #[error("a letter to a place that isn't there")]
    MissingPlace,
    #[error("no memory")]
    OutOfMemory,
}
