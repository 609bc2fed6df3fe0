// What machines keep across a crash, and what a call owes before its messages may be said.
use crate::message::Parcel;
use crate::numbers::Attempt;
use meaning::{Letters, Round};
use packed::Strings;

mod calls;

pub use calls::is_due;

/// What a worker has of its places: states and rests by rising place, and the letters for them by rising senders.
#[derive(Drop)]
pub struct Share {
    // States stand beside the rests, as many of one as of the other only if an honest run wrote them: a share is read as it
    // was written, and whether it fits is judged when a worker begins with it.
    pub states: Strings,
    pub rests: Vec<bool>,
    pub letters: Letters,
}

/// A record of a worker's journal: what it had after a round; an attempt that it joined.
#[derive(Drop)]
pub enum Record {
    Checkpoint { round: Round, share: Share },
    Joined { attempt: Attempt },
}

/// A record of the foreman's: an attempt that it began; the last round of which all have a checkpoint.
#[derive(Clone, Copy, Debug, PartialEq, Eq)]
pub enum Note {
    Began { attempt: Attempt },
    Noted { round: Round },
}

/// A machine's records, the oldest first (a write-ahead journal).
#[derive(Drop)]
pub struct Journal<R: Drop> {
    pub(crate) records: Vec<R>,
}

/// What a call owes. It cannot be let go: only `Journal::keep` takes it apart, and gives the messages once the records are safe.
pub struct Owed<R> {
    pub(crate) appends: Vec<R>,
    pub(crate) says: Vec<Parcel>,
}
