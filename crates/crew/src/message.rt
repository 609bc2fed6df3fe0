// What machines say to each other.
use crate::numbers::{Attempt, Line};
use meaning::{Letters, Round};

/// A worker: the letters that its places sent to the places of another in a round.
#[derive(Clone, Copy, Debug, PartialEq, Eq)]
pub struct Batch {
    pub attempt: Attempt,
    pub round: Round,
    pub from: Line,
    pub to: Line,
}

/// A worker: it has done its round and has a batch of it from each; and whether its places rest then and no letter came.
#[derive(Clone, Copy, Debug, PartialEq, Eq)]
pub struct Ready {
    pub attempt: Attempt,
    pub round: Round,
    pub over: bool,
}

/// The foreman: go on to that round; the round of which all have a checkpoint; and whether it is over.
#[derive(Clone, Copy, Debug, PartialEq, Eq)]
pub struct Go {
    pub attempt: Attempt,
    pub round: Round,
    pub noted: Round,
    pub over: bool,
}

/// The foreman: begin that attempt, from the checkpoint of that round.
#[derive(Clone, Copy, Debug, PartialEq, Eq)]
pub struct Anew {
    pub attempt: Attempt,
    pub round: Round,
}

/// A worker: it has a checkpoint of that round.
#[derive(Clone, Copy, Debug, PartialEq, Eq)]
pub struct PutBy {
    pub attempt: Attempt,
    pub round: Round,
}

/// A worker: it came up, and was last in that attempt.
#[derive(Clone, Copy, Debug, PartialEq, Eq)]
pub struct Hello {
    pub attempt: Attempt,
}

/// A message's kind with its numbers. The letters of a batch stand beside it.
#[derive(Clone, Copy, Debug, PartialEq, Eq)]
pub enum Kind {
    Batch(Batch),
    Ready(Ready),
    Go(Go),
    Anew(Anew),
    PutBy(PutBy),
    Hello(Hello),
}

/// A message on its way. Only a batch has letters.
#[derive(Drop)]
pub struct Parcel {
    pub from: Line,
    pub to: Line,
    pub kind: Kind,
    pub letters: Letters,
}
