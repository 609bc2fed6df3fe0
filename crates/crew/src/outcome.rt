// What a message came to.

/// Why a message was not taken: where several hold, the first of them.
#[derive(Clone, Copy, Debug, PartialEq, Eq)]
pub enum Refusal {
    // no such kind, line, place or worker, or letters not by rising senders
    Malformed,
    // of another attempt or round
    Stale,
    // it came before
    Double,
    // for another worker, or letters of places that are another's
    Foreign,
    // a go to one that is not ready
    NotReady,
    // an anew from a round of which there is no checkpoint
    NoCheckpoint,
    // rounds or attempts are used up
    UsedUp,
}

/// A message was taken, or why it was not.
pub type Outcome = Result<(), Refusal>;
