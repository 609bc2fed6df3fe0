// What places came to in a round, in memory beside what they were.
use crate::standing::Standing;
use meaning::Outbox;

mod calls;

/// What the places so far have after the round, what they sent, and the memory that a plan is lent for a new state.
#[derive(Drop)]
pub struct Worked {
    pub standing: Standing,
    pub out: Outbox,
    pub room: [u8; 256],
}
