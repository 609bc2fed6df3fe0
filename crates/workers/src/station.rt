// What stays of a worker.
use crew::{Line, Partition};
use meaning::Place;

mod calls;

// Its line, the table that all have, and its own places of it.
#[derive(Drop)]
pub(crate) struct Station {
    pub(crate) me: Line,
    pub(crate) table: Partition,
    pub(crate) mine: Vec<Place>,
}
