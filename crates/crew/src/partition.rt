// Who has which place.
ghost use Rattle.std.specs.Prelude.{◌≡◌, ℕ, ◌<◌, ◌≤◌, vec_len, slice_index};
ghost use Rattle.crew.specs.Job.{worker_cap};
ghost use Rattle.crew.specs.declared.partition.PartitionFault.TheVariants.{Memory};
ghost use Rattle.meaning.specs.Caps.{place_cap};

use crate::numbers::Line;
use meaning::Place;
use std::alloc::AllocError;
use thiserror::Error;

mod calls;
mod counts;

/// From this place on, up to the next stretch, places are the worker's.
#[derive(Clone, Copy, Debug, PartialEq, Eq)]
pub struct Stretch {
    pub first: Place,
    pub worker: Line,
}

/// Why there is no such table.
#[derive(Clone, Copy, Debug, PartialEq, Eq, Error)]
pub enum PartitionFault {
    #[error("more than 1048576 places")]
    Places,
    #[error("a crew has 1 to 64 workers")]
    Workers,
    // The one at this index cannot stand there: the first does not begin at place 0, a later one not after the one
    // before it, or its place or its worker isn't there.
    #[error("the stretches are bad")]
    Stretches { index: usize },
    #[error("no memory")]
    Memory,
}

impl From<AllocError> for PartitionFault {
    ghost from_gives = { λ _ e. e ≡ Memory };

    fn from(_: AllocError) -> PartitionFault {
        PartitionFault::Memory
    }
}

/// The table that all machines have: of how many places and workers, and the worker of each place.
#[derive(Drop)]
pub struct Partition {
    // As it was given: the owners' length is the same number as a usize, and whoever asks would have to narrow it.
    places: u32,
    workers: u8,
    owners: Vec<u8>,
    ghost few: { places ≤ place_cap },
    ghost some: { 1 ≤ workers },
    ghost many: { workers ≤ worker_cap },
    ghost long: { vec_len owners ≡ places },
    ghost owned: { ((v : ℕ) → v < places → slice_index owners.items v < workers) },
}
