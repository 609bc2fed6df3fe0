// How a foreman opens, from its notes.
ghost use Rattle.std.specs.Prelude.{MatchResult};
ghost use Rattle.crew.specs.Foreman.{opened};
ghost use Rattle.crew.specs.Paced.{Gives, OpenRefused};
ghost use Rattle.crew.specs.Stored.{notes_of};

use crate::foreman::{Foreman, OpenFault, Paced};
use crate::journal::Note;
use crate::numbers::ATTEMPTS;
use crate::partition::Partition;
use std::alloc::Global;

impl Foreman {
    /// With no note it is new, and in attempt 0. One that came up begins the next attempt, from the last round that it
    /// noted.
    pub fn open(heap: Global, table: &Partition, notes: &[Note]) -> Result<Paced, OpenFault>
        ensures { MatchResult result (Gives table.now.workers (opened table.now.workers (notes_of notes.now))) (OpenRefused table.now.workers (notes_of notes.now)) }
    {
        let (attempt, noted) = Note::last(notes);
        if attempt.0 >= ATTEMPTS - 1 {
            return Err(OpenFault::UsedUp);
        }
        let left = Foreman::begun(table.workers(), attempt, noted);
        let paced = if notes.is_empty() {
            left.noting(heap, Note::Began { attempt })?
        } else {
            left.begin(heap, noted, Vec::new(heap))?
        };
        Ok(paced)
    }
}
