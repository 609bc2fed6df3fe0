// What is done with a journal.
ghost use Rattle.std.specs.Prelude.{◌≡◌, [], ◌++◌, MatchResult};
ghost use Rattle.crew.specs.Journals.{last_began, last_noted};
ghost use Rattle.crew.specs.Stored.{notes_of, view_of};
ghost use Rattle.crew.specs.Worker.{is_due as due};

use crate::journal::{Journal, Note, Owed, Share};
use crate::message::Parcel;
use crate::numbers::Attempt;
use meaning::Round;
use std::alloc::{AllocError, Global};

/// Checkpoints are made after 8 rounds, 16 and so on.
pub fn is_due(round: Round) -> bool
    ensures { result ≡ due round.0 }
{
    round.0 % 8 == 0
}

// By hand: of a derived copy, callers learn nothing.
impl Clone for Share {
    ghost is_clone = { λ s copy. view_of copy ≡ view_of s };

    fn clone(&self) -> Result<Share, AllocError> {
        Ok(Share {
            states: self.states.clone()?,
            rests: self.rests.clone()?,
            letters: self.letters.clone()?,
        })
    }
}

impl Note {
    /// The attempt that was begun last, and the round that was noted last; 0 where there was none.
    pub fn last(notes: &[Note]) -> (Attempt, Round)
        ensures attempt { result.0.0 ≡ last_began 0 (notes_of notes.now) }
        ensures round { result.1.0 ≡ last_noted 0 (notes_of notes.now) }
    {
        let mut began = Attempt(0);
        let mut noted = Round(0);
        for note in notes {
            match *note {
                Note::Began { attempt } => began = attempt,
                Note::Noted { round } => noted = round,
            }
        }
        (began, noted)
    }
}

impl<R: Drop> Journal<R> {
    /// A machine that is new has no record.
    pub fn new(heap: Global) -> Journal<R>
        ensures { result.records.items ≡ [] }
    {
        Journal {
            records: Vec::new(heap),
        }
    }

    pub fn records(&self) -> &[R]
        ensures { result.now ≡ self.now.records.items }
    {
        &self.records
    }

    /// Appends what is owed, and only then hands out what may be said. Where memory runs out, nothing is appended and
    /// nothing is said.
    pub fn keep(&mut self, owed: Owed<R>) -> Result<Vec<Parcel>, AllocError>
        ensures { MatchResult result (λ says. (self.new.records.items ≡ self.old.records.items ++ owed.appends.items) × (says.items ≡ owed.says.items)) (λ _. self.new.records.items ≡ self.old.records.items) }
    {
        let Owed { mut appends, says } = owed;
        self.records.append(&mut appends)?;
        Ok(says)
    }
}

impl<R> Owed<R> {
    pub fn new(appends: Vec<R>, says: Vec<Parcel>) -> Owed<R>
        ensures appends { result.appends ≡ appends }
        ensures says { result.says ≡ says }
    {
        Owed { appends, says }
    }
}
