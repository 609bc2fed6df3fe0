// What a foreman is asked, how it begins an attempt, and what it says.
ghost use Rattle.std.specs.Prelude.{◌≡◌, ℕ, ◌+◌, ◌<◌, ◌≤◌, [], ◌∷◌, ◌++◌, IfOk, Some};
ghost use Rattle.crew.specs.Foreman.{begins, begun as begun_as, is_last, saying as saying_of, ticked, unmoved as unmoved_by};
ghost use Rattle.crew.specs.Job.{worker_cap};
ghost use Rattle.crew.specs.Journals.{Began};
ghost use Rattle.crew.specs.Messages.{to_all};
ghost use Rattle.crew.specs.Outcomes.{Taken};
ghost use Rattle.crew.specs.Paced.{again, foreman_of, Gives};
ghost use Rattle.crew.specs.Stored.{message_of, note_of, notes_of, parcels_of};
ghost use Rattle.crew.specs.Worker.{attempt_cap};

use crate::foreman::ready::Workers;
use crate::foreman::{Foreman, Paced};
use crate::journal::{Note, Owed};
use crate::message::{Anew, Go, Kind, Parcel};
use crate::numbers::{ATTEMPTS, Attempt, Line, SLOTS};
use crate::outcome::{Outcome, Refusal};
use meaning::{Letters, Round};
use std::alloc::{AllocError, Global};

// With nothing taken for so many ticks, an attempt is begun anew.
const PATIENCE: u8 = 100;

impl Foreman {
    /// The attempt that it began last.
    pub fn attempt(&self) -> Attempt
        ensures { result.0 ≡ (foreman_of self.now).attempt }
    {
        self.attempt
    }

    /// The round that all are in.
    pub fn at(&self) -> Round
        ensures { result.0 ≡ (foreman_of self.now).at }
    {
        self.at
    }

    /// The last round of which all have a checkpoint.
    pub fn noted(&self) -> Round
        ensures { result.0 ≡ (foreman_of self.now).noted }
    {
        self.noted
    }

    /// Whether it said that it is over.
    pub fn is_over(&self) -> bool
        ensures { result ≡ (foreman_of self.now).over }
    {
        self.over
    }

    /// Everything again; and at the hundredth tick with nothing taken, an attempt anew.
    pub fn tick(mut self, heap: Global) -> Result<Paced, AllocError>
        ensures { IfOk result (Gives self.workers (ticked self.workers (foreman_of self))) }
    {
        if self.over {
            return self.say_again(heap, Ok(()));
        }
        if self.quiet + 1 < PATIENCE {
            self.quiet += 1;
            return self.say_again(heap, Ok(()));
        }
        if self.is_last() {
            return self.say_again(heap, Err(Refusal::UsedUp));
        }
        self.begin(heap, self.noted, Vec::new(heap))
    }

    // In an attempt, from a round.
    pub(crate) fn begun(workers: u8, attempt: Attempt, round: Round) -> Foreman
        requires early { attempt.0 < attempt_cap }
        requires many { workers ≤ worker_cap }
        ensures workers { result.workers ≡ workers }
        ensures is { foreman_of result ≡ begun_as attempt.0 round.0 }
    {
        Foreman {
            attempt,
            start: round,
            at: round,
            ready: Workers::NONE,
            ending: true,
            over: false,
            noted: round,
            kept: [round; SLOTS],
            quiet: 0,
            workers,
        }
    }

    // Whether attempts are used up.
    pub(crate) fn is_last(&self) -> bool
        ensures { result ≡ is_last (foreman_of self.now) }
    {
        self.attempt.0 + 1 >= ATTEMPTS
    }

    // What it says on each tick.
    fn saying(&self) -> Kind
        ensures { message_of result [] ≡ saying_of (foreman_of self.now) }
    {
        if self.at == self.start && self.attempt > Attempt(0) {
            Kind::Anew(Anew {
                attempt: self.attempt,
                round: self.start,
            })
        } else {
            Kind::Go(Go {
                attempt: self.attempt,
                round: self.at,
                noted: self.noted,
                over: self.over,
            })
        }
    }

    // It owes these notes and messages.
    fn owing(self, appends: Vec<Note>, says: Vec<Parcel>, outcome: Outcome) -> Paced
        ensures { Gives self.workers (record { state = Some (foreman_of self); appends = notes_of appends.items; says = parcels_of says.items; outcome = outcome }) result }
    {
        Paced {
            foreman: self,
            owed: Owed::new(appends, says),
            outcome,
        }
    }

    // Nothing changes and nothing is said.
    pub(crate) fn unmoved(self, heap: Global, outcome: Outcome) -> Paced
        ensures { Gives self.workers (unmoved_by (foreman_of self) outcome) result }
    {
        self.owing(Vec::new(heap), Vec::new(heap), outcome)
    }

    // Says to all what it says now.
    pub(crate) fn say_again(self, heap: Global, outcome: Outcome) -> Result<Paced, AllocError>
        ensures { IfOk result (Gives self.workers (again self.workers (foreman_of self) outcome)) }
    {
        let says = to_all(heap, self.workers, self.saying())?;
        Ok(self.owing(Vec::new(heap), says, outcome))
    }

    // Writes a note, and says nothing.
    pub(crate) fn noting(self, heap: Global, note: Note) -> Result<Paced, AllocError>
        ensures { IfOk result (Gives self.workers (record { state = Some (foreman_of self); appends = note_of note ∷ []; says = []; outcome = Taken })) }
    {
        let appends = vec![in heap; note]?;
        Ok(self.owing(appends, Vec::new(heap), Ok(())))
    }

    // Begins the next attempt, from a round; these notes are written before.
    pub(crate) fn begin(
        self,
        heap: Global,
        round: Round,
        mut notes: Vec<Note>,
    ) -> Result<Paced, AllocError>
        requires { self.attempt.0 + 1 < attempt_cap }
        ensures { IfOk result (Gives self.workers (begins self.workers (foreman_of self) round.0 (notes_of notes.items ++ Began (self.attempt.0 + 1) ∷ []))) }
    {
        let attempt = Attempt(self.attempt.0 + 1);
        notes.push(Note::Began { attempt })?;
        let says = to_all(heap, self.workers, Kind::Anew(Anew { attempt, round }))?;
        let begun = Foreman::begun(self.workers, attempt, round);
        Ok(begun.owing(notes, says, Ok(())))
    }
}

// The same to each worker. Only batches have letters, and the foreman sends none.
fn to_all(heap: Global, workers: u8, kind: Kind) -> Result<Vec<Parcel>, AllocError>
    ensures { IfOk result (λ v. parcels_of v.items ≡ to_all workers (message_of kind [])) }
{
    (0..workers)
        .map(|worker| -> Result<Parcel, AllocError> {
            Ok(Parcel {
                from: Line::FOREMAN,
                to: Line(worker),
                kind,
                letters: Letters::new(heap)?,
            })
        })
        .try_collect(heap)
}
