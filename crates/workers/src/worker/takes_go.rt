// A go comes: on to the next round.
ghost use Rattle.std.specs.Prelude.{◌≡◌, ℕ, ◌+◌, ◌<◌, ◌≤◌, List, [], ◌∷◌, Some, IfOk, OnOk, if◌then◌else◌};
ghost use Rattle.crew.specs.Journals.{Record as Kept, Checkpoint};
ghost use Rattle.crew.specs.Messages as M;
ghost use Rattle.crew.specs.Outcomes.{Taken};
ghost use Rattle.crew.specs.Stored.{parcels_of, records_of, view_of};
ghost use Rattle.crew.specs.Worker.{is_due, to_foreman, took, went_on};
ghost use Rattle.meaning.specs.Meaning.{Program};
ghost use Rattle.workers.specs.Crewed.{Replied, go_taken, job_in, share_in, worker_of};
ghost use Rattle.workers.specs.declared.phase.Phase.TheVariants.{Worked};

use crate::answer::Answer;
use crate::got::Got;
use crate::letters::take_in;
use crate::phase::Phase;
use crate::saying::tell_foreman;
use crate::worker::Worker;
use crew::{Go, Kind, Line, Owed, PutBy, Record, Share, is_due};
use meaning::Round;
use std::alloc::{AllocError, Global};

impl Worker {
    pub(crate) fn take_go(&mut self, heap: Global, line: Line, go: Go) -> Result<Answer, AllocError>
        ensures same { self.new.station ≡ self.old.station }
        ensures replied { IfOk result (λ a. (q : Program) (js : List Kept) → Replied (took (job_in self.old q) self.old.station.me.0 js (worker_of self.old) line.0 (M.Go go.attempt.0 go.round.0 go.noted.0 go.over)) self.new a) }
    {
        match self.judge_go(line, go) {
            Err(why) => Ok(Answer::refusing(heap, why)),
            Ok(()) => self.go_on(heap, go),
        }
    }

    // Goes on to that round, with a checkpoint where one is due.
    fn go_on(&mut self, heap: Global, go: Go) -> Result<Answer, AllocError>
        requires worked { self.old.phase ≡ Worked }
        requires next { go.round.0 ≡ self.old.round.0 + 1 }
        ensures same { self.new.station ≡ self.old.station }
        ensures replied { IfOk result (λ a. (q : Program) → Replied (go_taken (job_in self.old q) self.old.station.me.0 (worker_of self.old) go.over) self.new a) }
    {
        self.step(heap, go)?;
        if is_due(go.round) {
            self.put_by(heap)
        } else {
            Ok(Answer::saying(heap, Vec::new(heap), Ok(())))
        }
    }

    // What it worked is what is, with the letters that it got.
    fn step(&mut self, heap: Global, go: Go) -> Result<(), AllocError>
        requires worked { self.old.phase ≡ Worked }
        requires next { go.round.0 ≡ self.old.round.0 + 1 }
        ensures same { self.new.station ≡ self.old.station }
        ensures went { OnOk result ((q : Program) → worker_of self.new ≡ went_on (job_in self.old q) (worker_of self.old) go.over) }
    {
        let got = Got::new(heap)?;
        let letters = self.got.merged(heap, &self.station.table)?;
        take_in(&mut self.inbox, self.station.table.places(), letters)?;
        std::mem::swap(&mut self.standing, &mut self.next.standing);
        self.phase = Phase::after(go.over);
        self.got = got;
        self.round = go.round;
        self.latest = due_or(go.round, self.latest);
        Ok(())
    }

    // A checkpoint of its round, and word of it once it is safe.
    fn put_by(&self, heap: Global) -> Result<Answer, AllocError>
        ensures { IfOk result (λ a. (records_of a.owed.appends.items ≡ Checkpoint self.now.round.0 (share_in self.now) ∷ []) × (parcels_of a.owed.says.items ≡ to_foreman self.now.station.me.0 (M.PutBy self.now.attempt.0 self.now.round.0) ∷ []) × (a.outcome ≡ Taken)) }
    {
        let put_by = PutBy {
            attempt: self.attempt,
            round: self.round,
        };
        let checkpoint = Record::Checkpoint {
            round: self.round,
            share: self.share()?,
        };
        let appends = vec![in heap; checkpoint]?;
        let mut says = Vec::new(heap);
        tell_foreman(heap, &mut says, self.station.me, Kind::PutBy(put_by))?;
        Ok(Answer {
            owed: Owed::new(appends, says),
            outcome: Ok(()),
        })
    }

    // A copy of what it has.
    fn share(&self) -> Result<Share, AllocError>
        ensures { IfOk result (λ s. view_of s ≡ share_in self.now) }
    {
        Ok(Share {
            states: self.standing.states.clone()?,
            rests: self.standing.rests.clone()?,
            letters: self.inbox.letters().clone()?,
        })
    }
}

fn due_or(round: Round, latest: Option<Round>) -> Option<Round>
    ensures { result ≡ (if is_due round.0 then Some round else latest) }
{
    if is_due(round) { Some(round) } else { latest }
}
