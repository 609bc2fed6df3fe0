// What a message comes to.
ghost use Rattle.std.specs.Prelude.{◌≡◌, ℕ, ◌+◌, ◌<◌, ◌≤◌, true, not, ◌&&◌, List, ◌==◌, nat_lt};
ghost use Rattle.crew.specs.Journals.{Record as Kept};
ghost use Rattle.crew.specs.Messages as M;
ghost use Rattle.crew.specs.Outcomes.{Taken, judged};
ghost use Rattle.crew.specs.Stored.{records_of};
ghost use Rattle.crew.specs.Worker.{reasons};
ghost use Rattle.meaning.specs.Meaning.{Program};
ghost use Rattle.meaning.specs.Packets.{letters_of};
ghost use Rattle.workers.specs.Crewed.{job_in, worker_of};
ghost use Rattle.workers.specs.Phases.{is_in, is_over};
ghost use Rattle.workers.specs.Seen.{begins_at};
ghost use Rattle.workers.specs.declared.phase.Phase.TheVariants.{Worked};

use crate::history::checkpoint;
use crate::worker::Worker;
use crew::{ATTEMPTS, Anew, Batch, Go, Line, Outcome, Record, Refusal};
use meaning::{Letters, Round};

impl Worker {
    pub(crate) fn judge_batch(&self, line: Line, batch: Batch, letters: &Letters) -> Outcome
        ensures judged { (q : Program) (js : List Kept) → result ≡ judged (reasons (job_in self.now q) self.now.station.me.0 js (worker_of self.now) line.0 (M.Batch batch.attempt.0 batch.round.0 batch.from.0 batch.to.0 (letters_of letters.now))) }
        ensures line { result ≡ Taken → line.0 < self.now.station.table.workers }
    {
        if !self.station.is_proper(line, batch, letters) {
            return Err(Refusal::Malformed);
        }
        if !self.awaits(batch) {
            return Err(Refusal::Stale);
        }
        if self.got.has(line) {
            return Err(Refusal::Double);
        }
        if !self.station.is_ours(line, batch, letters) {
            return Err(Refusal::Foreign);
        }
        Ok(())
    }

    // Is a batch of this attempt and round still awaited.
    fn awaits(&self, batch: Batch) -> bool
        ensures { result ≡ (is_in self.now.phase && batch.attempt.0 == self.now.attempt.0 && batch.round.0 == self.now.round.0 && not (is_over self.now.phase)) }
    {
        self.phase.is_in()
            && batch.attempt == self.attempt
            && batch.round == self.round
            && !self.phase.is_over()
    }

    pub(crate) fn judge_go(&self, line: Line, go: Go) -> Outcome
        ensures judged { (q : Program) (js : List Kept) → result ≡ judged (reasons (job_in self.now q) self.now.station.me.0 js (worker_of self.now) line.0 (M.Go go.attempt.0 go.round.0 go.noted.0 go.over)) }
        ensures worked { result ≡ Taken → self.now.phase ≡ Worked }
        ensures next { result ≡ Taken → go.round.0 ≡ self.now.round.0 + 1 }
    {
        if line != Line::FOREMAN {
            return Err(Refusal::Malformed);
        }
        if !self.is_next(go) {
            return Err(Refusal::Stale);
        }
        if !self.is_ready() {
            return Err(Refusal::NotReady);
        }
        Ok(())
    }

    // Is it the round after its own, in its attempt.
    fn is_next(&self, go: Go) -> bool
        ensures { result ≡ (is_in self.now.phase && go.attempt.0 == self.now.attempt.0 && go.round.0 == self.now.round.0 + 1) }
    {
        self.phase.is_in()
            && go.attempt == self.attempt
            && self.round.0.checked_add(1) == Some(go.round.0)
    }

    pub(crate) fn judge_anew(&self, journal: &[Record], line: Line, anew: Anew) -> Outcome
        ensures judged { (q : Program) → result ≡ judged (reasons (job_in self.now q) self.now.station.me.0 (records_of journal.now) (worker_of self.now) line.0 (M.Anew anew.attempt.0 anew.round.0)) }
        ensures begins { result ≡ Taken → begins_at anew.round.0 (records_of journal.now) ≡ true }
    {
        if line != Line::FOREMAN {
            return Err(Refusal::Malformed);
        }
        if anew.attempt <= self.attempt {
            return Err(Refusal::Stale);
        }
        if !can_begin(journal, anew.round) {
            return Err(Refusal::NoCheckpoint);
        }
        if anew.attempt.0 >= ATTEMPTS {
            return Err(Refusal::UsedUp);
        }
        Ok(())
    }
}

// Is there something to begin with from that round.
fn can_begin(journal: &[Record], round: Round) -> bool
    ensures { result ≡ begins_at round.0 (records_of journal.now) }
{
    round == Round(0) || checkpoint(journal, round).is_some()
}
