// A batch comes.
ghost use Rattle.std.specs.Prelude.{◌≡◌, ℕ, ◌<◌, ◌≤◌, List, IfOk};
ghost use Rattle.crew.specs.Journals.{Record as Kept};
ghost use Rattle.crew.specs.Messages as M;
ghost use Rattle.crew.specs.Worker.{took};
ghost use Rattle.meaning.specs.Meaning.{Program};
ghost use Rattle.meaning.specs.Packets.{letters_of};
ghost use Rattle.workers.specs.Crewed.{Replied, batch_taken, job_in, worker_of};

use crate::answer::Answer;
use crate::worker::Worker;
use crew::{Batch, Line};
use meaning::Letters;
use std::alloc::{AllocError, Global};

impl Worker {
    pub(crate) fn take_batch(
        &mut self,
        heap: Global,
        line: Line,
        batch: Batch,
        letters: &Letters,
    ) -> Result<Answer, AllocError>
        ensures same { self.new.station ≡ self.old.station }
        ensures replied { IfOk result (λ a. (q : Program) (js : List Kept) → Replied (took (job_in self.old q) self.old.station.me.0 js (worker_of self.old) line.0 (M.Batch batch.attempt.0 batch.round.0 batch.from.0 batch.to.0 (letters_of letters.now))) self.new a) }
    {
        match self.judge_batch(line, batch, letters) {
            Err(why) => Ok(Answer::refusing(heap, why)),
            Ok(()) => self.put_batch(heap, line, letters),
        }
    }

    // Keeps the batch of the worker on that line, and says that it is ready where this was the last.
    fn put_batch(
        &mut self,
        heap: Global,
        line: Line,
        letters: &Letters,
    ) -> Result<Answer, AllocError>
        requires { line.0 < self.old.station.table.workers }
        ensures same { self.new.station ≡ self.old.station }
        ensures replied { IfOk result (λ a. (q : Program) → Replied (batch_taken (job_in self.old q) self.old.station.me.0 (worker_of self.old) line.0 (letters_of letters.now)) self.new a) }
    {
        self.got.put(line, letters.clone()?);
        let mut says = Vec::new(heap);
        self.say_ready(heap, &mut says)?;
        Ok(Answer::saying(heap, says, Ok(())))
    }
}
