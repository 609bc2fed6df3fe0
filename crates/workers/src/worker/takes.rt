// A message comes.
ghost use Rattle.std.specs.Prelude.{◌≡◌, IfOk};
ghost use Rattle.crew.specs.Stored.{message_of, records_of};
ghost use Rattle.crew.specs.Worker.{took};
ghost use Rattle.meaning.specs.Packets.{letters_of};
ghost use Rattle.workers.specs.Crewed.{Replied, job_in, worker_of};

use crate::answer::Answer;
use crate::worker::Worker;
use crew::{Kind, Line, Record, Refusal};
use meaning::{Letters, Plan};
use std::alloc::{AllocError, Global};

impl Worker {
    /// A message that came on a line, with its letters. The journal is what was kept so far.
    pub fn take<P: Plan>(
        &mut self,
        heap: Global,
        plan: &P,
        journal: &[Record],
        line: Line,
        kind: Kind,
        letters: &Letters,
    ) -> Result<Answer, AllocError>
        ensures same { self.new.station ≡ self.old.station }
        ensures replied { IfOk result (λ a. Replied (took (job_in self.old (P.Plan.program plan.now)) self.old.station.me.0 (records_of journal.now) (worker_of self.old) line.0 (message_of kind (letters_of letters.now))) self.new a) }
    {
        match kind {
            Kind::Batch(batch) => self.take_batch(heap, line, batch, letters),
            Kind::Go(go) => self.take_go(heap, line, go),
            Kind::Anew(anew) => self.take_anew(heap, plan, journal, line, anew),
            Kind::Ready(_) | Kind::PutBy(_) | Kind::Hello(_) => {
                Ok(Answer::refusing(heap, Refusal::Malformed))
            }
        }
    }
}
