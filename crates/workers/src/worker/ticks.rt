// A tick: everything is said again.
ghost use Rattle.std.specs.Prelude.{◌≡◌, IfOk};
ghost use Rattle.crew.specs.Worker.{ticked};
ghost use Rattle.meaning.specs.Meaning.{Program};
ghost use Rattle.workers.specs.Crewed.{Replied, job_in, worker_of};

use crate::answer::Answer;
use crate::worker::Worker;
use std::alloc::{AllocError, Global};

impl Worker {
    pub fn tick(&self, heap: Global) -> Result<Answer, AllocError>
        ensures { IfOk result (λ a. (q : Program) → Replied (ticked (job_in self.now q) self.now.station.me.0 (worker_of self.now)) self.now a) }
    {
        let says = self.all_said(heap)?;
        Ok(Answer::saying(heap, says, Ok(())))
    }
}
