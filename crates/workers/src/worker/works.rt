// Work: a round of its places, in memory beside.
ghost use Rattle.std.specs.Prelude.{◌≡◌, ℕ, ◌<◌, ◌≤◌, true, IfOk, OnOk};
ghost use Rattle.crew.specs.Worker.{is_idle, with_worked, works};
ghost use Rattle.workers.specs.Crewed.{Replied, job_in, worker_of};
ghost use Rattle.workers.specs.declared.phase.Phase.TheVariants.{Idle};

use crate::answer::Answer;
use crate::phase::Phase;
use crate::worker::Worker;
use crew::Refusal;
use meaning::{Plan, ROUNDS};
use std::alloc::{AllocError, Global};

impl Worker {
    // Is it in a round that it hasn't worked.
    fn is_idle(&self) -> bool
        ensures idle { result ≡ is_idle (worker_of self.now) }
        ensures phase { result ≡ true → self.now.phase ≡ Idle }
    {
        self.phase == Phase::Idle
    }

    /// Does the next round for its places, and says the batches of it.
    pub fn work<P: Plan>(&mut self, heap: Global, plan: &P) -> Result<Answer, AllocError>
        ensures same { self.new.station ≡ self.old.station }
        ensures replied { IfOk result (λ a. Replied (works (job_in self.old (P.Plan.program plan.now)) self.old.station.me.0 (worker_of self.old)) self.new a) }
    {
        if !self.is_idle() {
            return Ok(Answer::saying(heap, Vec::new(heap), Ok(())));
        }
        if self.round.0 >= ROUNDS {
            return Ok(Answer::refusing(heap, Refusal::UsedUp));
        }
        self.do_round(plan)?;
        let mut says = Vec::new(heap);
        self.say_batches(heap, &mut says)?;
        self.say_ready(heap, &mut says)?;
        Ok(Answer::saying(heap, says, Ok(())))
    }

    fn do_round<P: Plan>(&mut self, plan: &P) -> Result<(), AllocError>
        requires { self.old.phase ≡ Idle }
        ensures same { self.new.station ≡ self.old.station }
        ensures worked { OnOk result (worker_of self.new ≡ with_worked (job_in self.old (P.Plan.program plan.now)) self.old.station.me.0 (worker_of self.old)) }
    {
        let mine = self.station.mine.iter().copied();
        self.next
            .work(plan, self.round, mine, &self.standing, &self.inbox)?;
        self.phase = Phase::Worked;
        Ok(())
    }
}
