// An anew comes: an attempt from a round.
ghost use Rattle.std.specs.Prelude.{◌≡◌, ℕ, ◌<◌, ◌≤◌, true, List, [], IfOk, OnOk};
ghost use Rattle.crew.specs.Messages as M;
ghost use Rattle.crew.specs.Outcomes.{Refused};
ghost use Rattle.crew.specs.Stored.{parcels_of, records_of, view_of};
ghost use Rattle.crew.specs.Worker.{answer as answers, joined_at, share_at, taking, took};
ghost use Rattle.workers.specs.Crewed.{Replied, job_in, worker_of};
ghost use Rattle.workers.specs.Seen.{begins_at};

use crate::answer::Answer;
use crate::got::Got;
use crate::history::{checkpoint, greatest_below};
use crate::letters::take_in;
use crate::phase::Phase;
use crate::saying::tell_foreman;
use crate::shares::first_share;
use crate::worker::Worker;
use crew::{Anew, Kind, Line, Owed, PutBy, Record, Refusal, Share};
use meaning::{Plan, Round};
use rounds::Standing;
use std::alloc::{AllocError, Global};

impl Worker {
    pub(crate) fn take_anew<P: Plan>(
        &mut self,
        heap: Global,
        plan: &P,
        journal: &[Record],
        line: Line,
        anew: Anew,
    ) -> Result<Answer, AllocError>
        ensures same { self.new.station ≡ self.old.station }
        ensures replied { IfOk result (λ a. Replied (took (job_in self.old (P.Plan.program plan.now)) self.old.station.me.0 (records_of journal.now) (worker_of self.old) line.0 (M.Anew anew.attempt.0 anew.round.0)) self.new a) }
    {
        match self.judge_anew(journal, line, anew) {
            Err(why) => self.refuse_anew(heap, journal, anew, why),
            Ok(()) => self.join(heap, plan, journal, anew),
        }
    }

    // Where the checkpoint isn't there, the last one before it is told all the same.
    fn refuse_anew(
        &self,
        heap: Global,
        journal: &[Record],
        anew: Anew,
        why: Refusal,
    ) -> Result<Answer, AllocError>
        ensures { IfOk result (λ a. (a.owed.appends.items ≡ []) × (parcels_of a.owed.says.items ≡ answers self.now.station.me.0 (records_of journal.now) (M.Anew anew.attempt.0 anew.round.0) (Refused why)) × (a.outcome ≡ Refused why)) }
    {
        if why != Refusal::NoCheckpoint {
            return Ok(Answer::refusing(heap, why));
        }
        let put_by = PutBy {
            attempt: anew.attempt,
            round: greatest_below(journal, anew.round),
        };
        let mut says = Vec::new(heap);
        tell_foreman(heap, &mut says, self.station.me, Kind::PutBy(put_by))?;
        Ok(Answer::saying(heap, says, Err(why)))
    }

    // Joins that attempt, and writes it down before it says anything in it.
    fn join<P: Plan>(
        &mut self,
        heap: Global,
        plan: &P,
        journal: &[Record],
        anew: Anew,
    ) -> Result<Answer, AllocError>
        requires { begins_at anew.round.0 (records_of journal.now) ≡ true }
        ensures same { self.new.station ≡ self.old.station }
        ensures replied { IfOk result (λ a. Replied (taking (job_in self.old (P.Plan.program plan.now)) self.old.station.me.0 (records_of journal.now) (worker_of self.old) 0 (M.Anew anew.attempt.0 anew.round.0)) self.new a) }
    {
        let share = self.start_share(heap, plan, journal, anew.round)?;
        self.enter(heap, share, anew)?;
        let appends = vec![in heap;
            Record::Joined {
                attempt: anew.attempt
            },
        ]?;
        Ok(Answer {
            owed: Owed::new(appends, Vec::new(heap)),
            outcome: Ok(()),
        })
    }

    // What is begun with: what the places begin with, or the checkpoint of that round.
    fn start_share<P: Plan>(
        &self,
        heap: Global,
        plan: &P,
        journal: &[Record],
        round: Round,
    ) -> Result<Share, AllocError>
        requires { begins_at round.0 (records_of journal.now) ≡ true }
        ensures { IfOk result (λ s. view_of s ≡ share_at (job_in self.now (P.Plan.program plan.now)) self.now.station.me.0 round.0 (records_of journal.now)) }
    {
        if round == Round(0) {
            return first_share(heap, plan, &self.station.mine);
        }
        checkpoint(journal, round).unwrap().clone()
    }

    // Begins with that share. One that is not of its places, or passes the limits, cannot come from an honest run: it
    // counts as want of memory.
    fn enter(&mut self, heap: Global, share: Share, anew: Anew) -> Result<(), AllocError>
        ensures same { self.new.station ≡ self.old.station }
        ensures entered { OnOk result (worker_of self.new ≡ joined_at anew.attempt.0 anew.round.0 (view_of share)) }
    {
        let Share {
            states,
            rests,
            letters,
        } = share;
        let standing = Standing::of(states, rests).ok_or(AllocError)?;
        if standing.len() != self.station.mine.len() {
            return Err(AllocError);
        }
        let got = Got::new(heap)?;
        take_in(&mut self.inbox, self.station.table.places(), letters)?;
        self.standing = standing;
        self.phase = Phase::Idle;
        self.got = got;
        self.attempt = anew.attempt;
        self.round = anew.round;
        self.latest = None;
        Ok(())
    }
}
