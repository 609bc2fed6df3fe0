// What a worker says, which is a function of its state.
ghost use Rattle.std.specs.Prelude.{◌≡◌, ℕ, ◌<◌, ◌≤◌, true, ◌++◌, IfOk, OnOk};
ghost use Rattle.crew.specs.Stored.{parcels_of};
ghost use Rattle.crew.specs.Worker.{all_true, is_ready, is_silent, says_batches, says_put_by, says_ready, ticked, view_in};
ghost use Rattle.meaning.specs.Meaning.{Program};
ghost use Rattle.workers.specs.Crewed.{job_in, worker_of};
ghost use Rattle.workers.specs.declared.phase.Phase.TheVariants.{Worked};

use crate::phase::Phase;
use crate::saying::{send_parts, tell_foreman};
use crate::worker::Worker;
use batches::cut;
use crew::{Hello, Kind, Parcel, PutBy, Ready};
use std::alloc::{AllocError, Global};

impl Worker {
    // It has done its round, and has a batch of it from each.
    pub(crate) fn is_ready(&self) -> bool
        ensures ready { (q : Program) → result ≡ is_ready (job_in self.now q) (worker_of self.now) }
        ensures worked { result ≡ true → self.now.phase ≡ Worked }
    {
        self.phase == Phase::Worked && self.got.has_all(&self.station.table)
    }

    // All its places rest after the round, and no letter came for them.
    fn is_silent(&self) -> bool
        ensures { (q : Program) → result ≡ is_silent (job_in self.now q) (worker_of self.now) }
    {
        self.next_rests() && self.got.all_empty(&self.station.table)
    }

    fn next_rests(&self) -> bool
        ensures { result ≡ all_true (view_in (worker_of self.now).worked).rests }
    {
        self.phase != Phase::Worked || self.next.standing.all_rest()
    }

    pub(crate) fn say_batches(&self, heap: Global, says: &mut Vec<Parcel>) -> Result<(), AllocError>
        ensures { OnOk result ((q : Program) → parcels_of says.new.items ≡ parcels_of says.old.items ++ says_batches (job_in self.now q) self.now.station.me.0 (worker_of self.now)) }
    {
        if self.phase != Phase::Worked {
            return Ok(());
        }
        let parts = cut(heap, self.next.out.letters(), &self.station.table)?;
        send_parts(says, parts, self.station.me, self.attempt, self.round)
    }

    pub(crate) fn say_ready(&self, heap: Global, says: &mut Vec<Parcel>) -> Result<(), AllocError>
        ensures { OnOk result ((q : Program) → parcels_of says.new.items ≡ parcels_of says.old.items ++ says_ready (job_in self.now q) self.now.station.me.0 (worker_of self.now)) }
    {
        if !self.is_ready() {
            return Ok(());
        }
        let ready = Ready {
            attempt: self.attempt,
            round: self.round,
            over: self.is_silent(),
        };
        tell_foreman(heap, says, self.station.me, Kind::Ready(ready))
    }

    fn say_put_by(&self, heap: Global, says: &mut Vec<Parcel>) -> Result<(), AllocError>
        ensures { OnOk result (parcels_of says.new.items ≡ parcels_of says.old.items ++ says_put_by self.now.station.me.0 (worker_of self.now).attempt (worker_of self.now).latest) }
    {
        let Some(round) = self.latest else {
            return Ok(());
        };
        let put_by = PutBy {
            attempt: self.attempt,
            round,
        };
        tell_foreman(heap, says, self.station.me, Kind::PutBy(put_by))
    }

    // Everything again.
    pub(crate) fn all_said(&self, heap: Global) -> Result<Vec<Parcel>, AllocError>
        ensures { IfOk result (λ v. (q : Program) → parcels_of v.items ≡ (ticked (job_in self.now q) self.now.station.me.0 (worker_of self.now)).says) }
    {
        let mut says = Vec::new(heap);
        match self.phase {
            Phase::Out => {
                let hello = Hello {
                    attempt: self.attempt,
                };
                tell_foreman(heap, &mut says, self.station.me, Kind::Hello(hello))?;
                Ok(says)
            }
            Phase::Idle | Phase::Worked => {
                self.say_batches(heap, &mut says)?;
                self.say_ready(heap, &mut says)?;
                self.say_put_by(heap, &mut says)?;
                Ok(says)
            }
            Phase::Over => Ok(says),
        }
    }
}
