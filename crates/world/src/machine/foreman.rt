// The calls of the foreman.
ghost use Rattle.std.specs.Prelude.{◌≡◌, ◌++◌, IfOk, MatchResult, Some};
ghost use Rattle.crew.specs.Paced.{foreman_of};
ghost use Rattle.crew.specs.Shared.{job_of};
ghost use Rattle.crew.specs.Stored.{notes_of, parcels_of};
ghost use Rattle.meaning.specs.Meaning.{Program};
ghost use Rattle.world.specs.Calls.{call_of};
ghost use Rattle.world.specs.Paced.{Heads, Led, desk_of};

use crate::call::Call;
use crate::machine::Machine;
use crew::{Foreman, Note, OpenFault, Paced, Parcel, Partition};
use std::alloc::{AllocError, Global};

impl Machine<Foreman, Note> {
    // One that is up does not come up, nor one whose attempts are used up; one that is down does nothing else. It has no
    // round of its own.
    pub(crate) fn call(
        &mut self,
        heap: Global,
        table: &Partition,
        call: Call<'_>,
    ) -> Result<Vec<Parcel>, AllocError>
        requires { Heads table.now.workers self.old.up }
        ensures led { IfOk result (λ ps. (q : Program) → Led (job_of table.now q) (call_of call.entry) (desk_of self.old) (desk_of self.new) (parcels_of ps.items)) }
        ensures heads { Heads table.now.workers self.new.up }
    {
        match (self.up, call) {
            (None, Call::Open) => match Foreman::open(heap, table, self.journal.records()) {
                Ok(paced) => self.keep(paced),
                Err(OpenFault::UsedUp) => Ok(Vec::new(heap)),
                // The very error that `open` met: an `AllocError` bears nothing.
                Err(OpenFault::Memory) => Err(AllocError),
            },
            (Some(foreman), Call::Take(parcel)) => {
                self.keep(foreman.take(heap, parcel.from, parcel.kind)?)
            }
            (Some(foreman), Call::Tick) => self.keep(foreman.tick(heap)?),
            _ => Ok(Vec::new(heap)),
        }
    }

    // What a call came to. Where there is no memory the foreman stays as it was.
    fn keep(&mut self, paced: Paced) -> Result<Vec<Parcel>, AllocError>
        ensures kept { IfOk result (λ ps. (desk_of self.new ≡ record { up = Some (foreman_of paced.foreman); journal = (desk_of self.old).journal ++ notes_of paced.owed.appends.items }) × (ps.items ≡ paced.owed.says.items)) }
        ensures up { MatchResult result (λ _. self.new.up ≡ Some paced.foreman) (λ _. self.new.up ≡ self.old.up) }
    {
        let Paced {
            foreman,
            owed,
            outcome: _,
        } = paced;
        let says = self.journal.keep(owed)?;
        self.up = Some(foreman);
        Ok(says)
    }
}
