// A crew together with its plan, and with the fact that some run leads to it.
ghost use Rattle.world.specs.Looks.{Reached};

use crate::call::Setting;
use crate::event::Event;
use crate::look::Look;
use crate::state::State;
use crew::{Line, Partition};
use meaning::Plan;
use std::alloc::{AllocError, Global};

/// A plan and a crew, and its type says that some run on the plan leads to it.
#[derive(Drop)]
pub struct World<P: Plan + Drop> {
    plan: P,
    state: State,
    ghost reached: { Reached (P.Plan.program plan) state },
}

impl<P: Plan + Drop> World<P> {
    ghost use Rattle.std.specs.Prelude.{◌≡◌, ◌<◌, ◌↔◌, IfSome, IfOk, IsSome, slice_index};
    ghost use Rattle.crew.specs.Job.{places_of};
    ghost use Rattle.crew.specs.Shared.{job_of};
    ghost use Rattle.runs.specs.Crew.{fresh};
    ghost use Rattle.world.specs.Events.{happened};
    ghost use Rattle.world.specs.Looks.{Meant, places_at};
    ghost use Rattle.world.specs.Staged.{crew_of};

    /// A crew of which nobody was ever up.
    pub fn new(heap: Global, plan: P, table: Partition) -> Result<World<P>, AllocError>
        ensures { IfOk result (λ w. (w.plan ≡ plan) × (w.state.table ≡ table) × (crew_of w.state ≡ fresh)) }
    {
        let state = State::new(heap, table)?;
        Ok(World { plan, state })
    }

    /// ONE EVENT: which crew it leads to is what the model says. It takes the world, since where memory runs out halfway no
    /// run leads to what is left.
    pub fn happen(self, heap: Global, event: Event) -> Result<World<P>, AllocError>
        ensures { IfOk result (λ w. (w.plan ≡ self.plan) × (w.state.table ≡ self.state.table) × (crew_of w.state ≡ happened (job_of self.state.table (P.Plan.program self.plan)) event (crew_of self.state))) }
    {
        let World { plan, mut state } = self;
        state.happen(&Setting { heap, plan: &plan }, event)?;
        Ok(World { plan, state })
    }

    /// THE THEOREM, on the call by which a place is shown: whatever was lost, doubled or late and whoever crashed, its state
    /// and its rest are what one machine alone would have come to after so many rounds. It is place k of a worker, by rising
    /// number; none where there is no such worker or place, or where it is down.
    pub fn look(&self, line: Line, k: usize) -> Option<Look<'_>>
        ensures meant { IfSome result (Meant (P.Plan.program self.now.plan) self.now.state) }
        ensures place { IfSome result (λ x. x.place.0 ≡ slice_index (places_of (job_of self.now.state.table (P.Plan.program self.now.plan)) line.0) k) }
        ensures there { IsSome result ↔ (k < places_at self.now.state line.0) }
    {
        let worker = self.state.worker(line)?;
        Some(Look {
            round: worker.round(),
            place: worker.place(k)?,
            rests: worker.rests(k),
            state: worker.state(k)?,
        })
    }

    /// What can be asked of a crew.
    pub fn state(&self) -> &State
        ensures { result.now ≡ self.now.state }
    {
        &self.state
    }
}
