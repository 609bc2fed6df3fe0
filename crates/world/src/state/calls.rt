// A call of one machine.
ghost use Rattle.std.specs.Prelude.{IfOk, OnOk};
ghost use Rattle.crew.specs.Shared.{job_of};
ghost use Rattle.crew.specs.Stored.{parcels_of};
ghost use Rattle.runs.specs.Crew.{acts, crashed};
ghost use Rattle.meaning.specs.Meaning.{Program};
ghost use Rattle.world.specs.Calls.{call_of};
ghost use Rattle.world.specs.Staged.{Leads, Told};

use crate::call::{Call, Setting};
use crate::state::State;
use crew::{Line, Parcel};
use meaning::Plan;
use std::alloc::AllocError;
use std::collections::VecDeque;

impl State {
    // What a machine says comes behind what is under way. On a line where there is nobody nothing happens.
    pub(crate) fn act<P: Plan>(
        &mut self,
        setting: &Setting<'_, P>,
        line: Line,
        call: Call<'_>,
    ) -> Result<(), AllocError>
        ensures { OnOk result (Leads (λ s. acts (job_of self.old.table (P.Plan.program setting.now.plan.now)) line.0 (call_of call.entry) s.underway s) self.old self.new) }
    {
        let says = self.tell(setting, line, call)?;
        self.underway.append(&mut VecDeque::from_vec(says))
    }

    fn tell<P: Plan>(
        &mut self,
        setting: &Setting<'_, P>,
        line: Line,
        call: Call<'_>,
    ) -> Result<Vec<Parcel>, AllocError>
        ensures { IfOk result (λ says. Told (job_of self.old.table (P.Plan.program setting.now.plan.now)) line.0 (call_of call.entry) self.old self.new (parcels_of says.items)) }
    {
        if line == Line::FOREMAN {
            self.desk.call(setting.heap, &self.table, call)
        } else if let Some(seat) = self.seats.get_mut(line.0 as usize) {
            seat.call(setting, &self.table, line, call)
        } else {
            Ok(Vec::new(setting.heap))
        }
    }

    // A machine crashes: its journal is all that is left. On a line where there is nobody nothing happens.
    pub(crate) fn crash(&mut self, line: Line)
        ensures { (q : Program) → Leads (crashed (job_of self.old.table q) line.0) self.old self.new }
    {
        if line == Line::FOREMAN {
            self.desk.crash();
        } else if let Some(seat) = self.seats.get_mut(line.0 as usize) {
            seat.crash();
        }
    }
}
