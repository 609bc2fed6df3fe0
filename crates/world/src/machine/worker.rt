// The calls of a worker.
ghost use Rattle.std.specs.Prelude.{◌≡◌, IfOk, None};
ghost use Rattle.crew.specs.Shared.{job_of};
ghost use Rattle.crew.specs.Stored.{parcels_of};
ghost use Rattle.runs.specs.World.{Open};
ghost use Rattle.world.specs.Calls.{call_of};
ghost use Rattle.world.specs.Seated.{Did, Sits, seat_of};

use crate::call::{Call, Setting};
use crate::machine::Machine;
use crew::{Line, Parcel, Partition, Record};
use meaning::Plan;
use std::alloc::AllocError;
use workers::{Answer, Worker};

impl Machine<Worker, Record> {
    // One that is up does not come up, and one that is down does nothing else.
    pub(crate) fn call<P: Plan>(
        &mut self,
        setting: &Setting<'_, P>,
        table: &Partition,
        me: Line,
        call: Call<'_>,
    ) -> Result<Vec<Parcel>, AllocError>
        requires { Sits table.now me.0 self.old.up }
        ensures did { IfOk result (λ ps. Did (job_of table.now (P.Plan.program setting.now.plan.now)) me.0 (call_of call.entry) (seat_of self.old) (seat_of self.new) (parcels_of ps.items)) }
        ensures sits { Sits table.now me.0 self.new.up }
    {
        let heap = setting.heap;
        match (&mut self.up, call) {
            (None, Call::Open) => self.open(setting, table, me),
            (Some(worker), Call::Take(parcel)) => {
                let Answer { owed, outcome: _ } = worker.take(
                    heap,
                    setting.plan,
                    self.journal.records(),
                    parcel.from,
                    parcel.kind,
                    &parcel.letters,
                )?;
                self.journal.keep(owed)
            }
            (Some(worker), Call::Tick) => {
                let Answer { owed, outcome: _ } = worker.tick(heap)?;
                self.journal.keep(owed)
            }
            (Some(worker), Call::Work) => {
                let Answer { owed, outcome: _ } = worker.work(heap, setting.plan)?;
                self.journal.keep(owed)
            }
            _ => Ok(Vec::new(heap)),
        }
    }

    fn open<P: Plan>(
        &mut self,
        setting: &Setting<'_, P>,
        table: &Partition,
        me: Line,
    ) -> Result<Vec<Parcel>, AllocError>
        requires down { self.old.up ≡ None }
        ensures did { IfOk result (λ ps. Did (job_of table.now (P.Plan.program setting.now.plan.now)) me.0 Open (seat_of self.old) (seat_of self.new) (parcels_of ps.items)) }
        ensures sits { Sits table.now me.0 self.new.up }
    {
        let table = table.clone()?;
        let (worker, Answer { owed, outcome: _ }) = Worker::open(
            setting.heap,
            setting.plan,
            me,
            table,
            self.journal.records(),
        )?;
        let says = self.journal.keep(owed)?;
        self.up = Some(worker);
        Ok(says)
    }
}
