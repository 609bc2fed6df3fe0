// What can befall a crew.
ghost use Rattle.std.specs.Prelude.{◌≡◌, IfOk, OnOk, vec_len};
ghost use Rattle.crew.specs.Shared.{job_of};
ghost use Rattle.runs.specs.Crew.{delayed, doubled, fresh, gave, lost};
ghost use Rattle.std.specs.List.{All};
ghost use Rattle.world.specs.Events.{happened};
ghost use Rattle.world.specs.Seated.{IsNew};
ghost use Rattle.world.specs.Staged.{Leads, crew_of};

use crate::call::{Call, Setting};
use crate::event::Event;
use crate::machine::Machine;
use crate::state::State;
use crew::{Parcel, Partition, Record};
use meaning::Plan;
use std::alloc::{AllocError, Global};
use std::collections::VecDeque;
use workers::Worker;

impl State {
    // A crew with that table, of which nobody was ever up.
    pub(crate) fn new(heap: Global, table: Partition) -> Result<State, AllocError>
        ensures { IfOk result (λ s. (s.table ≡ table) × (crew_of s ≡ fresh)) }
    {
        let seats = new_seats(heap, table.workers())?;
        Ok(State {
            table,
            seats,
            desk: Machine::new(heap),
            underway: VecDeque::new(heap),
        })
    }

    // Every event by one call: events are data, read from a script.
    pub(crate) fn happen<P: Plan>(
        &mut self,
        setting: &Setting<'_, P>,
        event: Event,
    ) -> Result<(), AllocError>
        ensures { OnOk result (Leads (happened (job_of self.old.table (P.Plan.program setting.now.plan.now)) event) self.old self.new) }
    {
        match event {
            Event::Up(line) => self.act(setting, line, Call::Open),
            Event::Tick(line) => self.act(setting, line, Call::Tick),
            Event::Work(line) => self.act(setting, line, Call::Work),
            Event::Crash(line) => {
                self.crash(line);
                Ok(())
            }
            Event::Give => self.give(setting),
            Event::Twice => self.twice(setting),
            Event::Lose => {
                self.lose();
                Ok(())
            }
            Event::Late(k) => self.late(k),
        }
    }

    // What is due next is handed over.
    fn give<P: Plan>(&mut self, setting: &Setting<'_, P>) -> Result<(), AllocError>
        ensures { OnOk result (Leads (gave (job_of self.old.table (P.Plan.program setting.now.plan.now))) self.old self.new) }
    {
        let Some(parcel) = self.underway.pop_front() else {
            return Ok(());
        };
        self.act(setting, parcel.to, Call::Take(&parcel))
    }

    // It is handed over, and is under way again.
    fn twice<P: Plan>(&mut self, setting: &Setting<'_, P>) -> Result<(), AllocError>
        ensures { OnOk result (Leads (doubled (job_of self.old.table (P.Plan.program setting.now.plan.now))) self.old self.new) }
    {
        let Some(parcel) = self.underway.pop_front() else {
            return Ok(());
        };
        self.underway.push_back(Parcel {
            letters: parcel.letters.clone()?,
            ..parcel
        })?;
        self.act(setting, parcel.to, Call::Take(&parcel))
    }

    // It is lost.
    fn lose(&mut self)
        ensures { Leads lost self.old self.new }
    {
        drop(self.underway.pop_front());
    }

    // It comes behind so many others.
    fn late(&mut self, k: usize) -> Result<(), AllocError>
        ensures { OnOk result (Leads (delayed k) self.old self.new) }
    {
        let Some(parcel) = self.underway.pop_front() else {
            return Ok(());
        };
        let behind = k.min(self.underway.len());
        self.underway.insert(behind, parcel)?;
        Ok(())
    }
}

// So many seats, of workers that were never up.
fn new_seats(heap: Global, workers: u8) -> Result<Vec<Machine<Worker, Record>>, AllocError>
    ensures { IfOk result (λ v. (vec_len v ≡ workers) × All IsNew v.items) }
{
    (0..workers).map(|_| Machine::new(heap)).collect(heap)
}
