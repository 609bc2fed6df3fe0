// A crew that a script plays, and how it fared. Every step is an event of the proved world.
use crew::Line;
use crew_script::{Draws, Event, Machine, Tally};
use meaning::Plan;
use std::alloc::{AllocError, Global};
use world::{Event as Step, State, World};

#[derive(Drop)]
pub struct Fared<P: Plan + Drop> {
    pub heap: Global,
    pub world: World<P>,
    pub tally: Tally,
}

fn line(machine: Machine) -> Line {
    match machine {
        Machine::Worker(worker) => Line(worker),
        Machine::Foreman => Line::FOREMAN,
    }
}

fn count(times: &mut u32) {
    *times = times.saturating_add(1);
}

/// Were all workers told that it is over.
pub fn is_over(state: &State) -> bool {
    (0..state.workers()).map(Line).all(|line| state
        .worker(line)
        .is_some_and(|worker| worker.is_over()))
}

impl<P: Plan + Drop> Fared<P> {
    fn is_up(&self, line: Line) -> bool {
        let state = self.world.state();
        if line == Line::FOREMAN {
            state.foreman().is_some()
        } else {
            state.worker(line).is_some()
        }
    }

    fn due(&self) -> Option<Line> {
        self.world.state().due()
    }

    fn happen(self, step: Step) -> Result<Fared<P>, AllocError> {
        let Fared { heap, world, tally } = self;
        Ok(Fared {
            heap,
            world: world.happen(heap, step)?,
            tally,
        })
    }

    // A call of a machine; a worker does its round at once where one is due.
    fn call(self, line: Line, step: Step) -> Result<Fared<P>, AllocError> {
        self.happen(step)?.happen(Step::Work(line))
    }

    // The foreman first, then the workers in order.
    fn call_all<F: Fn(Line) -> Step>(self, step: F) -> Result<Fared<P>, AllocError>
        requires { F.IsAlwaysCallable step }
    {
        let workers = self.world.state().workers();
        let mut now = self.call(Line::FOREMAN, step(Line::FOREMAN))?;
        for line in (0..workers).map(Line) {
            now = now.call(line, step(line))?;
        }
        Ok(now)
    }

    fn all_tick(self) -> Result<Fared<P>, AllocError> {
        self.call_all(Step::Tick)
    }

    // What is due next is handed over to a machine, which may be down.
    fn hand(mut self, line: Line, step: Step) -> Result<Fared<P>, AllocError> {
        if self.is_up(line) {
            count(&mut self.tally.given);
        } else {
            count(&mut self.tally.lost);
        }
        self.call(line, step)
    }

    fn give(self) -> Result<Fared<P>, AllocError> {
        match self.due() {
            Some(line) => self.hand(line, Step::Give),
            None => Ok(self),
        }
    }

    fn twice(mut self) -> Result<Fared<P>, AllocError> {
        match self.due() {
            Some(line) => {
                count(&mut self.tally.doubled);
                self.hand(line, Step::Twice)
            }
            None => Ok(self),
        }
    }

    // A machine that is up crashes.
    fn cut(mut self, line: Line) -> Result<Fared<P>, AllocError> {
        if self.is_up(line) {
            count(&mut self.tally.cut);
        }
        self.happen(Step::Crash(line))
    }

    fn lose(mut self) -> Result<Fared<P>, AllocError> {
        if self.due().is_some() {
            count(&mut self.tally.lost);
        }
        self.happen(Step::Lose)
    }

    fn late(mut self, behind: u32) -> Result<Fared<P>, AllocError> {
        if self.due().is_some() {
            count(&mut self.tally.late);
        }
        self.happen(Step::Late(behind as usize))
    }

    // While there is a queue its head is handed over.
    fn drain(self) -> Result<Fared<P>, AllocError> {
        let mut now = self;
        // A bound that is never met: what is handed over is answered, and no proof says that this ends.
        for _ in 0..u64::MAX {
            if now.due().is_none() {
                break;
            }
            now = now.give()?;
        }
        Ok(now)
    }

    // With no faults until all were told that it is over, for at most so many rounds of ticks.
    fn until(self, ticks: u32) -> Result<Fared<P>, AllocError> {
        let mut now = self.call_all(Step::Up)?.drain()?;
        for _ in 0..ticks {
            if is_over(now.world.state()) {
                break;
            }
            now = now.all_tick()?.drain()?;
        }
        Ok(now)
    }

    // Events drawn from a seed. Where one is about the queue and there is none, all machines tick.
    fn drawn(self, seed: u32, draws: u32) -> Result<Fared<P>, AllocError> {
        let workers = self.world.state().workers();
        let mut now = self;
        for event in Draws::of(u64::from(seed), workers).take(draws as usize) {
            now = if is_of_the_queue(event) && now.due().is_none() {
                now.all_tick()?
            } else {
                now.one(event)?
            };
        }
        Ok(now)
    }

    // An event that is not one of many.
    fn one(self, event: Event) -> Result<Fared<P>, AllocError> {
        match event {
            Event::Tick(machine) => self.call(line(machine), Step::Tick(line(machine))),
            Event::Up(machine) => self.call(line(machine), Step::Up(line(machine))),
            Event::Cut { machine, .. } => self.cut(line(machine)),
            Event::Give => self.give(),
            Event::Twice => self.twice(),
            Event::Lose => self.lose(),
            Event::Late(behind) => self.late(behind),
            Event::Seed { .. } | Event::Until { .. } => Ok(self),
        }
    }

    pub fn play(self, events: &[Event]) -> Result<Fared<P>, AllocError> {
        let mut now = self;
        for event in events {
            now = match *event {
                Event::Seed { seed, draws } => now.drawn(seed, draws)?,
                Event::Until { ticks } => now.until(ticks)?,
                single => now.one(single)?,
            };
        }
        Ok(now)
    }

    /// A worker that is down is brought up to be shown: it has its first states then.
    pub fn all_up(self) -> Result<Fared<P>, AllocError> {
        let workers = self.world.state().workers();
        let mut now = self;
        for line in (0..workers).map(Line) {
            now = now.happen(Step::Up(line))?;
        }
        Ok(now)
    }
}

fn is_of_the_queue(event: Event) -> bool {
    matches!(
        event,
        Event::Give | Event::Lose | Event::Twice | Event::Late(_)
    )
}
