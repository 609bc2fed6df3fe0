// Events that are drawn from a seed.
ghost use Rattle.std.specs.Prelude.{◌≡◌};
ghost use Rattle.crew_script.specs.Draws.{event_at, machine_at, state_after};

use crate::settings::{Event, Machine};

// A linear congruential generator, by its factor and its step.
const FACTOR: u64 = 6364136223846793005;

const STEP: u64 = 1442695040888963407;

/// The generator's state after one draw, and the event that it draws for so many workers. The first state is the seed.
pub fn draw(state: u64, workers: u8) -> (u64, Event)
    ensures state { result.0 ≡ state_after state }
    ensures event { result.1 ≡ event_at (state_after state) workers }
{
    let next = state.wrapping_mul(FACTOR).wrapping_add(STEP);
    (next, event_at(next, workers))
}

/// The events that a seed draws for so many workers, without end.
#[derive(Clone, Copy)]
pub struct Draws {
    state: u64,
    workers: u8,
}

impl Draws {
    ghost use Rattle.crew_script.specs.Drawing.{begun};

    pub fn of(seed: u64, workers: u8) -> Draws
        ensures { result ≡ begun seed workers }
    {
        Draws {
            state: seed,
            workers,
        }
    }
}

impl Iterator for Draws {
    ghost use Rattle.crew_script.specs.Drawing.{Draw};

    type Item = Event;

    ghost next_gives = { Draw };

    fn next(&mut self) -> Option<Event> {
        let (state, event) = draw(self.state, self.workers);
        self.state = state;
        Some(event)
    }
}

// The upper half of the state says which event: its lowest byte the kind, and the rest the machine or the number.
fn event_at(state: u64, workers: u8) -> Event
    ensures { result ≡ event_at state workers }
{
    let kind = (state >> 32) % 256;
    let rest = state >> 40;
    match kind {
        0..182 => Event::Give,
        182..192 => Event::Lose,
        192..202 => Event::Twice,
        202..222 => Event::Late((rest % 8) as u32),
        222..234 => Event::Tick(machine_at(rest, workers)),
        234..254 => Event::Up(machine_at(rest, workers)),
        _ => Event::Cut {
            machine: machine_at(rest, workers),
            keeps: None,
        },
    }
}

fn machine_at(rest: u64, workers: u8) -> Machine
    ensures { result ≡ machine_at rest workers }
{
    let machine = rest % (u64::from(workers) + 1);
    if machine < u64::from(workers) {
        Machine::Worker(machine as u8)
    } else {
        Machine::Foreman
    }
}
