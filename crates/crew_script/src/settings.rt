// What a good script sets.
use script::Choice;

/// The places from the first one on, up to the next stretch or the last place, are that worker's.
#[derive(Clone, Copy, Debug, PartialEq, Eq)]
pub struct Span {
    pub first: u32,
    pub worker: u8,
}

/// Scripts have 64 for the foreman; the numbers between it and the last worker are no machine's.
#[derive(Clone, Copy, Debug, PartialEq, Eq)]
pub enum Machine {
    Worker(u8),
    Foreman,
}

/// What befalls a crew. What was said and not yet handed over is a queue; `Give`, `Lose`, `Twice` and `Late` are about its
/// head.
#[derive(Clone, Copy, Debug, PartialEq, Eq)]
pub enum Event {
    Tick(Machine),
    Up(Machine),
    Cut {
        machine: Machine,
        keeps: Option<u32>,
    },
    Give,
    Lose,
    Twice,
    Late(u32),
    Seed {
        seed: u32,
        draws: u32,
    },
    Until {
        ticks: u32,
    },
}

/// With no stretches the places are shared out evenly.
#[derive(Debug, Drop)]
pub struct Crew {
    pub workers: u8,
    pub stretches: Vec<Span>,
    pub events: Vec<Event>,
}

/// One machine that does so many rounds at most, or a crew.
#[derive(Debug, Drop)]
pub enum Run {
    Alone { rounds: u32 },
    Crew(Crew),
}

/// How many places there are, what they do, and who does it.
#[derive(Debug, Drop)]
pub struct Script {
    pub places: u32,
    pub plan: Choice,
    pub run: Run,
}
