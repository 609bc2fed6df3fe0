// What a good script sets.

/// A plan by its name, with its settings.
#[derive(Clone, Copy, Debug, PartialEq, Eq)]
pub enum Choice {
    Sum,
    Echo,
    Scramble { last: u32 },
    Grid { width: u32, last: u32 },
}

/// How many places there are, what they do, and how many rounds are done at most.
#[derive(Clone, Copy, Debug, PartialEq, Eq)]
pub struct Script {
    pub places: u32,
    pub plan: Choice,
    pub rounds: u32,
}
