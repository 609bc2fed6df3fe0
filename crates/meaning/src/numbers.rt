// Numbers that a type keeps apart, and how far they go.

/// A place (a vertex), numbered from 0.
#[derive(Clone, Copy, Debug, PartialEq, Eq, PartialOrd, Ord)]
pub struct Place(pub u32);

/// A round (a superstep), numbered from 0; also how many rounds are done.
#[derive(Clone, Copy, Debug, PartialEq, Eq, PartialOrd, Ord)]
pub struct Round(pub u32);

/// So many places there may be.
pub const PLACES: u32 = 1 << 20;

/// So many rounds can be done.
pub const ROUNDS: u32 = (1 << 31) - 1;
