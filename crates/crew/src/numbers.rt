// Numbers that are not to be taken for each other, and how far they go.

/// An attempt (an epoch): everything that is said bears the one that it is of.
#[derive(Clone, Copy, Debug, PartialEq, Eq, PartialOrd, Ord)]
pub struct Attempt(pub u32);

/// The line to a machine, and so the machine: workers from 0 to 63, the foreman 64. A number and no enum of the two, since a
/// message may come with any number, and one that no machine has is refused when the message is judged.
#[derive(Clone, Copy, Debug, PartialEq, Eq, PartialOrd, Ord)]
pub struct Line(pub u8);

impl Line {
    pub const FOREMAN: Line = Line(64);
}

/// Attempts are numbered below this.
pub const ATTEMPTS: u32 = 1 << 31;

// So many workers may be in a crew.
pub(crate) const WORKERS: u8 = 64;

// A slot for each that there may be.
pub(crate) const SLOTS: usize = WORKERS as usize;
