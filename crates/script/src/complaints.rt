// What is wrong with a script, and where.
ghost use Rattle.std.specs.Prelude.{◌≡◌, ◌<◌, ◌++◌, length, Some, MatchResult};
ghost use Rattle.script.specs.Reading.{noted};
ghost use Rattle.script.specs.Wording.{wording};

use crate::lines::Position;
use std::alloc::AllocError;
use std::fmt;

/// What should have stood there. The last three are whole lines that are missing.
#[derive(Clone, Copy, Debug, PartialEq, Eq)]
pub enum Expected {
    FirstWord,
    PlaceCount,
    PlanName,
    NoSettings,
    ScrambleSettings,
    GridSettings,
    RoundCount,
    Once,
    PlacesLine,
    PlanLine,
    AloneLine,
}

impl Expected {
    // By hand, in place of thiserror's derive: that has no contract, and here it is promised what is printed.
    pub fn text(self) -> &'static str
        ensures { result.now ≡ wording self }
    {
        match self {
            Expected::FirstWord => "'places', 'plan' or 'alone'",
            Expected::PlaceCount => "a number of places from 0 to 1048576 and no other word",
            Expected::PlanName => "a plan: sum, echo, scramble L or grid W L",
            Expected::NoSettings => "no word after the plan's name",
            Expected::ScrambleSettings => "'scramble L', L from 0 to 4294967295",
            Expected::GridSettings => "'grid W L', W from 1 to 1048576, L from 0 to 4294967295",
            Expected::RoundCount => "a number of rounds from 0 to 2147483647 and no other word",
            Expected::Once => "each of 'places', 'plan' and 'alone' only once",
            Expected::PlacesLine => "a line 'places N'",
            Expected::PlanLine => "a line 'plan NAME'",
            Expected::AloneLine => "a line 'alone R'",
        }
    }
}

impl fmt::Display for Expected {
    ghost output = { λ e. Some (wording e) };

    fn fmt<W: fmt::Write>(&self, f: &mut fmt::Formatter<W>) -> fmt::Result {
        f.write_str(self.text())
    }
}

/// What should have stood in a line, or should have been a line of its own where there is no position.
#[derive(Clone, Copy, Debug, PartialEq, Eq)]
pub struct Complaint<E> {
    pub expected: E,
    pub position: Option<Position>,
}

/// Complains of what was judged bad.
pub fn note<E>(
    complaints: &mut Vec<Complaint<E>>,
    position: Option<Position>,
    judged: Result<(), E>,
) -> Result<(), AllocError>
where
    E: Drop,
    ensures { MatchResult result (λ _. complaints.new.items ≡ complaints.old.items ++ noted position judged) (λ _. 0 < length (noted position judged)) }
{
    if let Err(expected) = judged {
        complaints.push(Complaint { expected, position })?;
    }
    Ok(())
}

/// Why a text gave no script: what is wrong with it, by rising lines, and then what is missing; or want of memory.
#[derive(Debug, Drop)]
pub enum Unread<E> {
    Bad(Vec<Complaint<E>>),
    Memory(AllocError),
}

impl<E> From<AllocError> for Unread<E> {
    ghost use Rattle.script.specs.declared.complaints.Unread.TheVariants.{Memory};

    ghost from_gives = { λ e u. u ≡ Memory e };

    fn from(error: AllocError) -> Unread<E> {
        Unread::Memory(error)
    }
}
