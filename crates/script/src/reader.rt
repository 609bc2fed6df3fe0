// Scripts: read line by line, with what is wrong with each.
ghost use Rattle.std.specs.Prelude.{◌≡◌, ◌<◌, ◌++◌, length, IfSome, MatchOption, MatchResult};
ghost use Rattle.script.specs.Proper.{Judged};
ghost use Rattle.script.specs.Reading.{IsBad, lacking, told_by};
ghost use Rattle.script.specs.Script.{missing, outcome_of};

use crate::complaints::{Complaint, Expected, Unread, note};
use crate::given::Given;
use crate::lines::Lines;
use crate::settings::Script;
use crate::statements::parse;
use std::alloc::{AllocError, Global};

/// The script that a text is. Only a bad one takes memory.
pub fn read(heap: Global, text: &[u8]) -> Result<Script, Unread<Expected>>
    ensures told { MatchOption (told_by result) (IsBad (outcome_of text.now)) (λ o. o ≡ outcome_of text.now) }
    ensures judged { IfSome (told_by result) (Judged text.now) }
{
    let mut given = Given::nothing();
    let mut complaints = Vec::new(heap);
    for (position, line) in Lines::of(text) {
        let judged = given.add(parse(line));
        note(&mut complaints, Some(position), judged)?;
    }
    lack_all(&mut complaints, &given)?;
    match given.script() {
        Some(script) if complaints.is_empty() => Ok(script),
        _ => Err(Unread::Bad(complaints)),
    }
}

/// Complains of a statement that no line gave.
pub fn lack<T, E>(
    complaints: &mut Vec<Complaint<E>>,
    given: Option<T>,
    expected: E,
) -> Result<(), AllocError>
where
    T: Drop,
    E: Drop,
    ensures { MatchResult result (λ _. complaints.new.items ≡ complaints.old.items ++ lacking given expected) (λ _. 0 < length (lacking given expected)) }
{
    note(complaints, None, given.map(drop).ok_or(expected))
}

// Complains of what no line gave.
fn lack_all(complaints: &mut Vec<Complaint<Expected>>, given: &Given) -> Result<(), AllocError>
    ensures { MatchResult result (λ _. complaints.new.items ≡ complaints.old.items ++ missing given.now) (λ _. 0 < length (missing given.now)) }
{
    lack(complaints, given.places, Expected::PlacesLine)?;
    lack(complaints, given.plan, Expected::PlanLine)?;
    lack(complaints, given.alone, Expected::AloneLine)
}
