// Scripts: read line by line, with what is wrong with each.
ghost use Rattle.std.specs.Prelude.{◌≡◌, ◌+◌, ◌<◌, ◌++◌, length, IfSome, MatchOption, MatchResult};
ghost use Rattle.crew_script.specs.Proper.{Judged};
ghost use Rattle.crew_script.specs.Script.{all_of, events_of, missing, outcome_of, stretches_of, weight_of};
ghost use Rattle.crew_script.specs.Told.{told_by};

use crate::complaints::Expected;
use crate::given::Given;
use crate::settings::{Event, Script, Span};
use crate::statements::{Statement, parse};
use script::{Complaint, Lines, Unread, lack, note};
use std::alloc::{AllocError, Global};

// What all lines say. A line is judged by that too, so it is read first.
fn survey(text: &[u8]) -> Given
    ensures { result ≡ all_of text.now }
{
    let mut given = Given::nothing();
    for (_, line) in Lines::of(text) {
        given.add(parse(line));
    }
    given
}

/// The script that a text is. Only complaints, stretches and events take memory.
pub fn read(heap: Global, text: &[u8]) -> Result<Script, Unread<Expected>>
    ensures told { MatchOption (told_by result) (0 < weight_of text.now) (λ o. o ≡ outcome_of text.now) }
    ensures judged { IfSome (told_by result) (Judged text.now) }
{
    let all = survey(text);
    let mut given = Given::nothing();
    let mut complaints = Vec::new(heap);
    let mut stretches = Vec::new(heap);
    let mut events = Vec::new(heap);
    for (position, line) in Lines::of(text) {
        let statement = parse(line);
        let judged = all.judge(&given, statement);
        note(&mut complaints, Some(position), judged)?;
        keep(&mut stretches, &mut events, statement)?;
        given.add(statement);
    }
    lack_all(&mut complaints, &all)?;
    match all.script(stretches, events) {
        Some(script) if complaints.is_empty() => Ok(script),
        _ => Err(Unread::Bad(complaints)),
    }
}

// Keeps the stretch or the event that a line says.
fn keep(
    stretches: &mut Vec<Span>,
    events: &mut Vec<Event>,
    statement: Statement,
) -> Result<(), AllocError>
    ensures { MatchResult result (λ _. (stretches.new.items ≡ stretches.old.items ++ stretches_of statement) × (events.new.items ≡ events.old.items ++ events_of statement)) (λ _. 0 < length (stretches_of statement) + length (events_of statement)) }
{
    match statement {
        Statement::Owner(Ok(span)) => stretches.push(span)?,
        Statement::Happens(Ok(event)) => events.push(event)?,
        _ => {}
    }
    Ok(())
}

// Complains of what no line gave.
fn lack_all(complaints: &mut Vec<Complaint<Expected>>, all: &Given) -> Result<(), AllocError>
    ensures { MatchResult result (λ _. complaints.new.items ≡ complaints.old.items ++ missing all.now) (λ _. 0 < length (missing all.now)) }
{
    lack(
        complaints,
        all.lone.places,
        Expected::Lone(script::Expected::PlacesLine),
    )?;
    lack(
        complaints,
        all.lone.plan,
        Expected::Lone(script::Expected::PlanLine),
    )?;
    lack(complaints, all.is_played().then_some(()), Expected::RunLine)
}
