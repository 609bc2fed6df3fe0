// What a line says.
ghost use Rattle.std.specs.Prelude.{◌≡◌};
ghost use Rattle.crew_script.specs.Saying.{owner_of, statement_of};
ghost use Rattle.script.specs.Text.{one_number, words_of};
ghost use Rattle.script.specs.Words.{words_left};

use crate::complaints::Expected;
use crate::events::event;
use crate::settings::{Event, Span};
use script::{MOST_PLACES, Words, is, limited, only, said};

const LAST_PLACE: u32 = MOST_PLACES - 1;

pub(crate) const MOST_WORKERS: u8 = 8;

const LAST_WORKER: u8 = MOST_WORKERS - 1;

// A line of a crew, or one that says what it says without crews. What follows the first word may be bad: then it is what
// should have stood there.
#[derive(Clone, Copy, Debug, PartialEq, Eq)]
pub(crate) enum Statement {
    Lone(script::Statement),
    Workers(Result<u8, Expected>),
    Owner(Result<Span, Expected>),
    Happens(Result<Event, Expected>),
}

pub(crate) fn parse(line: &[u8]) -> Statement
    ensures { result ≡ statement_of (words_of line.now) }
{
    let mut words = Words::of(line);
    let Some(word) = words.next() else {
        return Statement::Lone(script::Statement::Nothing);
    };
    if is(word, b"workers") {
        Statement::Workers(workers(words).ok_or(Expected::WorkerCount))
    } else if is(word, b"owner") {
        Statement::Owner(owner(words).ok_or(Expected::OwnerSettings))
    } else {
        match event(word, words) {
            Some(event) => Statement::Happens(event),
            None => Statement::Lone(said(word, words)),
        }
    }
}

fn workers(words: Words<'_>) -> Option<u8>
    ensures { result ≡ one_number 1 8 (words_left words.entry) }
{
    let workers = only(words, 1, u32::from(MOST_WORKERS))?;
    Some(workers as u8)
}

// A stretch. Whether its place and its worker are there is judged once all lines are read.
fn owner(mut words: Words<'_>) -> Option<Span>
    ensures { result ≡ owner_of (words_left words.entry) }
{
    let first = limited(words.next()?, 0, LAST_PLACE)?;
    let worker = only(words, 0, u32::from(LAST_WORKER))?;
    Some(Span {
        first,
        worker: worker as u8,
    })
}
