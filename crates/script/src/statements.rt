// What a line says.
ghost use Rattle.std.specs.Prelude.{◌≡◌, ◌∷◌};
ghost use Rattle.script.specs.Saying.{bare_of, grid_of, plan_of, scramble_with, statement_of};
ghost use Rattle.script.specs.Text.{one_number, words_of};
ghost use Rattle.script.specs.Words.{words_left};

use crate::complaints::Expected;
use crate::numbers::{limited, only};
use crate::settings::Choice;
use crate::words::{Words, is};

// The limits are the language's own: it stands on no crate of the engine.

/// More places than these are refused.
pub const MOST_PLACES: u32 = 1048576;

const MOST_ROUNDS: u32 = 2147483647;

/// A line with no words says nothing. What follows the first word may be bad: then it is what should have stood there.
#[derive(Clone, Copy, Debug, PartialEq, Eq)]
pub enum Statement {
    Nothing,
    Unknown,
    Places(Result<u32, Expected>),
    Plan(Result<Choice, Expected>),
    Alone(Result<u32, Expected>),
}

pub fn parse(line: &[u8]) -> Statement
    ensures { result ≡ statement_of (words_of line.now) }
{
    let mut words = Words::of(line);
    match words.next() {
        Some(word) => said(word, words),
        None => Statement::Nothing,
    }
}

/// What a line with this first word says by those that follow it.
pub fn said(word: &[u8], words: Words<'_>) -> Statement
    ensures { result ≡ statement_of (word.now ∷ words_left words.entry) }
{
    if is(word, b"places") {
        Statement::Places(only(words, 0, MOST_PLACES).ok_or(Expected::PlaceCount))
    } else if is(word, b"plan") {
        Statement::Plan(plan(words))
    } else if is(word, b"alone") {
        Statement::Alone(only(words, 0, MOST_ROUNDS).ok_or(Expected::RoundCount))
    } else {
        Statement::Unknown
    }
}

fn plan(mut words: Words<'_>) -> Result<Choice, Expected>
    ensures { result ≡ plan_of (words_left words.entry) }
{
    let name = words.next().ok_or(Expected::PlanName)?;
    if is(name, b"sum") {
        bare(Choice::Sum, words).ok_or(Expected::NoSettings)
    } else if is(name, b"echo") {
        bare(Choice::Echo, words).ok_or(Expected::NoSettings)
    } else if is(name, b"scramble") {
        scramble(words).ok_or(Expected::ScrambleSettings)
    } else if is(name, b"grid") {
        grid(words).ok_or(Expected::GridSettings)
    } else {
        Err(Expected::PlanName)
    }
}

/// What has no settings: no word may be left.
pub fn bare<T: Copy>(named: T, mut words: Words<'_>) -> Option<T>
    ensures { result ≡ bare_of named (words_left words.entry) }
{
    words.next().is_none().then_some(named)
}

fn scramble(words: Words<'_>) -> Option<Choice>
    ensures { result ≡ scramble_with (one_number 0 4294967295 (words_left words.entry)) }
{
    only(words, 0, u32::MAX).map(|last| Choice::Scramble { last })
}

fn grid(mut words: Words<'_>) -> Option<Choice>
    ensures { result ≡ grid_of (words_left words.entry) }
{
    let width = limited(words.next()?, 1, MOST_PLACES)?;
    let last = only(words, 0, u32::MAX)?;
    Some(Choice::Grid { width, last })
}
