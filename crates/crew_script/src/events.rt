// What befalls a crew, as a line says it.
ghost use Rattle.std.specs.Prelude.{◌≡◌};
ghost use Rattle.crew_script.specs.Saying.{cut_of, event_of, machine_in, seed_of, until_of};
ghost use Rattle.script.specs.Text.{number_in, one_number};
ghost use Rattle.script.specs.Words.{words_left};

use crate::complaints::Expected;
use crate::settings::{Event, Machine};
use script::{Words, bare, is, limited, only};

const FOREMAN: u32 = 64;

// None where the word begins no event.
pub(crate) fn event(word: &[u8], words: Words<'_>) -> Option<Result<Event, Expected>>
    ensures { result ≡ event_of word.now (words_left words.entry) }
{
    if is(word, b"tick") {
        Some(
            only_machine(words)
                .map(Event::Tick)
                .ok_or(Expected::TickSettings),
        )
    } else if is(word, b"up") {
        Some(
            only_machine(words)
                .map(Event::Up)
                .ok_or(Expected::UpSettings),
        )
    } else if is(word, b"cut") {
        Some(cut(words).ok_or(Expected::CutSettings))
    } else if is(word, b"give") {
        Some(bare(Event::Give, words).ok_or(Expected::NoWord))
    } else if is(word, b"lose") {
        Some(bare(Event::Lose, words).ok_or(Expected::NoWord))
    } else if is(word, b"twice") {
        Some(bare(Event::Twice, words).ok_or(Expected::NoWord))
    } else if is(word, b"late") {
        Some(
            only(words, 0, u32::MAX)
                .map(Event::Late)
                .ok_or(Expected::LateSettings),
        )
    } else if is(word, b"seed") {
        Some(seed(words).ok_or(Expected::SeedSettings))
    } else if is(word, b"until") {
        Some(until(words).ok_or(Expected::UntilSettings))
    } else {
        None
    }
}

fn machine(word: &[u8]) -> Option<Machine>
    ensures { result ≡ machine_in (number_in 0 64 word.now) }
{
    let number = limited(word, 0, FOREMAN)?;
    Some(if number == FOREMAN {
        Machine::Foreman
    } else {
        Machine::Worker(number as u8)
    })
}

// The machine that is all that is left.
fn only_machine(mut words: Words<'_>) -> Option<Machine>
    ensures { result ≡ machine_in (one_number 0 64 (words_left words.entry)) }
{
    let word = words.next()?;
    bare(machine(word)?, words)
}

fn cut(mut words: Words<'_>) -> Option<Event>
    ensures { result ≡ cut_of (words_left words.entry) }
{
    let machine = machine(words.next()?)?;
    let keeps = match words.next() {
        None => None,
        Some(word) => Some(bare(limited(word, 0, u32::MAX)?, words)?),
    };
    Some(Event::Cut { machine, keeps })
}

fn seed(mut words: Words<'_>) -> Option<Event>
    ensures { result ≡ seed_of (words_left words.entry) }
{
    let seed = limited(words.next()?, 0, u32::MAX)?;
    let draws = only(words, 0, u32::MAX)?;
    Some(Event::Seed { seed, draws })
}

fn until(mut words: Words<'_>) -> Option<Event>
    ensures { result ≡ until_of (words_left words.entry) }
{
    let word = words.next()?;
    if !is(word, b"over") {
        return None;
    }
    let ticks = only(words, 0, u32::MAX)?;
    Some(Event::Until { ticks })
}
