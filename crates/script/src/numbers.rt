// The numbers of a script.
ghost use Rattle.std.specs.Prelude.{◌≡◌, ◌≤◌, IfSome};
ghost use Rattle.script.specs.Text.{number_in, number_of, one_number};
ghost use Rattle.script.specs.Words.{words_left};

use crate::statements::bare;
use crate::words::Words;

const MOST_DIGITS: usize = 10;

fn number(word: &[u8]) -> Option<u64>
    ensures { result ≡ number_of word.now }
{
    if word.is_empty() || word.len() > MOST_DIGITS {
        return None;
    }
    let mut n: u64 = 0;
    for byte in word {
        if !byte.is_ascii_digit() {
            return None;
        }
        n = n * 10 + u64::from(*byte - b'0');
    }
    Some(n)
}

/// A number from low to high.
pub fn limited(word: &[u8], low: u32, high: u32) -> Option<u32>
    ensures value { result ≡ number_in low high word.now }
    ensures within { IfSome result (λ n. (low ≤ n) × (n ≤ high)) }
{
    let n = u32::try_from(number(word)?).ok()?;
    (low..=high).contains(&n).then_some(n)
}

/// The number from low to high that is all that is left.
pub fn only(mut words: Words<'_>, low: u32, high: u32) -> Option<u32>
    ensures value { result ≡ one_number low high (words_left words.entry) }
    ensures within { IfSome result (λ n. (low ≤ n) × (n ≤ high)) }
{
    let word = words.next()?;
    bare(limited(word, low, high)?, words)
}
