// The digest of all that a place is given (FNV-1a, 64 bits).
ghost use Rattle.std.specs.Prelude.{◌≡◌};
ghost use Rattle.meaning.specs.Given.{input_of, letters_at};
ghost use Rattle.meaning.specs.Packets.{received_of};
ghost use Rattle.plans.specs.Digest.{hashed, spelled, digest_of};
ghost use Rattle.std.specs.List.{flat_map};

use meaning::{Given, Received};

const START: u64 = 0xcbf29ce484222325;

const PRIME: u64 = 0x100000001b3;

// Going on from a digest.
pub(crate) fn fnv(start: u64, bytes: &[u8]) -> u64
    ensures { result ≡ hashed start bytes.now }
{
    bytes
        .iter()
        .fold(start, |h, b| (h ^ u64::from(*b)).wrapping_mul(PRIME))
}

pub(crate) fn digest(given: &Given<'_>, state: &[u8]) -> u64
    ensures { result ≡ digest_of (input_of given.now state.now) }
{
    let h = fnv(START, &given.round.0.to_be_bytes());
    let h = fnv(h, &given.place.0.to_be_bytes());
    let h = fnv(h, &((state.len() % (1 << 16)) as u16).to_be_bytes());
    let h = fnv(h, state);
    let h = fnv(h, &((given.letters() % (1 << 32)) as u32).to_be_bytes());
    fnv_letters(h, given)
}

fn fnv_letters(start: u64, given: &Given<'_>) -> u64
    ensures { result ≡ hashed start (flat_map spelled (letters_at given.now)) }
{
    given.iter().fold(start, fnv_letter)
}

fn fnv_letter(start: u64, letter: Received<'_>) -> u64
    ensures { result ≡ hashed start (spelled (received_of letter.entry)) }
{
    let h = fnv(start, &letter.head.from.0.to_be_bytes());
    let h = fnv(h, &[(letter.bytes.len() % 256) as u8]);
    fnv(h, letter.bytes)
}
