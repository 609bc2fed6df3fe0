// A plan that any mistake shows in: what a place does hangs on every byte that it is given.
ghost use Rattle.std.specs.Prelude.{◌≡◌, ◌/◌, ◌^◌, ◌<◌, ◌≤◌, [], ◌∷◌, nat_le};
ghost use Rattle.meaning.specs.Mail.{post_of, mailed};
ghost use Rattle.plans.specs.Scramble.{drawn, how_many, letter_from, letters_from, scrambling};
ghost use Rattle.plans.specs.Digest.{digest_of};
ghost use Rattle.plans.specs.ScramblePlanLemmas.{fits_either};
ghost use Rattle.std.proofs.Common.{rules};

use crate::bytes::written;
use crate::digest::{digest, fnv};
use crate::filling::again;
use crate::sending::send;
use meaning::{Done, Given, Outbox, Place, Plan};

// What a place draws its rest, its state's length and the count of its letters under; each letter is drawn under its own
// number.
const REST: u8 = 252;

const LENGTH: u8 = 253;

const LETTERS: u8 = 254;

/// Of so many places. Letters are sent in the rounds before the last.
#[derive(Clone, Copy)]
pub struct Scramble {
    pub places: u32,
    pub last: u32,
}

impl Plan for Scramble {
    ghost program = { scrambling };

    ghost first_fits = { Prim.search rules };

    ghost fits = { λ p x short. fits_either (nat_le p.last x.round) p.places (digest_of x) };

    fn first<'a>(&self, place: Place, fresh: &'a mut [u8]) -> &'a [u8] {
        written(fresh, &place.0.to_be_bytes())
    }

    fn act<'a>(
        &self,
        given: Given<'_>,
        state: &'a [u8],
        fresh: &'a mut [u8],
        out: &mut Outbox,
    ) -> Done<'a> {
        let h = digest(&given, state);
        if given.round.0 >= self.last {
            return Done {
                state: written(fresh, &h.to_be_bytes()),
                rests: true,
            };
        }
        send_letters(out, self.places, h, letters_to_send(draw(h, LETTERS)));
        let count = (draw(h, LENGTH) >> 32) % 257;
        Done {
            state: again(fresh, h, count as usize),
            rests: (draw(h, REST) >> 32) % 4 != 0,
        }
    }
}

// A word from a digest, another one for each number.
#[tactic(auto, unfolding(crate::specs::Scramble::drawn))]
fn draw(h: u64, j: u8) -> u64
    ensures { result ≡ drawn h j }
{
    fnv(h, &[j])
}

// Mostly few, now and then up to 64.
fn letters_to_send(word: u64) -> u8
    ensures { result ≡ how_many (word / 2 ^ 32) }
{
    let t = word >> 32;
    let count = if (t / 65) % 8 == 0 { t % 65 } else { t % 4 };
    count as u8
}

fn send_letters(out: &mut Outbox, places: u32, h: u64, count: u8)
    requires { count ≤ (post_of out.old).left }
    ensures { post_of out.new ≡ mailed (post_of out.old) (letters_from places h count) }
{
    for j in 0..count {
        send_letter(out, places, draw(h, j));
    }
}

// A letter with the word's bytes, to a place that the word names. It may be one that is not there.
fn send_letter(out: &mut Outbox, places: u32, word: u64)
    requires { 0 < (post_of out.old).left }
    ensures { post_of out.new ≡ mailed (post_of out.old) (letter_from places word ∷ []) }
{
    let mut buffer = [0; 64];
    let body = again(&mut buffer, word, ((word >> 24) % 65) as usize);
    let to = (word >> 32) % (u64::from(places) + u64::from(places) / 8 + 1);
    send(out, to as u32, body);
}
