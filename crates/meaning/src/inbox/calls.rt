// What is done with an inbox.
ghost use Rattle.std.specs.Prelude.{◌≡◌, ℕ, ◌+◌, ◌-◌, ◌<◌, ◌≤◌, ◌↔◌, true, [], length, is_ok, IfOk, IsErrOf, IsTrue, if◌then◌else◌, MatchOption, slice_index_or};
ghost use Rattle.meaning.specs.Groups.{indices};
ghost use Rattle.meaning.specs.Left.{place_letters_left};
ghost use Rattle.meaning.specs.Mail.{emptied, post_of, received};
ghost use Rattle.meaning.specs.Meaning.{letters_for, none};
ghost use Rattle.meaning.specs.Packets.{blank, letters_of, received_of, There};

use crate::group::Index;
use crate::inbox::{Inbox, LettersTo, TakeOverError};
use crate::letters::{Head, Letters, Received};
use crate::numbers::Place;
use crate::outbox::Outbox;
use std::alloc::{AllocError, Global};

impl Inbox {
    /// For so many places, with no letter.
    pub fn new(heap: Global, places: u32) -> Result<Inbox, AllocError>
        ensures { IfOk result (λ i. received i ≡ []) }
    {
        let letters = Letters::new(heap)?;
        let mut index = Index::new(heap);
        index.make(letters.heads.as_slice(), places)?;
        Ok(Inbox {
            letters,
            index,
            spare: Index::new(heap),
        })
    }

    /// All letters, as they were sent.
    pub fn letters(&self) -> &Letters
        ensures { letters_of result.now ≡ received self.now }
    {
        &self.letters
    }

    /// No letter for anybody.
    pub fn is_empty(&self) -> bool
        ensures { result ≡ none (received self.now) }
    {
        self.letters.is_empty()
    }

    /// How many letters a place got.
    pub fn count(&self, place: Place) -> usize
        ensures { result ≡ length (letters_for place.0 (received self.now)) }
    {
        self.part(place).len()
    }

    /// A place's letters, by rising senders, those of one sender in the order sent.
    pub fn letters_to(&self, place: Place) -> LettersTo<'_>
        ensures { place_letters_left result ≡ letters_for place.0 (received self.now) }
    {
        LettersTo {
            inbox: self,
            place,
            next: 0,
        }
    }

    /// A place's letter k.
    pub fn letter(&self, place: Place, k: usize) -> Option<Received<'_>>
        ensures { MatchOption result (length (letters_for place.0 (received self.now)) ≤ k) (λ x. (k < length (letters_for place.0 (received self.now))) × (received_of x ≡ slice_index_or (letters_for place.0 (received self.now)) k blank)) }
    {
        let number = *self.part(place).get(k)?;
        self.letters.get(number as usize)
    }

    /// Reads a byte of each of a place's letters, so that memory fetches them together and not one after the other. What
    /// it returns means nothing.
    pub fn touch(&self, place: Place) -> u8 {
        let mut byte = 0;
        for number in self.part(place) {
            if let Some(letter) = self.letters.get(*number as usize) {
                byte ^= (letter.head.from.0 & 0xff) as u8;
                if let Some(first) = letter.bytes.first() {
                    byte ^= *first;
                }
            }
        }
        byte
    }

    // Which letters a place got: its part of the order.
    fn part(&self, place: Place) -> &[u32]
        ensures { result.now ≡ indices place.0 0 self.now.letters.heads.items }
    {
        let v = place.0 as usize;
        if v >= self.index.starts.len() - 1 {
            return &[];
        }
        packed::part(self.index.starts.as_slice(), self.index.order.as_slice(), v)
    }

    /// Takes over what was sent; the outbox is empty then, and its memory stays. Want of memory changes no letter.
    pub fn receive(&mut self, out: &mut Outbox) -> Result<(), AllocError>
        ensures took { received self.new ≡ (if is_ok result then (post_of out.old).letters else received self.old) }
        ensures left { post_of out.new ≡ (if is_ok result then emptied (post_of out.old) else post_of out.old) }
    {
        let places = out.places();
        self.spare.make(out.letters.heads.as_slice(), places)?;
        out.close();
        std::mem::swap(&mut self.letters, &mut out.letters);
        out.letters.clear();
        std::mem::swap(&mut self.index, &mut self.spare);
        Ok(())
    }

    /// Takes these letters over, for so many places. Where one of them goes to a place that isn't there, or memory is
    /// wanting, the inbox has the letters that it had.
    pub fn take_over(&mut self, places: u32, letters: Letters) -> Result<(), TakeOverError>
        ensures took { received self.new ≡ (if is_ok result then letters_of letters else received self.old) }
        ensures there { is_ok result ≡ true → There places letters.heads.items }
        ensures missing { IsErrOf result TakeOverError.MissingPlace ↔ ¬ (There places letters.heads.items) }
    {
        if !are_there(letters.heads.as_slice(), places) {
            return Err(TakeOverError::MissingPlace);
        }
        self.spare.make(letters.heads.as_slice(), places)?;
        self.letters = letters;
        std::mem::swap(&mut self.index, &mut self.spare);
        Ok(())
    }
}

// Every head names a place below this.
fn are_there(heads: &[Head], places: u32) -> bool
    ensures { IsTrue result ↔ There places heads.now }
{
    heads.iter().all(|h| h.to.0 < places)
}
