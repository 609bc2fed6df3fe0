// What is done with an outbox.
ghost use Rattle.std.specs.Prelude.{◌≡◌, ℕ, ◌+◌, ◌-◌, ◌<◌, ◌≤◌, ◌&&◌, [], ◌∷◌, ◌++◌, length, is_ok, IfOk, if◌then◌else◌, OnOk, nat_le, nat_lt};
ghost use Rattle.meaning.specs.Mail.{emptied, post_of, mailed, one_to};
ghost use Rattle.meaning.specs.Packets.{letters_of};

use crate::letters::{Head, Letters};
use crate::numbers::Place;
use crate::outbox::{Outbox, Overfull};
use std::alloc::{AllocError, Global};

impl Outbox {
    /// For so many places; nobody may send yet.
    pub fn new(heap: Global, places: u32) -> Result<Outbox, AllocError>
        ensures { IfOk result (λ o. post_of o ≡ record { places = places; from = 0; left = 0; letters = [] }) }
    {
        let letters = Letters::new(heap)?;
        Ok(Outbox {
            letters,
            places,
            from: Place(0),
            left: 0,
        })
    }

    /// A place's turn: room for 64 letters of 64 bytes. Want of memory changes no letter.
    pub fn begin(&mut self, from: Place) -> Result<(), AllocError>
        ensures places { (post_of self.new).places ≡ (post_of self.old).places }
        ensures letters { (post_of self.new).letters ≡ (post_of self.old).letters }
        ensures room { OnOk result (post_of self.new ≡ record { places = (post_of self.old).places; from = from.0; left = 64; letters = (post_of self.old).letters }) }
    {
        self.left = 0;
        self.letters.reserve(64, 4096)?;
        self.from = from;
        self.left = 64;
        Ok(())
    }

    /// A letter to a place. One to a place that isn't there is dropped here, and counts.
    pub fn send(&mut self, to: Place, body: &[u8]) -> Result<(), Overfull>
        ensures test { is_ok result ≡ (nat_lt 0 (post_of self.old).left && nat_le (length body.now) 64) }
        ensures sent { post_of self.new ≡ (if is_ok result then mailed (post_of self.old) (one_to to.0 body.now) else post_of self.old) }
    {
        if self.left == 0 {
            return Err(Overfull::Letters);
        }
        if body.len() > 64 {
            return Err(Overfull::Bytes);
        }
        self.left -= 1;
        if to.0 < self.places {
            let head = Head {
                from: self.from,
                to,
            };
            self.letters.put(head, body);
        }
        Ok(())
    }

    /// Of how many places letters are sent.
    pub fn places(&self) -> u32
        ensures { result ≡ (post_of self.now).places }
    {
        self.places
    }

    /// All letters so far.
    pub fn letters(&self) -> &Letters
        ensures { letters_of result.now ≡ (post_of self.now).letters }
    {
        &self.letters
    }

    // Nobody may send any more.
    pub(crate) fn close(&mut self)
        ensures { (self.new.letters ≡ self.old.letters) × (self.new.places ≡ self.old.places) × (self.new.from ≡ self.old.from) × (self.new.left ≡ 0) }
    {
        self.left = 0;
    }

    /// No letter any more; the memory stays.
    pub fn clear(&mut self)
        ensures { post_of self.new ≡ emptied (post_of self.old) }
    {
        self.left = 0;
        self.letters.clear();
    }
}
