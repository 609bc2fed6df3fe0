// What is done with packed letters.
ghost use Rattle.std.specs.Prelude.{◌≡◌, ℕ, ◌+◌, ◌<◌, ◌≤◌, ◌&&◌, [], ◌∷◌, ◌++◌, length, is_ok, IfOk, if◌then◌else◌, MatchOption, OnOk, nat_le, nat_lt, slice_index_or};
ghost use Rattle.meaning.specs.Left.{letters_left};
ghost use Rattle.meaning.specs.Meaning.{none};
ghost use Rattle.meaning.specs.Packets.{blank, letter_of, letters_of, received_of, spare_heads};
ghost use Rattle.packed.specs.Strings.{spare, spare_bytes, used};

use crate::letters::{Head, Iter, Letters, Received};
use packed::Strings;
use std::alloc::{AllocError, Global};

impl Letters {
    pub fn new(heap: Global) -> Result<Letters, AllocError>
        ensures { IfOk result (λ l. (l.heads.items ≡ []) × (letters_of l ≡ [])) }
    {
        let bodies = Strings::new(heap)?;
        Ok(Letters {
            heads: Vec::new(heap),
            bodies,
        })
    }

    pub fn len(&self) -> usize
        ensures { result ≡ length (letters_of self.now) }
    {
        self.heads.len()
    }

    /// No letter.
    pub fn is_empty(&self) -> bool
        ensures { result ≡ none (letters_of self.now) }
    {
        self.len() == 0
    }

    /// Letter k.
    pub fn get(&self, k: usize) -> Option<Received<'_>>
        ensures { MatchOption result (length (letters_of self.now) ≤ k) (λ x. (k < length (letters_of self.now)) × (received_of x ≡ slice_index_or (letters_of self.now) k blank)) }
    {
        let bytes = self.bodies.get(k)?;
        Some(Received {
            head: self.heads[k],
            bytes,
        })
    }

    /// The letters, in order.
    pub fn iter(&self) -> Iter<'_>
        ensures { letters_left result ≡ letters_of self.now }
    {
        Iter {
            heads: self.heads.iter(),
            bodies: self.bodies.iter(),
        }
    }

    /// One letter more where there is room for it; false where there is none, and nothing changes.
    pub fn put(&mut self, head: Head, body: &[u8]) -> bool
        ensures test { result ≡ (nat_lt 0 (spare_heads self.old) && (nat_lt 0 (spare self.old.bodies) && nat_le (length body.now) (spare_bytes self.old.bodies))) }
        ensures heads { self.new.heads.items ≡ (if result then self.old.heads.items ++ head ∷ [] else self.old.heads.items) }
        ensures items { letters_of self.new ≡ (if result then letters_of self.old ++ letter_of head body.now ∷ [] else letters_of self.old) }
        ensures uses { (spare_heads self.old ≤ spare_heads self.new + 1) × (spare self.old.bodies ≤ spare self.new.bodies + 1) × (spare_bytes self.old.bodies ≤ spare_bytes self.new.bodies + length body.now) }
    {
        if self.heads.len() == self.heads.capacity() || !self.bodies.put(body) {
            return false;
        }
        self.heads.push_reserved(head);
        true
    }

    /// Room for so many more letters, of so many more bytes in all.
    pub fn reserve(&mut self, more: usize, bytes: usize) -> Result<(), AllocError>
        ensures heads { self.new.heads.items ≡ self.old.heads.items }
        ensures items { letters_of self.new ≡ letters_of self.old }
        ensures room { OnOk result ((more ≤ spare_heads self.new) × (more ≤ spare self.new.bodies) × (bytes ≤ spare_bytes self.new.bodies)) }
    {
        self.heads.reserve(more)?;
        self.bodies.reserve(more, bytes)
    }

    /// One letter more, for which room is made where there is none. Want of memory changes nothing.
    pub fn push(&mut self, head: Head, body: &[u8]) -> Result<(), AllocError>
        ensures { letters_of self.new ≡ (if is_ok result then letters_of self.old ++ letter_of head body.now ∷ [] else letters_of self.old) }
    {
        if !self.put(head, body) {
            self.reserve(1, body.len())?;
            self.put(head, body);
        }
        Ok(())
    }

    /// How many bytes the letters' bodies have in all.
    pub fn bytes(&self) -> usize
        ensures { result ≡ used self.now.bodies }
    {
        self.bodies.bytes()
    }

    /// No letter any more; the memory stays.
    pub fn clear(&mut self)
        ensures { (self.new.heads.items ≡ []) × (letters_of self.new ≡ []) }
    {
        self.heads.clear();
        self.bodies.clear();
    }
}
