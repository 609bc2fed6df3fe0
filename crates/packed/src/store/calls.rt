// What is done with packed strings.
ghost use Rattle.std.specs.Prelude.{◌≡◌, ◌↔◌, IsTrue, ℕ, ◌+◌, ◌-◌, ◌<◌, ◌≤◌, true, cond, ◌&&◌, [], ◌∷◌, ◌++◌, length, take, is_ok, IfOk, if◌then◌else◌, vec_len, MatchOption, OnOk, nat_le, nat_lt, slice_index, slice_index_or};
ghost use Rattle.std.specs.List.{between};
ghost use Rattle.packed.specs.Left.{strings_left};
ghost use Rattle.packed.specs.Strings.{items, used, spare, spare_bytes};

use crate::cuts::part;
use crate::store::{Iter, Strings};
use std::alloc::{AllocError, Global};

impl Strings {
    pub fn new(heap: Global) -> Result<Strings, AllocError>
        ensures { IfOk result (λ s. items s ≡ []) }
    {
        let mut cuts = Vec::new(heap);
        cuts.push(0)?;
        Ok(Strings {
            cuts,
            pool: Vec::new(heap),
        })
    }

    /// How many strings there are.
    pub fn len(&self) -> usize
        ensures { result ≡ length (items self.now) }
    {
        self.cuts.len() - 1
    }

    /// No string.
    pub fn is_empty(&self) -> bool
        ensures { IsTrue result ↔ (length (items self.now) ≡ 0) }
    {
        self.len() == 0
    }

    /// String k, as a part of the pool.
    pub fn get(&self, k: usize) -> Option<&[u8]>
        ensures { MatchOption result (length (items self.now) ≤ k) (λ s. (k < length (items self.now)) × (s.now ≡ slice_index_or (items self.now) k [])) }
    {
        if k >= self.cuts.len() - 1 {
            return None;
        }
        Some(part(self.cuts.as_slice(), self.pool.as_slice(), k))
    }

    /// The strings, in order.
    pub fn iter(&self) -> Iter<'_>
        ensures { strings_left result ≡ items self.now }
    {
        Iter {
            strings: self,
            next: 0,
        }
    }

    /// One string more. Want of memory changes nothing, and where room was made for it there is none.
    pub fn push(&mut self, s: &[u8]) -> Result<(), AllocError>
        ensures items { items self.new ≡ (if is_ok result then items self.old ++ s.now ∷ [] else items self.old) }
        ensures room { 0 < spare self.old → length s.now ≤ spare_bytes self.old → is_ok result ≡ true }
        ensures uses { (spare self.old ≤ spare self.new + 1) × (spare_bytes self.old ≤ spare_bytes self.new + length s.now) }
    {
        if !self.put(s) {
            self.reserve(1, s.len())?;
            self.append(s);
        }
        Ok(())
    }

    /// One string more where there is room for it; false where there is none, and nothing changes.
    pub fn put(&mut self, s: &[u8]) -> bool
        ensures test { result ≡ (nat_lt 0 (spare self.old) && nat_le (length s.now) (spare_bytes self.old)) }
        ensures items { items self.new ≡ (if result then items self.old ++ s.now ∷ [] else items self.old) }
        ensures uses { (spare self.old ≡ spare self.new + cond result 1 0) × (spare_bytes self.old ≡ spare_bytes self.new + cond result (length s.now) 0) }
    {
        if self.cuts.len() == self.cuts.capacity() || s.len() > self.pool.len() - self.used() {
            return false;
        }
        self.append(s);
        true
    }

    /// Room for so many more strings, of so many more bytes in all. No string changes.
    pub fn reserve(&mut self, more: usize, bytes: usize) -> Result<(), AllocError>
        ensures items { items self.new ≡ items self.old }
        ensures keeps { (spare self.old ≤ spare self.new) × (spare_bytes self.old ≤ spare_bytes self.new) }
        ensures enough { more ≤ spare self.old → bytes ≤ spare_bytes self.old → is_ok result ≡ true }
        ensures room { OnOk result ((more ≤ spare self.new) × (bytes ≤ spare_bytes self.new)) }
    {
        self.cuts.reserve(more)?;
        self.make_room(bytes)
    }

    // One string more, for which there is room.
    fn append(&mut self, s: &[u8])
        requires some { 0 < spare self.old }
        requires bytes { length s.now ≤ spare_bytes self.old }
        ensures items { items self.new ≡ items self.old ++ s.now ∷ [] }
        ensures uses { (spare self.old ≡ spare self.new + 1) × (spare_bytes self.old ≡ spare_bytes self.new + length s.now) }
    {
        let start = self.used();
        let end = start + s.len();
        write(self.pool.as_mut_slice(), start, end, s);
        self.cuts.push_reserved(end);
    }

    // How much of the pool the strings take.
    pub(crate) fn used(&self) -> usize
        ensures value { result ≡ used self.now }
        ensures within { result ≤ vec_len self.now.pool }
    {
        self.cuts[self.cuts.len() - 1]
    }

    // Room for so many more bytes: where there is too little, a pool half as large again.
    fn make_room(&mut self, bytes: usize) -> Result<(), AllocError>
        ensures items { items self.new ≡ items self.old }
        ensures cuts { spare self.new ≡ spare self.old }
        ensures keeps { spare_bytes self.old ≤ spare_bytes self.new }
        ensures enough { bytes ≤ spare_bytes self.old → is_ok result ≡ true }
        ensures room { OnOk result (bytes ≤ spare_bytes self.new) }
    {
        let used = self.used();
        let size = self.pool.len();
        if bytes <= size - used {
            return Ok(());
        }
        let need = used.checked_add(bytes).ok_or(AllocError)?;
        let wanted = need.max(size.saturating_add(size / 2));
        // Exactly that: by itself `resize` takes twice the memory, and what lies past the pool is room for no string.
        self.pool.reserve_exact(wanted - size)?;
        self.pool.resize(wanted, 0)
    }

    /// How many bytes the strings have in all.
    pub fn bytes(&self) -> usize
        ensures { result ≡ used self.now }
    {
        self.used()
    }

    /// No string any more; the memory stays.
    pub fn clear(&mut self)
        ensures items { items self.new ≡ [] }
        ensures used { used self.new ≡ 0 }
    {
        self.cuts.truncate(1);
        self.cuts[0] = 0;
    }
}

// A string into its part of the pool. Here a new state is written into one slice from an old one in another, as this
// project wants it: so the pool is as long as its room, and the last cut says how much of it is used.
fn write(pool: &mut [u8], start: usize, end: usize, s: &[u8])
    requires long { start + length s.now ≡ end }
    requires within { end ≤ length pool.old }
    ensures before { take start pool.new ≡ take start pool.old }
    ensures here { between start end pool.new ≡ s.now }
{
    pool[start..end].copy_from_slice(s);
}
