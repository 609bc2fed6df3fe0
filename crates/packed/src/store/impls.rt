// Packed strings cloned, and gone through in order.
ghost use Rattle.std.specs.Prelude.{◌≡◌, ◌≤◌, length, take, IfOk, vec_len};
ghost use Rattle.std.specs.Iterator.{YieldsFirstRef, item_count};
ghost use Rattle.packed.specs.Left.{strings_left};
ghost use Rattle.packed.specs.Strings.{items, spare_bytes};

use crate::store::{Iter, Strings};
use std::alloc::{AllocError, Global};

// The same strings, in memory of their own and no larger than they are.
impl Clone for Strings {
    ghost is_clone = { λ s copy. (items copy ≡ items s) × (spare_bytes copy ≡ 0) };

    fn clone(&self) -> Result<Strings, AllocError> {
        let heap = *self.cuts.allocator();
        let cuts = Vec::from_slice(heap, self.cuts.as_slice())?;
        let pool = front(heap, self.pool.as_slice(), self.used())?;
        Ok(Strings { cuts, pool })
    }
}

// The front of a pool, by itself.
fn front(heap: Global, pool: &[u8], used: usize) -> Result<Vec<u8>, AllocError>
    requires { used ≤ length pool.now }
    ensures items { IfOk result (λ v. v.items ≡ take used pool.now) }
    ensures len { IfOk result (λ v. vec_len v ≡ used) }
{
    Vec::from_slice(heap, &pool[0..used])
}

impl<'a> Iterator for Iter<'a> {
    type Item = &'a [u8];

    ghost next_gives = { YieldsFirstRef strings_left };

    ghost remaining = { item_count strings_left };

    fn next(&mut self) -> Option<&'a [u8]> {
        let string = self.strings.get(self.next)?;
        self.next += 1;
        Some(string)
    }
}

impl<'a> IntoIterator for &'a Strings {
    type Item = &'a [u8];

    type IntoIter = Iter<'a>;

    ghost into_iter_gives = { λ strings it. strings_left it ≡ items strings.now };

    fn into_iter(self) -> Iter<'a> {
        self.iter()
    }
}
