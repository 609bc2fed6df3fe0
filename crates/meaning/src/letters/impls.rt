// Letters cloned, and gone through in order.
ghost use Rattle.std.specs.Prelude.{◌≡◌};
ghost use Rattle.std.specs.Iterator.{YieldsFirstBy, item_count};
ghost use Rattle.meaning.specs.Left.{letters_left};
ghost use Rattle.meaning.specs.Packets.{letters_of, received_of};

use crate::letters::{Iter, Letters, Received};
use std::alloc::AllocError;

// The same letters, in memory of their own and no larger than they are.
impl Clone for Letters {
    ghost is_clone = { λ l copy. letters_of copy ≡ letters_of l };

    fn clone(&self) -> Result<Letters, AllocError> {
        let heads = Vec::from_slice(*self.heads.allocator(), self.heads.as_slice())?;
        let bodies = self.bodies.clone()?;
        Ok(Letters { heads, bodies })
    }
}

impl<'a> Iterator for Iter<'a> {
    type Item = Received<'a>;

    ghost next_gives = { YieldsFirstBy received_of letters_left };

    ghost remaining = { item_count letters_left };

    fn next(&mut self) -> Option<Received<'a>> {
        let bytes = self.bodies.next()?;
        let head = *self.heads.next()?;
        Some(Received { head, bytes })
    }
}

impl<'a> IntoIterator for &'a Letters {
    type Item = Received<'a>;

    type IntoIter = Iter<'a>;

    ghost into_iter_gives = { λ letters it. letters_left it ≡ letters_of letters.now };

    fn into_iter(self) -> Iter<'a> {
        self.iter()
    }
}
