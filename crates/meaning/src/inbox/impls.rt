// One place's letters gone through in order, and want of memory as an error of taking over.
ghost use Rattle.std.specs.Prelude.{◌≡◌};
ghost use Rattle.std.specs.Iterator.{YieldsFirstBy, item_count};
ghost use Rattle.meaning.specs.Left.{place_letters_left};
ghost use Rattle.meaning.specs.Packets.{received_of};
ghost use Rattle.meaning.specs.declared.inbox.TakeOverError.TheVariants.{OutOfMemory};

use crate::inbox::{LettersTo, TakeOverError};
use crate::letters::Received;
use std::alloc::AllocError;

impl<'a> Iterator for LettersTo<'a> {
    type Item = Received<'a>;

    ghost next_gives = { YieldsFirstBy received_of place_letters_left };

    ghost remaining = { item_count place_letters_left };

    fn next(&mut self) -> Option<Received<'a>> {
        let letter = self.inbox.letter(self.place, self.next)?;
        self.next += 1;
        Some(letter)
    }
}

impl From<AllocError> for TakeOverError {
    ghost from_gives = { λ _ e. e ≡ OutOfMemory };

    fn from(_error: AllocError) -> TakeOverError {
        TakeOverError::OutOfMemory
    }
}
