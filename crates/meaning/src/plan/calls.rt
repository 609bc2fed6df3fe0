// How a plan reads its letters.
ghost use Rattle.std.specs.Prelude.{◌≡◌, ℕ, ◌<◌, ◌≤◌, length, MatchOption, slice_index_or};
ghost use Rattle.meaning.specs.Given.{letters_at};
ghost use Rattle.meaning.specs.Left.{place_letters_left};
ghost use Rattle.meaning.specs.Packets.{blank, received_of};

use crate::inbox::LettersTo;
use crate::letters::Received;
use crate::plan::Given;

impl Given<'_> {
    /// How many letters came.
    pub fn letters(&self) -> usize
        ensures { result ≡ length (letters_at self.now) }
    {
        self.inbox.count(self.place)
    }

    /// Letter k, by rising senders, those of one sender in the order sent.
    pub fn letter(&self, k: usize) -> Option<Received<'_>>
        ensures { MatchOption result (length (letters_at self.now) ≤ k) (λ x. (k < length (letters_at self.now)) × (received_of x ≡ slice_index_or (letters_at self.now) k blank)) }
    {
        self.inbox.letter(self.place, k)
    }

    /// The letters that came, by rising senders, those of one sender in the order sent.
    pub fn iter(&self) -> LettersTo<'_>
        ensures { place_letters_left result ≡ letters_at self.now }
    {
        self.inbox.letters_to(self.place)
    }
}
