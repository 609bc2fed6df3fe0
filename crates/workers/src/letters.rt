// Letters that a worker's places have from then on.
ghost use Rattle.std.specs.Prelude.{◌≡◌, OnOk};
ghost use Rattle.meaning.specs.Mail.{received};
ghost use Rattle.meaning.specs.Packets.{letters_of};

use meaning::{Inbox, Letters};
use std::alloc::AllocError;

// One to a place that isn't there cannot come from an honest run: it counts as want of memory.
pub(crate) fn take_in(inbox: &mut Inbox, places: u32, letters: Letters) -> Result<(), AllocError>
    ensures { OnOk result (received inbox.new ≡ letters_of letters) }
{
    inbox.take_over(places, letters).map_err(|_| AllocError)
}
