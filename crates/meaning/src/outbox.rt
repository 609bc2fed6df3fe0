// The outbox: what a plan sends its letters by.
ghost use Rattle.std.specs.Prelude.{◌*◌, ◌≤◌};
ghost use Rattle.meaning.specs.Packets.{spare_heads, There};
ghost use Rattle.packed.specs.Strings.{spare, spare_bytes};

use crate::letters::Letters;
use crate::numbers::Place;

mod calls;

/// Why a letter was not sent: it would be one too many, or it is too long.
#[derive(Clone, Copy, Debug, PartialEq, Eq)]
pub enum Overfull {
    Letters,
    Bytes,
}

/// All letters of a round so far, and room for what one place may still send.
#[derive(Drop)]
pub struct Outbox {
    pub(crate) letters: Letters,
    places: u32,
    from: Place,
    left: usize,
    ghost there: { There places letters.heads.items },
    ghost room: { left ≤ spare_heads letters },
    ghost cuts: { left ≤ spare letters.bodies },
    ghost bytes: { 64 * left ≤ spare_bytes letters.bodies },
}
