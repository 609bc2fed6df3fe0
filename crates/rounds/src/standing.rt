// What places have after a round, packed: states in one pool, rests in one table.
ghost use Rattle.std.specs.Prelude.{◌≡◌, ◌≤◌, length};
ghost use Rattle.meaning.specs.Caps.{state_cap};
ghost use Rattle.packed.specs.Left.{strings_left};
ghost use Rattle.packed.specs.Strings.{items};
ghost use Rattle.rounds.specs.Sight.{Capped};

use packed::Strings;
use std::slice;

mod calls;

/// What one place has: its state, which is no longer than a state may be, and whether it rests.
#[derive(Clone, Copy)]
pub struct Held<'a> {
    pub state: &'a [u8],
    pub rests: bool,
    ghost fits: { length state.now ≤ state_cap },
}

/// What so many places have, in their order. States lie in one pool and rests in a table beside it, since no place is to
/// have memory of its own.
#[derive(Drop)]
pub struct Standing {
    pub states: Strings,
    pub rests: Vec<bool>,
    ghost even: { length (items states) ≡ length rests.items },
    ghost fits: { Capped (items states) },
}

/// One place after the other, states and rests side by side.
#[derive(Drop)]
pub struct Iter<'a> {
    states: packed::Iter<'a>,
    rests: slice::Iter<'a, bool>,
    ghost fits: { Capped (strings_left states) },
}
