// Letters, packed: heads in one table, bodies in one pool.
ghost use Rattle.std.specs.Prelude.{◌≡◌, length};
ghost use Rattle.packed.specs.Strings.{items};

use crate::numbers::Place;
use packed::Strings;
use std::slice;

mod calls;
mod impls;

/// Who sent a letter, and to whom.
#[derive(Clone, Copy, Debug, PartialEq, Eq)]
pub struct Head {
    pub from: Place,
    pub to: Place,
}

/// A letter as its reader sees it.
#[derive(Clone, Copy)]
pub struct Received<'a> {
    pub head: Head,
    pub bytes: &'a [u8],
}

/// Letters in the order in which they were put in. Their heads stand in one table and their bodies in one pool, since
/// no letter is to have memory of its own.
#[derive(Drop)]
pub struct Letters {
    pub(crate) heads: Vec<Head>,
    pub(crate) bodies: Strings,
    ghost even: { length heads.items ≡ length (items bodies) },
}

/// Goes through letters in order, heads and bodies side by side.
#[derive(Drop)]
pub struct Iter<'a> {
    heads: slice::Iter<'a, Head>,
    bodies: packed::Iter<'a>,
}
