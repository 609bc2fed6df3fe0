// The strings' pool and cuts.
ghost use Rattle.std.specs.Prelude.{◌-◌, ◌<◌, ◌≤◌, length, vec_len, slice_index};
ghost use Rattle.packed.specs.Cut.{Rises};

mod calls;
mod impls;

/// Byte strings in order: string k lies in the pool from cuts[k] up to cuts[k + 1]. What lies past the last cut is room.
#[derive(Drop)]
pub struct Strings {
    cuts: Vec<usize>,
    pool: Vec<u8>,
    ghost some: { 0 < vec_len cuts },
    ghost rises: { Rises cuts.items },
    ghost last: { slice_index cuts.items (vec_len cuts - 1) ≤ vec_len pool },
}

/// Goes through strings in order, from the next one on.
#[derive(Clone, Drop)]
pub struct Iter<'a> {
    strings: &'a Strings,
    next: usize,
}
