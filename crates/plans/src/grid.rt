// A plan to measure with: places in rows, each of which writes to the places around it.
ghost use Rattle.std.specs.Prelude.{◌<◌};

mod calls;

/// Row by row, so many places to a row. Letters are sent in the rounds before the last.
#[derive(Clone, Copy)]
pub struct Grid {
    width: u32,
    last: u32,
    ghost some: { 0 < width },
}
