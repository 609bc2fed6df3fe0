// What is printed of a place, as it is without crews.
ghost use Rattle.std.specs.Prelude.{◌≡◌, ◌+◌, ◌*◌, ◌≤◌, true, ◌++◌, length, is_ok, if◌then◌else◌, vec_len, vec_capacity};
ghost use Rattle.script.specs.Output.{line_text};

use std::alloc::AllocError;

/// A place's line. Want of memory changes nothing, and where there is room there is none.
pub fn line(out: &mut Vec<u8>, place: u32, rests: bool, state: &[u8]) -> Result<(), AllocError>
    ensures items { out.new.items ≡ (if is_ok result then out.old.items ++ line_text place rests state.now else out.old.items) }
    ensures room { vec_len out.old + (15 + 2 * length state.now) ≤ vec_capacity out.old → is_ok result ≡ true }
{
    script::line(out, place, rests, state)
}
