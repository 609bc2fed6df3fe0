// What is printed of rounds and places.
ghost use Rattle.std.specs.Prelude.{◌≡◌, ◌+◌, ◌*◌, ◌<◌, ◌≤◌, true, [], ◌∷◌, ◌++◌, length, is_ok, if◌then◌else◌, vec_len, vec_capacity, decimal};
ghost use Rattle.script.specs.Output.{head_text, hex_digit, line_text, state_text};

use itoa::Buffer;
use std::alloc::AllocError;

// Room for `round `, ten digits and a newline.
const HEAD_ROOM: usize = 17;

// Room for ten digits, two blanks, a mark, a newline and the `-` of an empty state.
const LINE_ROOM: usize = 15;

// By hand, in place of `write!`: no proof says that `write!` succeeds where there is room, as `head` and `line` promise.

/// The line that says how many rounds were done. Want of memory changes nothing, and where there is room there is none.
pub fn head(out: &mut Vec<u8>, round: u32) -> Result<(), AllocError>
    ensures items { out.new.items ≡ (if is_ok result then out.old.items ++ head_text round else out.old.items) }
    ensures room { vec_len out.old + 17 ≤ vec_capacity out.old → is_ok result ≡ true }
{
    out.reserve(HEAD_ROOM)?;
    put(out, b"round ");
    put(out, Buffer::new().format(round).as_bytes());
    out.push_reserved(b'\n');
    Ok(())
}

/// A place's line. Want of memory changes nothing, and where there is room there is none.
pub fn line(out: &mut Vec<u8>, place: u32, rests: bool, state: &[u8]) -> Result<(), AllocError>
    ensures items { out.new.items ≡ (if is_ok result then out.old.items ++ line_text place rests state.now else out.old.items) }
    ensures room { vec_len out.old + (15 + 2 * length state.now) ≤ vec_capacity out.old → is_ok result ≡ true }
{
    out.reserve(state.len().saturating_mul(2).saturating_add(LINE_ROOM))?;
    put(out, Buffer::new().format(place).as_bytes());
    out.push_reserved(b' ');
    out.push_reserved(if rests { b'1' } else { b'0' });
    out.push_reserved(b' ');
    put_state(out, state);
    out.push_reserved(b'\n');
    Ok(())
}

/// Appends a text for which there is room. Who calls has made room for the whole line, so that nothing is half written.
pub fn put(out: &mut Vec<u8>, text: &[u8])
    requires { vec_len out.old + length text.now ≤ vec_capacity out.old }
    ensures items { out.new.items ≡ out.old.items ++ text.now }
    ensures len { vec_len out.new ≡ vec_len out.old + length text.now }
    ensures capacity { vec_capacity out.old ≤ vec_capacity out.new }
{
    out.extend_from_slice(text).unwrap();
}

// In hexadecimal, or `-` where it is empty.
fn put_state(out: &mut Vec<u8>, state: &[u8])
    requires { vec_len out.old + (1 + 2 * length state.now) ≤ vec_capacity out.old }
    ensures items { out.new.items ≡ out.old.items ++ state_text state.now }
    ensures len { vec_len out.new ≤ vec_len out.old + (1 + 2 * length state.now) }
    ensures capacity { vec_capacity out.new ≡ vec_capacity out.old }
{
    if state.is_empty() {
        out.push_reserved(b'-');
        return;
    }
    for byte in state {
        out.push_reserved(hex(*byte / 16));
        out.push_reserved(hex(*byte % 16));
    }
}

fn hex(digit: u8) -> u8
    requires { digit < 16 }
    ensures { result ≡ hex_digit digit }
{
    if digit < 10 {
        b'0' + digit
    } else {
        b'a' - 10 + digit
    }
}
