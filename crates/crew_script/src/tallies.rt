// What is printed of how a crew fared.
ghost use Rattle.std.specs.Prelude.{◌≡◌, ◌+◌, ◌≤◌, true, ◌++◌, length, is_ok, if◌then◌else◌, vec_len, vec_capacity, decimal};
ghost use Rattle.crew_script.specs.Counts.{counts_text};

use itoa::Buffer;
use script::put;
use std::alloc::AllocError;

// Room for seven words, seven numbers of ten digits and a newline.
const COUNTS_ROOM: usize = 126;

/// How often each befell, the foreman's last attempt, and the last round of which it noted that all have a checkpoint.
#[derive(Clone, Copy, Debug, Default, PartialEq, Eq)]
pub struct Tally {
    pub given: u32,
    pub lost: u32,
    pub doubled: u32,
    pub late: u32,
    pub cut: u32,
    pub attempts: u32,
    pub noted: u32,
}

/// The line of counts. Want of memory changes nothing, and where there is room there is none.
pub fn counts(out: &mut Vec<u8>, c: Tally) -> Result<(), AllocError>
    ensures items { out.new.items ≡ (if is_ok result then out.old.items ++ counts_text c else out.old.items) }
    ensures room { vec_len out.old + 126 ≤ vec_capacity out.old → is_ok result ≡ true }
{
    out.reserve(COUNTS_ROOM)?;
    put_count(out, b"given ", c.given);
    put_count(out, b", lost ", c.lost);
    put_count(out, b", doubled ", c.doubled);
    put_count(out, b", late ", c.late);
    put_count(out, b", cut ", c.cut);
    put_count(out, b", attempts ", c.attempts);
    put_count(out, b", noted ", c.noted);
    put(out, b"\n");
    Ok(())
}

// By hand, as the lines of `script` are.
fn put_count(out: &mut Vec<u8>, label: &[u8], n: u32)
    requires { vec_len out.old + (length label.now + 10) ≤ vec_capacity out.old }
    ensures items { out.new.items ≡ out.old.items ++ (label.now ++ decimal n) }
    ensures len { vec_len out.new ≤ vec_len out.old + (length label.now + 10) }
    ensures capacity { vec_capacity out.old ≤ vec_capacity out.new }
{
    put(out, label);
    put(out, Buffer::new().format(n).as_bytes());
}
