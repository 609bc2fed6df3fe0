// A word's 8 bytes again and again.
ghost use Rattle.std.specs.Prelude.{◌≡◌, ◌%◌, ◌≤◌, length};
ghost use Rattle.plans.specs.Scramble.{repeated};

// Cut to so many bytes, at the front of the buffer: that part of it.
pub(crate) fn again(buffer: &mut [u8], word: u64, count: usize) -> &[u8]
    requires whole { length buffer.old % 8 ≡ 0 }
    requires room { count ≤ length buffer.old }
    ensures { result.now ≡ repeated word count }
{
    fill(buffer, word);
    &buffer[0..count]
}

fn fill(buffer: &mut [u8], word: u64)
    requires { length buffer.old % 8 ≡ 0 }
    ensures { buffer.new ≡ repeated word (length buffer.old) }
{
    let bytes = word.to_be_bytes();
    // By number: of what is written through `chunks_exact_mut` a proof knows no more than the length, and written a
    // byte at a time the bytes take the plan scramble 1.35 of the time.
    for i in 0..buffer.len() / 8 {
        buffer[i * 8..i * 8 + 8].copy_from_slice(&bytes);
    }
}
