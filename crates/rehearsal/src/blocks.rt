// Lines for a writer, written in blocks.
ghost use Rattle.std.specs.Prelude.{◌≡◌, ◌<◌, [], IfOk, OnOk, vec_len};
ghost use Rattle.std.specs.Io.KnownBytes.{Keeps};
ghost use Rattle.rehearsal.specs.Blocks.{contents_of};

use std::alloc::{AllocError, Global};
use std::io;
use std::io::Write;

pub(crate) const BLOCK: usize = 65536;

/// A writer, and the lines that wait for it. Lines are appended, and then written once they are a block.
#[derive(Drop)]
pub struct Blocks<W: Write + Drop> {
    out: W,
    pub lines: Vec<u8>,
}

impl<W: Write + Drop> Blocks<W> {
    pub fn new(heap: Global, out: W) -> Result<Blocks<W>, AllocError>
        ensures { IfOk result (λ b. Keeps (W.contents out) (contents_of W.contents b)) }
    {
        Ok(Blocks {
            out,
            lines: Vec::with_capacity(heap, 2 * BLOCK)?,
        })
    }

    /// Writes what waits once it is a block.
    pub fn write_if_block(&mut self) -> io::Result<()>
        ensures short { OnOk result (vec_len self.new.lines < 65536) }
        ensures kept { OnOk result (Keeps (contents_of W.contents self.old) (contents_of W.contents self.new)) }
    {
        if self.lines.len() < BLOCK {
            return Ok(());
        }
        self.write()
    }

    /// Writes what waits, though it be no whole block. Its answer is no `anyhow::Result`, whose 288 bytes would be blanked for
    /// each line.
    pub fn write(&mut self) -> io::Result<()>
        ensures kept { OnOk result (Keeps (contents_of W.contents self.old) (contents_of W.contents self.new)) }
        ensures none { OnOk result (self.new.lines.items ≡ []) }
    {
        self.out.write_all(self.lines.as_slice())?;
        self.lines.clear();
        Ok(())
    }

    /// Writes what is left, and hands back the writer.
    pub fn end(mut self) -> io::Result<W>
        ensures { IfOk result (λ w. Keeps (contents_of W.contents self) (W.contents w)) }
    {
        self.write()?;
        self.out.flush()?;
        Ok(self.out)
    }
}
