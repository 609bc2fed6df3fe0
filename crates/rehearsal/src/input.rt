// A script from standard input, and what was wrong with it.
ghost use Rattle.std.specs.Prelude.{◌≡◌, ◌≢◌, ℕ, List, Ok, Err, IfOk, IfSome};
ghost use Rattle.std.specs.Borrow.{Bor};
ghost use Rattle.std.specs.Fn.{FnOnceReturnsAt};
ghost use Rattle.std.specs.Process.{exit_status};
ghost use Rattle.script.specs.declared.complaints.Unread.TheVariants.{Bad};

use crate::blocks::BLOCK;
use script::{Complaint, Position, Unread};
use std::alloc::Global;
use std::fmt::Display;
use std::io::Read;
use std::process::ExitCode;

// All that there is to read. A block is asked for at a time: what a packet has beyond it is lost. By hand, in place of
// `read_to_end`: that asks for 512 bytes first, and tells want of memory as an error of its own.
fn input<R: Read>(heap: Global, from: &mut R) -> anyhow::Result<Vec<u8>>
    ensures { IfOk result (λ t. IfSome (R.remaining from.old) (λ xs. t.items ≡ xs)) }
{
    let mut text = Vec::new(heap);
    let mut block = vec![in heap; 0u8; BLOCK]?;
    for _ in 0..u64::MAX {
        let n = from.read(block.as_mut_slice())?;
        if n == 0 {
            break;
        }
        text.extend_from_slice(&block[0..n])?;
    }
    Ok(text)
}

// The line as text; where it is none, it isn't shown.
fn found(text: &[u8], position: Position) -> &str {
    match text.get(position.start..position.end) {
        Some(line) => std::str::from_utf8(line).unwrap_or("bytes that are no text"),
        None => "",
    }
}

// A line for each.
fn complain<E: Display>(
    rt: &HostRuntime,
    text: &[u8],
    complaints: &[Complaint<E>],
) -> anyhow::Result<()> {
    for complaint in complaints {
        let expected = &complaint.expected;
        match complaint.position {
            None => eprintln!(rt; "rehearse: expected {expected}")?,
            Some(position) => {
                let line = position.line;
                let found = found(text, position);
                eprintln!(rt; "rehearse: line {line}: expected {expected}, found '{found}'")?;
            }
        }
    }
    Ok(())
}

/// Plays what is read from standard input. The status is 0 only where a script was read and its play went well, and another
/// only where what was read is bad.
pub fn rehearse<S, E, R, P>(rt: &HostRuntime, read: R, play: P) -> anyhow::Result<ExitCode>
where
    S: Drop,
    E: Display + Drop,
    R: FnOnce(Global, &[u8]) -> Result<S, Unread<E>>,
    P: FnOnce(&S) -> anyhow::Result<()>,
    requires reads { R.IsAlwaysCallable read }
    requires plays { P.IsAlwaysCallable play }
    ensures played { IfOk result (λ code. exit_status code ≡ 0 → (heap : Global) × (text : Bor (List ℕ)) × (script : S) × R.post read heap text (Ok script) × FnOnceReturnsAt P.FnOnce play script (Ok tt)) }
    ensures bad { IfOk result (λ code. exit_status code ≢ 0 → (heap : Global) × (text : Bor (List ℕ)) × (complaints : _) × R.post read heap text (Err (Bad complaints))) }
{
    let text = input(rt.alloc(), &mut rt.stdin())?;
    match read(rt.alloc(), text.as_slice()) {
        Ok(script) => {
            play(&script)?;
            Ok(ExitCode::SUCCESS)
        }
        Err(Unread::Bad(complaints)) => {
            complain(rt, text.as_slice(), complaints.as_slice())?;
            Ok(ExitCode::FAILURE)
        }
        Err(Unread::Memory(error)) => Err(error.into()),
    }
}
