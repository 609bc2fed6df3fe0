// Who is ready: the bits of one word.
ghost use Rattle.std.specs.Prelude.{◌≡◌, ℕ, ◌-◌, ◌^◌, ◌<◌, ◌≤◌, ◌||◌, ◌==◌};
ghost use Rattle.crew.specs.Job.{all_below, worker_cap};
ghost use Rattle.crew.specs.Ready.{bit};

use crate::numbers::{Line, WORKERS};

// Workers, each by the bit of its line.
#[derive(Clone, Copy)]
pub(crate) struct Workers(u64);

impl Workers {
    pub(crate) const NONE: Workers = Workers(0);

    pub(crate) fn with(self, line: Line) -> Workers
        requires { line.0 < worker_cap }
        ensures { (k : ℕ) → bit result.0 k ≡ (k == line.0 || bit self.0 k) }
    {
        Workers(self.0 | (1 << line.0))
    }

    pub(crate) fn has(self, line: Line) -> bool
        ensures { result ≡ bit self.0 line.0 }
    {
        line.0 < WORKERS && (self.0 >> line.0) % 2 == 1
    }

    // Whether the first so many are among them.
    pub(crate) fn has_all(self, count: u8) -> bool
        requires { count ≤ worker_cap }
        ensures { result ≡ all_below count (bit self.0) }
    {
        let full = full(count);
        self.0 & full == full
    }
}

// The word of the first so many.
fn full(count: u8) -> u64
    requires { count ≤ worker_cap }
    ensures { result ≡ 2 ^ count - 1 }
{
    if count == WORKERS {
        u64::MAX
    } else {
        (1 << count) - 1
    }
}
