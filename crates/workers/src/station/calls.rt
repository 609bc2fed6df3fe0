// Which places are a worker's, and whose letters are fit for it.
ghost use Rattle.std.specs.Prelude.{◌≡◌, ℕ, ◌<◌, ◌≤◌, ◌&&◌, map, IfOk, ◌==◌, nat_lt};
ghost use Rattle.batches.specs.Judging.{named};
ghost use Rattle.crew.specs.Shared.{job_of};
ghost use Rattle.crew.specs.Worker.{between as all_between, rising_from};
ghost use Rattle.meaning.specs.Meaning.{Program};
ghost use Rattle.meaning.specs.Packets.{letters_of};
ghost use Rattle.rounds.specs.Yielding.{number};
ghost use Rattle.workers.specs.Mine.{mine_of};

use crate::station::Station;
use batches::{between, well_formed};
use crew::{Batch, Line, Partition};
use meaning::{Letters, Place};
use std::alloc::{AllocError, Global};

impl Station {
    // Its places are those that the table gives it, rising.
    pub(crate) fn new(heap: Global, me: Line, table: Partition) -> Result<Station, AllocError>
        ensures { IfOk result (λ s. (s.me ≡ me) × (s.table ≡ table) × (map number s.mine.items ≡ mine_of s.table s.me.0)) }
    {
        let mine = (0..table.places())
            .map(Place)
            .filter(|place| me == table.owner(*place))
            .collect(heap)?;
        Ok(Station { me, table, mine })
    }

    // Of workers that are there, with letters that are in order.
    pub(crate) fn is_proper(&self, line: Line, batch: Batch, letters: &Letters) -> bool
        ensures { result ≡ (nat_lt line.0 self.now.table.workers && nat_lt batch.from.0 self.now.table.workers && nat_lt batch.to.0 self.now.table.workers && (rising_from 0 (letters_of letters.now) && named self.now.table.places (letters_of letters.now))) }
    {
        self.are_workers(line, batch.from, batch.to) && well_formed(letters, self.table.places())
    }

    fn are_workers(&self, a: Line, b: Line, c: Line) -> bool
        ensures { result ≡ (nat_lt a.0 self.now.table.workers && nat_lt b.0 self.now.table.workers && nat_lt c.0 self.now.table.workers) }
    {
        let count = self.table.workers();
        a.0 < count && b.0 < count && c.0 < count
    }

    // Is it from the worker on that line to this one, with letters from places of the one to places of the other.
    pub(crate) fn is_ours(&self, line: Line, batch: Batch, letters: &Letters) -> bool
        ensures { (q : Program) → result ≡ (batch.to.0 == self.now.me.0 && batch.from.0 == line.0 && all_between (job_of self.now.table q) line.0 self.now.me.0 (letters_of letters.now)) }
    {
        batch.to == self.me && batch.from == line && between(letters, &self.table, line, self.me)
    }
}
