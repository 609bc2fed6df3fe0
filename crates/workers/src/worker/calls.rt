// What is asked of a worker.
ghost use Rattle.std.specs.Prelude.{◌≡◌, ℕ, ◌<◌, ◌≤◌, false, [], length, MatchOption, slice_index, slice_index_or};
ghost use Rattle.workers.specs.Crewed.{share_in, worker_of};
ghost use Rattle.workers.specs.Mine.{mine_of};

use crate::worker::Worker;
use crew::Attempt;
use meaning::{Place, Round};

impl Worker {
    /// How many rounds are done.
    pub fn round(&self) -> Round
        ensures { result.0 ≡ (worker_of self.now).round }
    {
        self.round
    }

    pub fn attempt(&self) -> Attempt
        ensures { result.0 ≡ (worker_of self.now).attempt }
    {
        self.attempt
    }

    /// Is it in its attempt.
    pub fn is_joined(&self) -> bool
        ensures { result ≡ (worker_of self.now).joined }
    {
        self.phase.is_in()
    }

    /// Was it told that it is over.
    pub fn is_over(&self) -> bool
        ensures { result ≡ (worker_of self.now).over }
    {
        self.phase.is_over()
    }

    /// How many places it has.
    pub fn places(&self) -> usize
        ensures { result ≡ length (share_in self.now).states }
    {
        self.standing.len()
    }

    /// Its place k, by rising number.
    pub fn place(&self, k: usize) -> Option<Place>
        ensures { MatchOption result (length (mine_of self.now.station.table self.now.station.me.0) ≤ k) (λ p. (k < length (mine_of self.now.station.table self.now.station.me.0)) × (p.0 ≡ slice_index (mine_of self.now.station.table self.now.station.me.0) k)) }
    {
        self.station.mine.get(k).copied()
    }

    /// The state of its place k.
    pub fn state(&self, k: usize) -> Option<&[u8]>
        ensures { MatchOption result (length (share_in self.now).states ≤ k) (λ s. (k < length (share_in self.now).states) × (s.now ≡ slice_index_or (share_in self.now).states k [])) }
    {
        self.standing.states.get(k)
    }

    /// Does its place k rest.
    pub fn rests(&self, k: usize) -> bool
        ensures { result ≡ slice_index_or (share_in self.now).rests k false }
    {
        self.standing.rests.get(k).copied().unwrap_or(false)
    }
}
