// What is done with the table of who has which place.
ghost use Rattle.std.specs.Prelude.{◌≡◌, ℕ, ◌<◌, ◌≤◌, MatchResult};
ghost use Rattle.crew.specs.Shared.{Covers, Even, Misplaced, owner_from, owner_of, PartitionRefused};

use crate::numbers::Line;
use crate::partition::counts::Counts;
use crate::partition::{Partition, PartitionFault, Stretch};
use meaning::Place;
use std::alloc::{AllocError, Global};

impl Partition {
    /// A table by its stretches.
    pub fn new(
        heap: Global,
        places: u32,
        workers: u8,
        stretches: &[Stretch],
    ) -> Result<Partition, PartitionFault>
        ensures { MatchResult result (λ p. (p.places ≡ places) × (p.workers ≡ workers) × Covers places workers stretches.now × ((v : ℕ) → v < places → owner_of p v ≡ owner_from 0 stretches.now v)) (PartitionRefused places workers (Misplaced places workers stretches.now)) }
    {
        let counts = Counts::new(places, workers)?;
        counts.check(stretches)?;
        let owners = counts.fill(heap, stretches)?;
        Ok(Partition {
            places,
            workers,
            owners,
        })
    }

    /// A table in which each worker has as many places as any other, or one more or less, in the workers' order.
    pub fn evenly(heap: Global, places: u32, workers: u8) -> Result<Partition, PartitionFault>
        ensures { MatchResult result (λ p. (p.places ≡ places) × (p.workers ≡ workers) × Even places workers (owner_of p)) (PartitionRefused places workers (λ _. ⊥)) }
    {
        let owners = Counts::new(places, workers)?.share_out(heap)?;
        Ok(Partition {
            places,
            workers,
            owners,
        })
    }

    pub fn places(&self) -> u32
        ensures { result ≡ self.now.places }
    {
        self.places
    }

    pub fn workers(&self) -> u8
        ensures { result ≡ self.now.workers }
    {
        self.workers
    }

    /// The worker of a place; of one that isn't there, the first.
    pub fn owner(&self, place: Place) -> Line
        ensures { result.0 ≡ owner_of self.now place.0 }
    {
        Line(self.owners.get(place.0 as usize).copied().unwrap_or(0))
    }
}

// The same table. By hand: of a derived copy, callers learn nothing.
impl Clone for Partition {
    ghost is_clone = { λ p q. (q.places ≡ p.places) × (q.workers ≡ p.workers) × (q.owners.items ≡ p.owners.items) };

    fn clone(&self) -> Result<Partition, AllocError> {
        Ok(Partition {
            places: self.places,
            workers: self.workers,
            owners: self.owners.clone()?,
        })
    }
}
