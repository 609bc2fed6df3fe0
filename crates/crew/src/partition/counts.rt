// How many places and workers a table is made for, and who has which of them.
ghost use Rattle.std.specs.Prelude.{◌≡◌, ℕ, ◌<◌, ◌≤◌, IfOk, vec_len, MatchResult, slice_index};
ghost use Rattle.crew.specs.Job.{worker_cap};
ghost use Rattle.meaning.specs.Caps.{place_cap};

use crate::numbers::WORKERS;
use crate::partition::{PartitionFault, Stretch};
use meaning::{PLACES, Place};
use std::alloc::{AllocError, Global};

// So many places and so many workers: not too many of either, and one worker at least.
#[derive(Clone, Copy)]
pub(crate) struct Counts {
    places: u32,
    workers: u8,
    ghost few: { places ≤ place_cap },
    ghost some: { 1 ≤ workers },
    ghost many: { workers ≤ worker_cap },
}

impl Counts {
    ghost use Rattle.crew.specs.Shared.{can_follow, Covers, Even, owner_from, PartitionRefused, StretchRefused};

    // Refuses what there is no table for.
    pub(crate) fn new(places: u32, workers: u8) -> Result<Counts, PartitionFault>
        ensures { MatchResult result (λ c. (c.places ≡ places) × (c.workers ≡ workers)) (PartitionRefused places workers (λ _. ⊥)) }
    {
        if places > PLACES {
            return Err(PartitionFault::Places);
        }
        if workers == 0 || workers > WORKERS {
            return Err(PartitionFault::Workers);
        }
        Ok(Counts { places, workers })
    }

    // Each stretch can stand where it does.
    pub(crate) fn check(self, stretches: &[Stretch]) -> Result<(), PartitionFault>
        ensures { MatchResult result (λ _. Covers self.places self.workers stretches.now) (StretchRefused self.places self.workers stretches.now) }
    {
        if self.places > 0 && stretches.is_empty() {
            return Err(PartitionFault::Stretches { index: 0 });
        }
        let mut before = None;
        for (index, stretch) in stretches.iter().enumerate() {
            if !self.can_follow(before, *stretch) {
                return Err(PartitionFault::Stretches { index });
            }
            before = Some(stretch.first);
        }
        Ok(())
    }

    // Whether a stretch can stand after one that begins at `before`, or as the first.
    fn can_follow(self, before: Option<Place>, stretch: Stretch) -> bool
        ensures { result ≡ can_follow self.places self.workers before stretch }
    {
        let next = match before {
            None => stretch.first == Place(0),
            Some(place) => place < stretch.first,
        };
        next && stretch.first.0 < self.places && stretch.worker.0 < self.workers
    }

    // The worker of each place, stretch by stretch.
    pub(crate) fn fill(self, heap: Global, stretches: &[Stretch]) -> Result<Vec<u8>, AllocError>
        requires { Covers self.places self.workers stretches.now }
        ensures { IfOk result (λ o. (vec_len o ≡ self.places) × ((v : ℕ) → v < self.places → slice_index o.items v ≡ owner_from 0 stretches.now v)) }
    {
        let mut owners = Vec::new(heap);
        let mut worker = 0;
        for stretch in stretches {
            owners.resize(stretch.first.0 as usize, worker)?;
            worker = stretch.worker.0;
        }
        owners.resize(self.places as usize, worker)?;
        Ok(owners)
    }

    // As many places to each worker as to any other, or one more or less, in the workers' order.
    pub(crate) fn share_out(self, heap: Global) -> Result<Vec<u8>, AllocError>
        ensures { IfOk result (λ o. (vec_len o ≡ self.places) × ((v : ℕ) → v < self.places → slice_index o.items v < self.workers) × Even self.places self.workers (λ v. slice_index o.items v)) }
    {
        let mut owners = Vec::new(heap);
        for worker in 0..self.workers {
            let end = (usize::from(worker) + 1) * self.places as usize / usize::from(self.workers);
            owners.resize(end, worker)?;
        }
        Ok(owners)
    }
}
