// What is done with the batches of a round.
ghost use Rattle.std.specs.Option.{option_map};
ghost use Rattle.std.specs.Prelude.{◌≡◌, ℕ, ◌<◌, ◌≤◌, length, take, is_some, box_value, IfOk, if◌then◌else◌, Some, nat_eq};
ghost use Rattle.crew.specs.Job.{all_below};
ghost use Rattle.crew.specs.Worker.{letters_in, merged_below, nothing_got};
ghost use Rattle.meaning.specs.Meaning.{none};
ghost use Rattle.meaning.specs.Packets.{letters_of};
ghost use Rattle.workers.specs.Holding.{got_of};

use crate::got::Got;
use batches::merge_all;
use crew::{Line, Partition};
use meaning::Letters;
use std::alloc::{AllocError, Global};

const MISSING: Option<Letters> = None;

impl Got {
    pub(crate) fn new(heap: Global) -> Result<Got, AllocError>
        ensures { IfOk result (λ g. got_of g ≡ nothing_got) }
    {
        let slots = Box::new(heap, [MISSING; 64])?;
        Ok(Got { slots })
    }

    // A worker's batch.
    pub(crate) fn put(&mut self, from: Line, letters: Letters)
        requires { from.0 < 64 }
        ensures { got_of self.new ≡ (λ k. (if nat_eq k from.0 then Some (letters_of letters) else got_of self.old k)) }
    {
        self.slots[usize::from(from.0)] = Some(letters);
    }

    // Is there a batch of that worker.
    pub(crate) fn has(&self, from: Line) -> bool
        requires { from.0 < 64 }
        ensures { result ≡ is_some (got_of self.now from.0) }
    {
        self.slots[usize::from(from.0)].is_some()
    }

    // The slots of the workers that are there.
    fn of(&self, table: &Partition) -> &[Option<Letters>]
        ensures { result.now ≡ take table.now.workers (box_value self.now.slots) }
    {
        &self.slots[..usize::from(table.workers())]
    }

    // Is there a batch of each worker.
    pub(crate) fn has_all(&self, table: &Partition) -> bool
        ensures { result ≡ all_below table.now.workers (λ j. is_some (got_of self.now j)) }
    {
        self.of(table).iter().all(|slot| slot.is_some())
    }

    // No letter came from any worker.
    pub(crate) fn all_empty(&self, table: &Partition) -> bool
        ensures { result ≡ all_below table.now.workers (λ j. none (letters_in (got_of self.now j))) }
    {
        self.of(table).iter().all(|slot| has_no_letter(slot))
    }

    // The letters of all workers' batches, by rising senders.
    pub(crate) fn merged(&self, heap: Global, table: &Partition) -> Result<Letters, AllocError>
        ensures { IfOk result (λ l. letters_of l ≡ merged_below (got_of self.now) table.now.workers) }
    {
        merge_all(heap, self.of(table))
    }
}

fn has_no_letter(slot: &Option<Letters>) -> bool
    ensures { result ≡ none (letters_in (option_map letters_of slot.now)) }
{
    slot.as_ref().is_none_or(|letters| letters.len() == 0)
}
