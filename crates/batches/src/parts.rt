// Letters cut up into what goes to each worker.
ghost use Rattle.std.specs.Prelude.{◌≡◌, [], map, replicate, IfOk};
ghost use Rattle.batches.specs.Sharing.{parts_of};
ghost use Rattle.crew.specs.Shared.{owner_of};
ghost use Rattle.meaning.specs.Packets.{letters_of};

use crew::Partition;
use meaning::Letters;
use std::alloc::{AllocError, Global};

/// The part of each worker, in the workers' order, by one pass over the letters.
pub fn cut(heap: Global, letters: &Letters, table: &Partition) -> Result<Vec<Letters>, AllocError>
    ensures { IfOk result (λ v. map letters_of v.items ≡ parts_of (owner_of table.now) table.now.workers (letters_of letters.now)) }
{
    let mut parts = empty_parts(heap, usize::from(table.workers()))?;
    for letter in letters.iter() {
        let owner = usize::from(table.owner(letter.head.to).0);
        parts[owner].push(letter.head, letter.bytes)?;
    }
    Ok(parts)
}

// So many parts with no letter.
fn empty_parts(heap: Global, count: usize) -> Result<Vec<Letters>, AllocError>
    ensures { IfOk result (λ v. map letters_of v.items ≡ replicate count []) }
{
    (0..count).map(|_| Letters::new(heap)).try_collect(heap)
}
