// Whether letters that came are fit to be taken.
ghost use Rattle.std.specs.Prelude.{◌≡◌, ◌&&◌, ◌==◌, nat_lt};
ghost use Rattle.batches.specs.Judging.{between_by, named};
ghost use Rattle.crew.specs.Shared.{owner_of};
ghost use Rattle.crew.specs.Worker.{rising_from};
ghost use Rattle.meaning.specs.Packets.{letters_of};

use crew::{Line, Partition};
use meaning::{Head, Letters};

/// Letters of places that are there, by rising senders.
pub fn well_formed(letters: &Letters, places: u32) -> bool
    ensures { result ≡ (rising_from 0 (letters_of letters.now) && named places (letters_of letters.now)) }
{
    rising(letters) && are_named(letters, places)
}

// No sender is below the one before it.
fn rising(letters: &Letters) -> bool
    ensures { result ≡ rising_from 0 (letters_of letters.now) }
{
    letters
        .iter()
        .is_sorted_by(|a, b| a.head.from <= b.head.from)
}

// All senders and receivers are below this.
fn are_named(letters: &Letters, places: u32) -> bool
    ensures { result ≡ named places (letters_of letters.now) }
{
    letters.iter().all(|letter| is_named(letter.head, places))
}

fn is_named(head: Head, places: u32) -> bool
    ensures { result ≡ (nat_lt head.from.0 places && nat_lt head.to.0 places) }
{
    head.from.0 < places && head.to.0 < places
}

/// All from places of one worker and to places of another.
pub fn between(letters: &Letters, table: &Partition, from: Line, to: Line) -> bool
    ensures { result ≡ between_by (owner_of table.now) from.0 to.0 (letters_of letters.now) }
{
    letters
        .iter()
        .all(|letter| is_between(letter.head, table, from, to))
}

fn is_between(head: Head, table: &Partition, from: Line, to: Line) -> bool
    ensures { result ≡ (from.0 == owner_of table.now head.from.0 && to.0 == owner_of table.now head.to.0) }
{
    from == table.owner(head.from) && to == table.owner(head.to)
}
