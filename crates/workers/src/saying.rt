// What a worker says.
ghost use Rattle.std.specs.Prelude.{◌≡◌, ℕ, ◌<◌, ◌≤◌, [], ◌∷◌, ◌++◌, map, length, vec_len, OnOk};
ghost use Rattle.crew.specs.Stored.{message_of, parcels_of};
ghost use Rattle.crew.specs.Worker.{to_foreman};
ghost use Rattle.meaning.specs.Packets.{letters_of};
ghost use Rattle.workers.specs.Saying.{batches_from};

use crew::{Attempt, Batch, Kind, Line, Parcel};
use meaning::{Letters, Round};
use std::alloc::{AllocError, Global};

// One message more, to the foreman.
pub(crate) fn tell_foreman(
    heap: Global,
    says: &mut Vec<Parcel>,
    me: Line,
    kind: Kind,
) -> Result<(), AllocError>
    ensures { OnOk result (parcels_of says.new.items ≡ parcels_of says.old.items ++ to_foreman me.0 (message_of kind []) ∷ []) }
{
    says.push(Parcel {
        from: me,
        to: Line::FOREMAN,
        kind,
        letters: Letters::new(heap)?,
    })?;
    Ok(())
}

// A batch more to each worker.
pub(crate) fn send_parts(
    says: &mut Vec<Parcel>,
    parts: Vec<Letters>,
    me: Line,
    attempt: Attempt,
    round: Round,
) -> Result<(), AllocError>
    requires { vec_len parts ≤ 64 }
    ensures { OnOk result (parcels_of says.new.items ≡ parcels_of says.old.items ++ batches_from me.0 attempt.0 round.0 0 (map letters_of parts.items)) }
{
    says.extend(
        (0..64).zip(parts).map(|(to, letters)| {
            let batch = Batch {
                attempt,
                round,
                from: me,
                to: Line(to),
            };
            Parcel {
                from: batch.from,
                to: batch.to,
                kind: Kind::Batch(batch),
                letters,
            }
        }),
    )
}
