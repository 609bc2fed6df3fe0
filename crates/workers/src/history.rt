// What a worker finds in its journal.
ghost use Rattle.std.specs.Prelude.{◌≡◌, ℕ, ◌<◌, ◌≤◌, [], ◌∷◌};
ghost use Rattle.crew.specs.Journals.{last_joined, checkpoint_of, greatest_below};
ghost use Rattle.crew.specs.Stored.{record_of, records_of};
ghost use Rattle.std.specs.Option.{option_map};
ghost use Rattle.workers.specs.Seen.{view_in};

use crew::{Attempt, Record, Share};
use meaning::Round;

// The attempt that it joined last.
pub(crate) fn last_joined(journal: &[Record]) -> Attempt
    ensures { result.0 ≡ last_joined 0 (records_of journal.now) }
{
    journal
        .iter()
        .fold(Attempt(0), |last, kept| joined_or(kept, last))
}

fn joined_or(kept: &Record, last: Attempt) -> Attempt
    ensures { result.0 ≡ last_joined last.0 (record_of kept.now ∷ []) }
{
    match kept {
        Record::Joined { attempt } => *attempt,
        Record::Checkpoint { .. } => last,
    }
}

// The last checkpoint of that round.
pub(crate) fn checkpoint(journal: &[Record], round: Round) -> Option<&Share>
    ensures { option_map view_in result ≡ checkpoint_of round.0 (records_of journal.now) }
{
    journal
        .iter()
        .rev()
        .find_map(|kept| checkpoint_in(kept, round))
}

fn checkpoint_in(kept: &Record, round: Round) -> Option<&Share>
    ensures { option_map view_in result ≡ checkpoint_of round.0 (record_of kept.now ∷ []) }
{
    match kept {
        Record::Checkpoint { round: of, share } if round == *of => Some(share),
        _ => None,
    }
}

// The greatest round below another of which there is a checkpoint, or 0.
pub(crate) fn greatest_below(journal: &[Record], round: Round) -> Round
    ensures { result.0 ≡ greatest_below 0 round.0 (records_of journal.now) }
{
    journal
        .iter()
        .fold(Round(0), |most, kept| greater_or(kept, round, most))
}

fn greater_or(kept: &Record, round: Round, most: Round) -> Round
    ensures { result.0 ≡ greatest_below most.0 round.0 (record_of kept.now ∷ []) }
{
    match kept {
        Record::Checkpoint { round: of, .. } if *of < round => most.max(*of),
        _ => most,
    }
}
