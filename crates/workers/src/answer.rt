// What a call comes to, beside the new state.
ghost use Rattle.std.specs.Prelude.{◌≡◌, []};
ghost use Rattle.crew.specs.Outcomes.{Refused};

use crew::{Outcome, Owed, Parcel, Record, Refusal};
use std::alloc::Global;

/// What is owed to the journal before its messages may be said, and what the message came to. It cannot be let go.
pub struct Answer {
    pub owed: Owed<Record>,
    pub outcome: Outcome,
}

impl Answer {
    // Nothing to write down.
    pub(crate) fn saying(heap: Global, says: Vec<Parcel>, outcome: Outcome) -> Answer
        ensures appends { result.owed.appends.items ≡ [] }
        ensures says { result.owed.says ≡ says }
        ensures outcome { result.outcome ≡ outcome }
    {
        Answer {
            owed: Owed::new(Vec::new(heap), says),
            outcome,
        }
    }

    // Nothing to write down, and nothing to say.
    pub(crate) fn refusing(heap: Global, why: Refusal) -> Answer
        ensures appends { result.owed.appends.items ≡ [] }
        ensures says { result.owed.says.items ≡ [] }
        ensures outcome { result.outcome ≡ Refused why }
    {
        Answer::saying(heap, Vec::new(heap), Err(why))
    }
}
