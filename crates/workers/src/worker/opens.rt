// How a worker comes up.
ghost use Rattle.std.specs.Prelude.{◌≡◌, ℕ, ◌<◌, ◌≤◌, [], ◌∷◌, map, IfOk, if◌then◌else◌};
ghost use Rattle.crew.specs.Journals.{Joined};
ghost use Rattle.crew.specs.Messages as M;
ghost use Rattle.crew.specs.Shared.{job_of};
ghost use Rattle.crew.specs.Stored.{parcels_of, records_of};
ghost use Rattle.crew.specs.Worker.{opened, to_foreman};
ghost use Rattle.meaning.specs.Meaning.{none};
ghost use Rattle.rounds.specs.Yielding.{number};
ghost use Rattle.workers.specs.Crewed.{Replied, started_as, worker_of};
ghost use Rattle.workers.specs.Mine.{mine_of};

use crate::answer::Answer;
use crate::got::Got;
use crate::history::last_joined;
use crate::phase::Phase;
use crate::saying::tell_foreman;
use crate::shares::first_standing;
use crate::station::Station;
use crate::worker::Worker;
use crew::{Attempt, Hello, Kind, Line, Owed, Parcel, Partition, Record};
use meaning::{Inbox, Plan, Round};
use rounds::Worked;
use std::alloc::{AllocError, Global};

impl Worker {
    /// A machine whose journal is empty is fresh, and in attempt 0. One that came up is out, and says hello.
    pub fn open<P: Plan>(
        heap: Global,
        plan: &P,
        me: Line,
        table: Partition,
        journal: &[Record],
    ) -> Result<(Worker, Answer), AllocError>
        ensures { IfOk result (λ x. (x.0.station.me ≡ me) × (x.0.station.table ≡ table) × Replied (opened (job_of table (P.Plan.program plan.now)) me.0 (records_of journal.now)) x.0 x.1) }
    {
        let attempt = last_joined(journal);
        let fresh = is_fresh(journal);
        let station = Station::new(heap, me, table)?;
        let worker = Worker::first(heap, plan, station, fresh, attempt)?;
        let appends = first_records(heap, fresh, attempt)?;
        let says = first_words(heap, fresh, me, attempt)?;
        let answer = Answer {
            owed: Owed::new(appends, says),
            outcome: Ok(()),
        };
        Ok((worker, answer))
    }

    // With what its places begin with, in that attempt or out.
    fn first<P: Plan>(
        heap: Global,
        plan: &P,
        station: Station,
        fresh: bool,
        attempt: Attempt,
    ) -> Result<Worker, AllocError>
        requires { map number station.mine.items ≡ mine_of station.table station.me.0 }
        ensures { IfOk result (λ w. (w.station ≡ station) × (worker_of w ≡ started_as (job_of station.table (P.Plan.program plan.now)) station.me.0 fresh attempt.0)) }
    {
        let standing = first_standing(heap, plan, &station.mine)?;
        let inbox = Inbox::new(heap, station.table.places())?;
        let next = Worked::new(heap, station.table.places())?;
        let got = Got::new(heap)?;
        Ok(Worker {
            station,
            phase: Phase::opened(fresh),
            attempt,
            round: Round(0),
            standing,
            inbox,
            next,
            got,
            latest: None,
        })
    }
}

fn is_fresh(journal: &[Record]) -> bool
    ensures { result ≡ none (records_of journal.now) }
{
    journal.is_empty()
}

// Only a fresh machine has something to write down.
fn first_records(heap: Global, fresh: bool, attempt: Attempt) -> Result<Vec<Record>, AllocError>
    ensures { IfOk result (λ v. records_of v.items ≡ (if fresh then Joined attempt.0 ∷ [] else [])) }
{
    if fresh {
        Ok(vec![in heap; Record::Joined { attempt }]?)
    } else {
        Ok(Vec::new(heap))
    }
}

// Only one that came up says hello.
fn first_words(
    heap: Global,
    fresh: bool,
    me: Line,
    attempt: Attempt,
) -> Result<Vec<Parcel>, AllocError>
    ensures { IfOk result (λ v. parcels_of v.items ≡ (if fresh then [] else to_foreman me.0 (M.Hello attempt.0) ∷ [])) }
{
    let mut says = Vec::new(heap);
    if !fresh {
        tell_foreman(heap, &mut says, me, Kind::Hello(Hello { attempt }))?;
    }
    Ok(says)
}
