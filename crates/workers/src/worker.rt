// A worker of a crew.
ghost use Rattle.std.specs.Prelude.{◌≡◌, map, length};
ghost use Rattle.rounds.specs.Work.{places_of};
ghost use Rattle.rounds.specs.Yielding.{number};
ghost use Rattle.workers.specs.Mine.{mine_of};
ghost use Rattle.workers.specs.declared.phase.Phase.TheVariants.{Worked as IsWorked};

use crate::got::Got;
use crate::phase::Phase;
use crate::station::Station;
use crew::Attempt;
use meaning::{Inbox, Round};
use rounds::{Standing, Worked};

mod calls;
mod judges;
mod opens;
mod says;
mod takes;
mod takes_anew;
mod takes_batch;
mod takes_go;
mod ticks;
mod works;

/// What stays of it; where it is in its attempt; how many rounds are done and what its places have after them; what they
/// come to in the next, once it has worked it; the batches of that round that came; and the last round that it put by in
/// this attempt. What is worked lies beside the phase and not in it, since its memory serves round after round.
#[derive(Drop)]
pub struct Worker {
    station: Station,
    phase: Phase,
    attempt: Attempt,
    round: Round,
    standing: Standing,
    inbox: Inbox,
    next: Worked,
    got: Got,
    latest: Option<Round>,
    ghost owns: { map number station.mine.items ≡ mine_of station.table station.me.0 },
    ghost known: { length standing.rests.items ≡ length station.mine.items },
    ghost beside: { places_of next ≡ station.table.places },
    ghost next_known: { (phase ≡ IsWorked → length next.standing.rests.items ≡ length station.mine.items) },
}
