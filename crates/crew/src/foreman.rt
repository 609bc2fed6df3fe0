// The foreman (the master), who paces the rounds.
ghost use Rattle.std.specs.Prelude.{◌≡◌, ◌<◌, ◌≤◌, length};
ghost use Rattle.crew.specs.Foreman.{patience};
ghost use Rattle.crew.specs.Job.{worker_cap};
ghost use Rattle.crew.specs.Worker.{attempt_cap};
ghost use Rattle.crew.specs.declared.foreman.OpenFault.TheVariants.{Memory};

use crate::foreman::ready::Workers;
use crate::journal::{Note, Owed};
use crate::numbers::{Attempt, SLOTS};
use crate::outcome::Outcome;
use meaning::Round;
use std::alloc::AllocError;
use thiserror::Error;

mod calls;
mod opens;
mod ready;
mod takes;

/// Its state is a value, changed and handed back, so that a call that fails leaves it as it was.
#[derive(Clone, Copy)]
pub struct Foreman {
    // the attempt that it began last, and from which round
    attempt: Attempt,
    start: Round,
    // the round that all are in; who is ready for the next; all of these said that theirs is over
    at: Round,
    ready: Workers,
    ending: bool,
    // it said that it is over
    over: bool,
    // the last round of which all have a checkpoint, and the last that each worker said in this attempt it has one of
    noted: Round,
    kept: [Round; SLOTS],
    // ticks since it took anything
    quiet: u8,
    workers: u8,
    ghost early: { attempt.0 < attempt_cap },
    ghost patient: { quiet < patience },
    ghost many: { workers ≤ worker_cap },
    ghost wide: { length kept ≡ worker_cap },
}

/// What a call comes to: the foreman then, what it owes, and what the message came to.
pub struct Paced {
    pub foreman: Foreman,
    pub owed: Owed<Note>,
    pub outcome: Outcome,
}

/// Why a foreman did not open.
#[derive(Clone, Copy, Debug, PartialEq, Eq, Error)]
pub enum OpenFault {
    #[error("there is no attempt left to begin")]
    UsedUp,
    #[error("no memory")]
    Memory,
}

impl From<AllocError> for OpenFault {
    ghost from_gives = { λ _ e. e ≡ Memory };

    fn from(_: AllocError) -> OpenFault {
        OpenFault::Memory
    }
}
