// The crew: its machines, their journals, and what is under way.
ghost use Rattle.std.specs.Prelude.{◌≡◌, vec_len};
ghost use Rattle.world.specs.Paced.{Heads};
ghost use Rattle.world.specs.Seated.{Seated};

use crate::machine::Machine;
use crew::{Foreman, Note, Parcel, Partition, Record};
use std::collections::VecDeque;
use workers::Worker;

mod asks;
mod calls;
mod events;

/// What is under way waits in the order said.
#[derive(Drop)]
pub struct State {
    table: Partition,
    seats: Vec<Machine<Worker, Record>>,
    desk: Machine<Foreman, Note>,
    underway: VecDeque<Parcel>,
    ghost many: { vec_len seats ≡ table.workers },
    ghost seated: { Seated table seats.items },
    ghost headed: { Heads table.workers desk.up },
}
