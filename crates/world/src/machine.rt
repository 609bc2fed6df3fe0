// A machine of a crew: a worker or the foreman.
ghost use Rattle.std.specs.Prelude.{◌≡◌, [], None};
ghost use Rattle.std.specs.Option.{option_map};

use crew::Journal;
use std::alloc::Global;

mod foreman;
mod worker;

/// What it is while it is up, and the journal that outlives it.
#[derive(Drop)]
pub struct Machine<M, R: Drop> {
    up: Option<M>,
    journal: Journal<R>,
}

impl<M: Drop, R: Drop> Machine<M, R> {
    // One that was never up.
    pub(crate) fn new(heap: Global) -> Machine<M, R>
        ensures down { result.up ≡ None }
        ensures journal { result.journal.records.items ≡ [] }
    {
        Machine {
            up: None,
            journal: Journal::new(heap),
        }
    }

    // It crashes: its journal is all that is left.
    pub(crate) fn crash(&mut self)
        ensures down { self.new.up ≡ None }
        ensures journal { self.new.journal ≡ self.old.journal }
    {
        self.up = None;
    }

    // What it is, where it is up.
    pub(crate) fn up(&self) -> Option<&M>
        ensures { option_map (λ x. x.now) result ≡ self.now.up }
    {
        self.up.as_ref()
    }

    // What it has written down.
    pub(crate) fn records(&self) -> &[R]
        ensures { result.now ≡ self.now.journal.records.items }
    {
        self.journal.records()
    }
}
