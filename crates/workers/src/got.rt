// The batches of a round, by who sent them.
ghost use Rattle.std.specs.Prelude.{◌≡◌, length};

use meaning::Letters;

mod calls;

// A slot for each worker that there may be, so that the memory is the same whoever they are.
#[derive(Drop)]
pub(crate) struct Got {
    slots: Box<[Option<Letters>; 64]>,
    ghost all: { length slots.value ≡ 64 },
}
