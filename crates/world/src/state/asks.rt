// What is asked of a crew.
ghost use Rattle.std.specs.Prelude.{◌≡◌};
ghost use Rattle.crew.specs.declared.numbers.Line.{Line};
ghost use Rattle.std.specs.Option.{option_map};
ghost use Rattle.world.specs.Seated.{worker_at};
ghost use Rattle.world.specs.Staged.{crew_of, due_to};

use crate::state::State;
use crew::{Foreman, Line, Note};
use workers::Worker;

impl State {
    pub fn workers(&self) -> u8
        ensures { result ≡ self.now.table.workers }
    {
        self.table.workers()
    }

    /// Whom the message is for that is due next.
    pub fn due(&self) -> Option<Line>
        ensures { option_map (λ (l : Line). l.0) result ≡ due_to (crew_of self.now).underway }
    {
        self.underway.front().map(|parcel| parcel.to)
    }

    /// A worker, where it is up.
    pub fn worker(&self, line: Line) -> Option<&Worker>
        ensures { option_map (λ x. x.now) result ≡ worker_at self.now.seats.items line.0 }
    {
        self.seats.get(line.0 as usize)?.up()
    }

    /// The foreman, where it is up.
    pub fn foreman(&self) -> Option<Foreman>
        ensures { result ≡ self.now.desk.up }
    {
        self.desk.up().copied()
    }

    /// What the foreman has written down.
    pub fn notes(&self) -> &[Note]
        ensures { result.now ≡ self.now.desk.journal.records.items }
    {
        self.desk.records()
    }
}
