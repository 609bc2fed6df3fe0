// How a round is worked.
ghost use Rattle.std.specs.Prelude.{◌≡◌, ℕ, ◌<◌, ◌≤◌, true, List, [], length, IfOk, OnOk};
ghost use Rattle.meaning.specs.Given.{input_of};
ghost use Rattle.meaning.specs.Mail.{received};
ghost use Rattle.meaning.specs.Meaning.{acted, turn};
ghost use Rattle.packed.specs.Strings.{items};
ghost use Rattle.rounds.specs.Sight.{blank_view, added};
ghost use Rattle.rounds.specs.Turns.{turns_of, view_of_turns};
ghost use Rattle.rounds.specs.Work.{worked_of, places_of};
ghost use Rattle.rounds.specs.Yielding.{YieldsPlaces};

use crate::standing::{Held, Standing};
use crate::worked::Worked;
use meaning::{Given, Inbox, Outbox, Place, Plan, Round};
use std::alloc::{AllocError, Global};

impl Worked {
    /// Nothing yet, of so many places.
    pub fn new(heap: Global, places: u32) -> Result<Worked, AllocError>
        ensures { IfOk result (λ w. (worked_of w ≡ blank_view) × (places_of w ≡ places)) }
    {
        Ok(Worked {
            standing: Standing::new(heap)?,
            out: Outbox::new(heap, places)?,
            room: [0; 256],
        })
    }

    /// The memory stays.
    pub fn clear(&mut self)
        ensures { (worked_of self.new ≡ blank_view) × (places_of self.new ≡ places_of self.old) }
    {
        self.standing.clear();
        self.out.clear();
    }

    /// The round of these places, of which one after the other has what is standing. What was worked before is gone; its
    /// memory stays.
    pub fn work<P: Plan, I: Iterator<Item = Place> + Drop>(
        &mut self,
        plan: &P,
        round: Round,
        places: I,
        standing: &Standing,
        inbox: &Inbox,
    ) -> Result<(), AllocError>
        requires { I.can_next places }
        ensures worked { OnOk result ((vs : List ℕ) → YieldsPlaces I.next_gives places vs → worked_of self.new ≡ view_of_turns (turns_of (places_of self.old) (P.Plan.program plan.now) round.0 (received inbox.now) vs (items standing.now.states) standing.now.rests.items)) }
        ensures places { places_of self.new ≡ places_of self.old }
    {
        self.clear();
        for (place, held) in places.zip(standing.iter()) {
            let given = Given {
                round,
                place,
                inbox,
            };
            self.turn(plan, given, held)?;
        }
        Ok(())
    }

    /// The next place's turn. Who rests and got no letter keeps its state and does nothing.
    pub fn turn<P: Plan>(
        &mut self,
        plan: &P,
        given: Given<'_>,
        held: Held<'_>,
    ) -> Result<(), AllocError>
        ensures added { OnOk result (worked_of self.new ≡ added (worked_of self.old) (turn (places_of self.old) (P.Plan.program plan.now) (input_of given.entry held.entry.state.now) held.entry.rests)) }
        ensures places { places_of self.new ≡ places_of self.old }
    {
        if held.rests && given.inbox.count(given.place) == 0 {
            self.standing.push(held)
        } else {
            self.act(plan, given, held)
        }
    }

    // A place that does what its plan says.
    fn act<P: Plan>(&mut self, plan: &P, given: Given<'_>, held: Held<'_>) -> Result<(), AllocError>
        ensures added { OnOk result (worked_of self.new ≡ added (worked_of self.old) (acted (places_of self.old) (P.Plan.program plan.now) (input_of given.entry held.entry.state.now))) }
        ensures places { places_of self.new ≡ places_of self.old }
    {
        self.out.begin(given.place)?;
        // Each letter is read before the plan acts, so that what they wait for in memory they wait for together. The byte
        // has to go somewhere, and the lent memory's content means nothing to a plan.
        self.room[0] = given.inbox.touch(given.place);
        // The place's part of the lent memory is handed on for the plan to write its new state into.
        let done = plan.act(given, held.state, &mut self.room[0..256], &mut self.out);
        self.standing.push(Held {
            state: done.state,
            rests: done.rests,
        })
    }
}
