// What one machine does.
ghost use Rattle.std.specs.Prelude.{◌≡◌, ℕ, ◌+◌, ◌^◌, ◌<◌, ◌≤◌, false, [], length, is_ok, if◌then◌else◌, MatchOption, MatchResult, slice_index_or};
ghost use Rattle.meaning.specs.Caps.{round_cap};
ghost use Rattle.meaning.specs.Meaning.{is_over, round as one_round, seen};
ghost use Rattle.rounds.specs.Run.{view_of, StepRefused};
ghost use Rattle.rounds.specs.Sight.{world_of};

use crate::alone::Alone;
use crate::fault::Fault;
use crate::standing::Standing;
use meaning::{Place, Plan, ROUNDS, Round};

impl Alone {
    /// How many rounds are done.
    pub fn round(&self) -> Round
        ensures { result ≡ self.now.round }
    {
        self.round
    }

    pub fn places(&self) -> u32
        ensures { result ≡ self.now.places }
    {
        self.places
    }

    /// What all places have.
    pub fn standing(&self) -> &Standing
        ensures { result.now ≡ self.now.standing }
    {
        &self.standing
    }

    /// A place's state.
    pub fn state(&self, place: Place) -> Option<&[u8]>
        ensures { MatchOption result (self.now.places ≤ place.0) (λ s. (place.0 < self.now.places) × (s.now ≡ slice_index_or (view_of self.now).states place.0 [])) }
    {
        self.standing.get(place.0 as usize).map(|held| held.state)
    }

    /// Does a place rest.
    pub fn rests(&self, place: Place) -> bool
        ensures { result ≡ slice_index_or (view_of self.now).rests place.0 false }
    {
        self.standing
            .rests
            .get(place.0 as usize)
            .is_some_and(|rests| *rests)
    }

    /// All rest, and no letter is under way.
    pub fn is_over(&self) -> bool
        ensures { result ≡ is_over self.now.places (world_of (view_of self.now)) }
    {
        self.inbox.is_empty() && self.standing.all_rest()
    }

    /// One round. A refusal changes nothing.
    pub fn step<P: Plan>(&mut self, plan: &P) -> Result<(), Fault>
        ensures faults { MatchResult result (λ _. self.old.round.0 < round_cap) (StepRefused self.old.round.0) }
        ensures places { self.new.places ≡ self.old.places }
        ensures round { self.new.round.0 ≡ (if is_ok result then self.old.round.0 + 1 else self.old.round.0) }
        ensures leads { view_of self.new ≡ (if is_ok result then seen self.old.places (one_round self.old.places (P.Plan.program plan.now) self.old.round.0 (world_of (view_of self.old))) else view_of self.old) }
    {
        if self.round.0 >= ROUNDS {
            return Err(Fault::Rounds);
        }
        let places = (0..self.places).map(Place);
        self.next
            .work(plan, self.round, places, &self.standing, &self.inbox)?;
        self.inbox.receive(&mut self.next.out)?;
        std::mem::swap(&mut self.standing, &mut self.next.standing);
        self.round = Round(self.round.0 + 1);
        Ok(())
    }
}
