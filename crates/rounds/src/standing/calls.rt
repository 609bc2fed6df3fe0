// What is done with what places have.
ghost use Rattle.std.specs.Prelude.{◌≡◌, ℕ, ◌+◌, ◌<◌, ◌≤◌, ◌↔◌, true, false, List, [], ◌∷◌, ◌++◌, map, length, is_ok, if◌then◌else◌, IfOk, IsSome, IfSome, IsTrue, MatchOption, slice_index_or};
ghost use Rattle.std.specs.Iterator.{IsFinite, YieldsFirstBy, item_count};
ghost use Rattle.meaning.specs.Meaning.{all_rest};
ghost use Rattle.packed.specs.Strings.{items};
ghost use Rattle.rounds.specs.Sight.{Capped};
ghost use Rattle.rounds.specs.Standing.{IsStanding, all_held, held_of, left_in};
ghost use Rattle.rounds.specs.Yielding.{YieldsPlaces};

use crate::standing::{Held, Iter, Standing};
use meaning::{Place, Plan};
use packed::Strings;
use std::alloc::{AllocError, Global};

impl Standing {
    /// Of no place yet.
    pub fn new(heap: Global) -> Result<Standing, AllocError>
        ensures { IfOk result (λ s. (items s.states ≡ []) × (s.rests.items ≡ [])) }
    {
        let states = Strings::new(heap)?;
        Ok(Standing {
            states,
            rests: Vec::new(heap),
        })
    }

    /// What these places begin with.
    pub fn first<P: Plan, I: Iterator<Item = Place> + Drop>(
        heap: Global,
        plan: &P,
        places: I,
    ) -> Result<Standing, AllocError>
        requires can { I.can_next places }
        requires ends { IsFinite (I.remaining places) }
        ensures states { IfOk result (λ s. (vs : List ℕ) → YieldsPlaces I.next_gives places vs → items s.states ≡ map (P.Plan.program plan.now).first vs) }
        ensures rests { IfOk result (λ s. (vs : List ℕ) → YieldsPlaces I.next_gives places vs → s.rests.items ≡ map (λ v. false) vs) }
    {
        let mut room = [0u8; 256];
        let mut standing = Standing::new(heap)?;
        for place in places {
            let state = plan.first(place, &mut room[0..256]);
            standing.push(Held {
                state,
                rests: false,
            })?;
        }
        Ok(standing)
    }

    /// These states and rests, where there are as many of both and no state is too long.
    pub fn of(states: Strings, rests: Vec<bool>) -> Option<Standing>
        ensures is { IsSome result ↔ IsStanding (items states) rests.items }
        ensures value { IfSome result (λ s. (s.states ≡ states) × (s.rests ≡ rests)) }
    {
        if states.len() != rests.len() || !all_fit(&states) {
            return None;
        }
        Some(Standing { states, rests })
    }

    /// Of how many places.
    pub fn len(&self) -> usize
        ensures { result ≡ length self.now.rests.items }
    {
        self.rests.len()
    }

    /// Of no place.
    pub fn is_empty(&self) -> bool
        ensures { IsTrue result ↔ (self.now.rests.items ≡ []) }
    {
        self.rests.is_empty()
    }

    /// What place k of them has.
    pub fn get(&self, k: usize) -> Option<Held<'_>>
        ensures { MatchOption result (length self.now.rests.items ≤ k) (λ h. (k < length self.now.rests.items) × (h.state.now ≡ slice_index_or (items self.now.states) k []) × (h.rests ≡ slice_index_or self.now.rests.items k false)) }
    {
        let state = self.states.get(k)?;
        Some(Held {
            state,
            rests: self.rests[k],
        })
    }

    /// One place more. Want of memory changes nothing.
    pub fn push(&mut self, held: Held<'_>) -> Result<(), AllocError>
        ensures states { items self.new.states ≡ (if is_ok result then items self.old.states ++ held.entry.state.now ∷ [] else items self.old.states) }
        ensures rests { self.new.rests.items ≡ (if is_ok result then self.old.rests.items ++ held.entry.rests ∷ [] else self.old.rests.items) }
    {
        self.rests.reserve(1)?;
        self.states.push(held.state)?;
        self.rests.push_reserved(held.rests);
        Ok(())
    }

    /// Of no place any more; the memory stays.
    pub fn clear(&mut self)
        ensures { (items self.new.states ≡ []) × (self.new.rests.items ≡ []) }
    {
        self.states.clear();
        self.rests.clear();
    }

    /// Do all of them rest.
    pub fn all_rest(&self) -> bool
        ensures { result ≡ all_rest (length self.now.rests.items) (λ v. slice_index_or self.now.rests.items v false) }
    {
        self.rests.iter().all(|rests| *rests)
    }

    /// One place after the other.
    pub fn iter(&self) -> Iter<'_>
        ensures { left_in result ≡ all_held self.now }
    {
        Iter {
            states: self.states.iter(),
            rests: self.rests.iter(),
        }
    }
}

// No state is too long.
fn all_fit(states: &Strings) -> bool
    ensures { IsTrue result ↔ Capped (items states.now) }
{
    states.iter().all(|state| state.len() <= 256)
}

impl<'a> Iterator for Iter<'a> {
    type Item = Held<'a>;

    ghost next_gives = { YieldsFirstBy held_of left_in };

    ghost remaining = { item_count left_in };

    fn next(&mut self) -> Option<Held<'a>> {
        let state = self.states.next()?;
        let rests = *self.rests.next()?;
        Some(Held { state, rests })
    }
}
