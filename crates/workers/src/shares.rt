// What a worker begins an attempt with.
ghost use Rattle.std.specs.Prelude.{◌≡◌, ℕ, ◌<◌, ◌≤◌, false, [], map, IfOk};
ghost use Rattle.crew.specs.Stored.{view_of};
ghost use Rattle.packed.specs.Strings.{items};
ghost use Rattle.rounds.specs.Yielding.{number};

use crew::Share;
use meaning::{Letters, Place, Plan};
use rounds::Standing;
use std::alloc::{AllocError, Global};

// What these places begin with.
pub(crate) fn first_standing<P: Plan>(
    heap: Global,
    plan: &P,
    mine: &[Place],
) -> Result<Standing, AllocError>
    ensures states { IfOk result (λ s. items s.states ≡ map (P.Plan.program plan.now).first (map number mine.now)) }
    ensures rests { IfOk result (λ s. s.rests.items ≡ map (λ v. false) (map number mine.now)) }
{
    Standing::first(heap, plan, mine.iter().copied())
}

// The same as a share, with no letters yet.
pub(crate) fn first_share<P: Plan>(
    heap: Global,
    plan: &P,
    mine: &[Place],
) -> Result<Share, AllocError>
    ensures { IfOk result (λ s. view_of s ≡ record { states = map (P.Plan.program plan.now).first (map number mine.now); rests = map (λ v. false) (map number mine.now); post = [] }) }
{
    let Standing { states, rests } = first_standing(heap, plan, mine)?;
    Ok(Share {
        states,
        rests,
        letters: Letters::new(heap)?,
    })
}
