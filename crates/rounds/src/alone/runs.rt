// The whole run.
ghost use Rattle.std.specs.Prelude.{◌≡◌, ℕ, ◌<◌, ◌≤◌, MatchResult};
ghost use Rattle.meaning.specs.Caps.{place_cap};
ghost use Rattle.meaning.specs.Meaning.{ends_from};
ghost use Rattle.rounds.specs.Run.{Stands, RunRefused};

use crate::alone::{Alone, Watch};
use crate::fault::Fault;
use crate::standing::Standing;
use crate::worked::Worked;
use meaning::{Inbox, PLACES, Place, Plan, Round};
use std::alloc::Global;

/// THE RUN ALONE: so many places do as the plan says, until it is over or so many rounds are done. What is returned is
/// what the meaning says of the round that it came to.
pub fn run<P: Plan, W: Watch>(
    heap: Global,
    plan: &P,
    places: u32,
    budget: Round,
    watch: &mut W,
) -> Result<Alone, Fault>
    ensures { MatchResult result (λ a. (places ≤ place_cap) × Stands places (P.Plan.program plan.now) a × (a.round.0 ≡ ends_from places (P.Plan.program plan.now) 0 budget.0)) (RunRefused places budget.0) }
{
    let mut all = begin(heap, plan, places)?;
    for _ in 0..budget.0 {
        if all.is_over() {
            break;
        }
        all.step(plan)?;
        watch.reached(all.round());
    }
    Ok(all)
}

// All places at the start.
fn begin<P: Plan>(heap: Global, plan: &P, places: u32) -> Result<Alone, Fault>
    ensures { MatchResult result (λ a. (places ≤ place_cap) × Stands places (P.Plan.program plan.now) a × (a.round.0 ≡ 0)) (RunRefused places 0) }
{
    if places > PLACES {
        return Err(Fault::Places);
    }
    Ok(Alone {
        round: Round(0),
        places,
        standing: Standing::first(heap, plan, (0..places).map(Place))?,
        inbox: Inbox::new(heap, places)?,
        next: Worked::new(heap, places)?,
    })
}
