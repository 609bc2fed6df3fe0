// The plans that scripts name.
ghost use Rattle.std.specs.Prelude.{◌≡◌, ℕ, Bool, true, false, List, is_ok, OnOk};
ghost use Rattle.meaning.specs.Meaning.{Program};
ghost use Rattle.rehearsal.specs.Chosen.{IsChosen, is_plan, name_of};

use anyhow::Context;
use meaning::Plan;
use plans::{Echo, Grid, Scramble, Sum};
use script::Choice;

/// What is to be done with a plan.
pub trait Player {
    // What it says of a program that it was given by a name, and of whether it went well.
    ghost Answered: { Self → Program → List ℕ → Bool → Type 0 } = { λ _ _ _ _. Unit {0} };

    fn play<P: Plan + Drop>(&self, plan: P, name: &str) -> anyhow::Result<()>
        ensures { Answered self.now (P.Plan.program plan) name.now (is_ok result) };
}

/// What is to be done with a plan, once.
pub trait PlayerOnce: Sized {
    // What it says of a program that it has played.
    ghost Played: { Self → Program → Type 0 } = { λ _ _. Unit {0} };

    // And of one that it was given by a name, and of whether it went well.
    ghost Answered: { Self → Program → List ℕ → Bool → Type 0 } = { λ _ _ _ _. Unit {0} };

    fn play<P: Plan + Drop>(self, plan: P, name: &str) -> anyhow::Result<()>
        ensures played { OnOk result (Played self (P.Plan.program plan)) }
        ensures answered { Answered self (P.Plan.program plan) name.now (is_ok result) };
}

// A player that is lent, for one play.
#[derive(Drop)]
struct Lent<'a, A: Player>(&'a A);

impl<A: Player> PlayerOnce for Lent<'_, A> {
    ghost Answered = { λ s q name ok. A.Answered s.0.now q name ok };

    fn play<P: Plan + Drop>(self, plan: P, name: &str) -> anyhow::Result<()> {
        self.0.play(plan, name)
    }
}

/// Has a player that is lent play the plan that was chosen for so many places.
pub fn with_plan<A: Player>(choice: Choice, places: u32, player: &A) -> anyhow::Result<()>
    ensures asked { is_plan choice ≡ true → (q : Program) × IsChosen places choice q × A.Answered player.now q (name_of choice) (is_ok result) }
    ensures refused { is_plan choice ≡ false → is_ok result ≡ false }
{
    with_plan_once(choice, places, Lent(player))
}

/// Has the plan played that was chosen for so many places.
pub fn with_plan_once<A: PlayerOnce + Drop>(
    choice: Choice,
    places: u32,
    player: A,
) -> anyhow::Result<()>
    ensures played { OnOk result ((q : Program) × IsChosen places choice q × A.Played player q) }
    ensures asked { is_plan choice ≡ true → (q : Program) × IsChosen places choice q × A.Answered player q (name_of choice) (is_ok result) }
    ensures refused { is_plan choice ≡ false → is_ok result ≡ false }
{
    match choice {
        Choice::Sum => player.play(Sum, "sum"),
        Choice::Echo => player.play(Echo, "echo"),
        Choice::Scramble { last } => player.play(Scramble { places, last }, "scramble"),
        Choice::Grid { width, last } => {
            let plan = Grid::new(width, last).context(
                "rehearse: a grid is 1 to 1048576 places wide",
            )?;
            player.play(plan, "grid")
        }
    }
}
