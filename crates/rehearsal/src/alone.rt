// One machine that has all places.
ghost use Rattle.std.specs.Prelude.{◌≡◌, ℕ, IfOk};
ghost use Rattle.std.specs.Io.KnownBytes.{Appends};
ghost use Rattle.meaning.specs.Meaning.{Program, rounds, is_over};
ghost use Rattle.rounds.specs.Run.{view_of, Stands};
ghost use Rattle.rounds.specs.Sight.{world_of};
ghost use Rattle.rehearsal.specs.Printed.{end_text, played, printed};

use crate::blocks::Blocks;
use crate::progress::Progress;
use anyhow::anyhow;
use meaning::{Place, Plan, Round};
use rounds::{Alone, run};
use std::alloc::Global;
use std::io::Write;

/// WHAT IS PRINTED: a line that says how many rounds were done, and a line for each place. Of a machine that stands where the
/// meaning says, it is what the meaning says.
pub fn show<W: Write + Drop>(heap: Global, all: &Alone, out: W) -> anyhow::Result<W>
    ensures meant { (n : ℕ) → (q : Program) → Stands n q all.now → IfOk result (λ w. Appends (W.contents out) (W.contents w) (printed n all.now.round.0 (rounds n q all.now.round.0))) }
    ensures had { IfOk result (λ w. Appends (W.contents out) (W.contents w) (printed all.now.places all.now.round.0 (world_of (view_of all.now)))) }
{
    let mut out = Blocks::new(heap, out)?;
    script::head(&mut out.lines, all.round().0)?;
    for v in 0..all.places() {
        let place = Place(v);
        if let Some(state) = all.state(place) {
            script::line(&mut out.lines, v, all.rests(place), state)?;
            out.write_if_block()?;
        }
    }
    Ok(out.end()?)
}

// Whether it is over, in words.
fn end(all: &Alone) -> &'static str
    ensures { result.now ≡ end_text (is_over all.now.places (world_of (view_of all.now))) }
{
    if all.is_over() { "over" } else { "not over" }
}

/// Does so many rounds at most, and prints what came of it: what the meaning says of the round in which it ends.
pub fn play<P: Plan, W: Write + Drop>(
    rt: &HostRuntime,
    out: W,
    plan: &P,
    name: &str,
    places: u32,
    rounds: u32,
) -> anyhow::Result<W>
    ensures { IfOk result (λ w. Appends (W.contents out) (W.contents w) (played places (P.Plan.program plan.now) rounds)) }
{
    let mut progress = Progress::new(rt)?;
    let ended = run(rt.alloc(), plan, places, Round(rounds), &mut progress);
    let all = ended.map_err(|fault| anyhow!("rehearse: {fault}"))?;
    progress.end();
    let out = show(rt.alloc(), &all, out)?;
    let rounds = all.round().0;
    let end = end(&all);
    eprintln!(rt; "alone: {places} places, plan {name}, {rounds} rounds, {end}")?;
    Ok(out)
}
