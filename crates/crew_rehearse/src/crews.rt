// Plays a crew's script, and prints what came of it.
use crate::fared::{Fared, is_over};
use anyhow::anyhow;
use crew::{Line, Note, Partition, Stretch};
use crew_script::{Crew, Span, Tally, counts};
use meaning::{Place, Plan};
use rehearsal::Blocks;
use std::alloc::Global;
use std::io::Write;
use world::World;

// The table of who has which, by the script's stretches or evenly.
fn table(heap: Global, places: u32, workers: u8, spans: &[Span]) -> anyhow::Result<Partition> {
    let stretches: Vec<Stretch> = spans
        .iter()
        .map(|span| Stretch {
            first: Place(span.first),
            worker: Line(span.worker),
        })
        .collect(heap)?;
    let made = if stretches.is_empty() {
        Partition::evenly(heap, places, workers)
    } else {
        Partition::new(heap, places, workers, stretches.as_slice())
    };
    made.map_err(|fault| anyhow!("rehearse: {fault}"))
}

// The states of a worker's places, written before the next one's.
fn show_worker<P: Plan + Drop, W: Write + Drop>(
    out: &mut Blocks<W>,
    world: &World<P>,
    line: Line,
) -> anyhow::Result<()> {
    let Some(worker) = world.state().worker(line) else {
        return Ok(());
    };
    crew_script::head(&mut out.lines, worker.round().0)?;
    // By number: the world's theorem is about the look at one place.
    for look in (0..worker.places()).filter_map(|k| world.look(line, k)) {
        crew_script::line(&mut out.lines, look.place.0, look.rests, look.state)?;
        out.write_if_block()?;
    }
    out.write()?;
    Ok(())
}

fn show<P: Plan + Drop>(rt: &HostRuntime, world: &World<P>, tally: Tally) -> anyhow::Result<()> {
    let mut out = Blocks::new(rt.alloc(), rt.stdout())?;
    for line in (0..world.state().workers()).map(Line) {
        show_worker(&mut out, world, line)?;
    }
    counts(&mut out.lines, tally)?;
    out.end()?;
    Ok(())
}

pub fn play<P: Plan + Drop>(
    rt: &HostRuntime,
    plan: P,
    name: &str,
    places: u32,
    crew: &Crew,
) -> anyhow::Result<()> {
    let heap = rt.alloc();
    let workers = crew.workers;
    let table = table(heap, places, workers, crew.stretches.as_slice())?;
    let begun = Fared {
        heap,
        world: World::new(heap, plan, table)?,
        tally: Tally::default(),
    };
    let fared = begun.play(crew.events.as_slice())?;
    let state = fared.world.state();
    let (attempts, noted) = Note::last(state.notes());
    let tally = Tally {
        attempts: attempts.0,
        noted: noted.0,
        ..fared.tally
    };
    let end = if is_over(state) { "over" } else { "not over" };
    let shown = fared.all_up()?;
    show(rt, &shown.world, tally)?;
    eprintln!(rt; "crew: {workers} workers, {places} places, plan {name}, {end}")?;
    Ok(())
}
