// Plays a script, read from standard input, and prints what came of it.
#![tactic(auto)]

mod crews;
mod fared;

use crew_script::{Run, Script};
use meaning::Plan;
use rehearsal::{PlayerOnce, rehearse, with_plan_once};
use std::process::ExitCode;

#[derive(Clone, Copy)]
struct Stage<'a> {
    rt: &'a HostRuntime,
    script: &'a Script,
}

impl PlayerOnce for Stage<'_> {
    fn play<P: Plan + Drop>(self, plan: P, name: &str) -> anyhow::Result<()> {
        let places = self.script.places;
        match &self.script.run {
            Run::Alone { rounds } => {
                rehearsal::play(self.rt, self.rt.stdout(), &plan, name, places, *rounds)?;
                Ok(())
            }
            Run::Crew(crew) => crews::play(self.rt, plan, name, places, crew),
        }
    }
}

// The status is 0 only where the script was played.
fn main(rt: HostRuntime) -> anyhow::Result<ExitCode> {
    rehearse(
        &rt,
        // A closure: the name of a function of another crate, passed on, got no proof.
        |heap, text| crew_script::read(heap, text),
        |script| with_plan_once(script.plan, script.places, Stage { rt: &rt, script }),
    )
}
