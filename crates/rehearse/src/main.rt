// Plays a script, read from standard input, and prints what came of it.
#![tactic(auto)]

use meaning::Plan;
use rehearsal::{PlayerOnce, rehearse, with_plan_once};
use script::Script;
use std::process::ExitCode;

#[derive(Clone, Copy)]
struct Alone<'a> {
    rt: &'a HostRuntime,
    script: &'a Script,
}

impl PlayerOnce for Alone<'_> {
    fn play<P: Plan + Drop>(self, plan: P, name: &str) -> anyhow::Result<()> {
        rehearsal::play(
            self.rt,
            self.rt.stdout(),
            &plan,
            name,
            self.script.places,
            self.script.rounds,
        )?;
        Ok(())
    }
}

fn main(rt: HostRuntime) -> anyhow::Result<ExitCode> {
    rehearse(
        &rt,
        // A closure: the name of a function of another crate, passed on, got no proof.
        |heap, text| script::read(heap, text),
        |script| with_plan_once(script.plan, script.places, Alone { rt: &rt, script }),
    )
}
