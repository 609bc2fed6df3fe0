// That plans are played, and which are refused.
use crate::{Blocks, Player, PlayerOnce, play, show, with_plan, with_plan_once};
use anyhow::anyhow;
use meaning::{Plan, Round};
use plans::Echo;
use rounds::{Watch, run};
use script::Choice;
use std::io::Write;

#[derive(Drop)]
struct Nobody;

impl PlayerOnce for Nobody {
    fn play<P: Plan + Drop>(self, _plan: P, _name: &str) -> anyhow::Result<()> {
        Ok(())
    }
}

#[test]
fn plays_alone(rt: HostRuntime) {
    assert!(rt; play(&rt, rt.stdout(), &Echo, "echo", 2, 3).is_ok());
}

#[test]
fn grids_have_a_width(rt: HostRuntime) {
    assert!(rt; with_plan_once(Choice::Grid { width: 1, last: 0 }, 1, Nobody).is_ok());
    assert!(rt; with_plan_once(Choice::Grid { width: 0, last: 0 }, 1, Nobody).is_err());
}

// Who is lent, and plays what has this name.
#[derive(Drop)]
struct Only<'a>(&'a str);

impl Player for Only<'_> {
    fn play<P: Plan + Drop>(&self, _plan: P, name: &str) -> anyhow::Result<()> {
        if name == self.0 {
            Ok(())
        } else {
            Err(anyhow!("it is {name}"))
        }
    }
}

#[test]
fn who_is_lent_plays_again(rt: HostRuntime) {
    let grids = Only("grid");
    let narrow = Choice::Grid { width: 1, last: 0 };
    let none = Choice::Grid { width: 0, last: 0 };
    let wide = Choice::Grid {
        width: 1048577,
        last: 0,
    };
    assert!(rt; with_plan(narrow, 1, &grids).is_ok());
    assert!(rt; with_plan(none, 1, &grids).is_err());
    assert!(rt; with_plan(wide, 1, &grids).is_err());
    assert!(rt; with_plan(Choice::Echo, 1, &grids).is_err());
    assert!(rt; with_plan(narrow, 1, &grids).is_ok());
    assert!(rt; with_plan(Choice::Echo, 1, &Only("echo")).is_ok());
    assert!(rt; with_plan(Choice::Sum, 1, &Only("sum")).is_ok());
    assert!(rt; with_plan(Choice::Scramble { last: 2 }, 1, &Only("scramble")).is_ok());
}

#[derive(Drop)]
struct Unwatched;

impl Watch for Unwatched {
    fn reached(&mut self, _round: Round) {}
}

fn two_places_shown<W: Write + Drop>(rt: &HostRuntime, out: W) -> anyhow::Result<W> {
    let all = run(rt.alloc(), &Echo, 2, Round(3), &mut Unwatched)?;
    show(rt.alloc(), &all, out)
}

// As docs/PROTOCOL.md has it: who echoes rests after the first round.
#[test]
fn shows_each_place(rt: HostRuntime) {
    let shown = two_places_shown(&rt, Vec::new(rt.alloc()));
    assert!(rt; shown.is_ok_and(|text| text.as_slice() == b"round 1\n0 1 -\n1 1 -\n".as_slice()));
}

#[test]
fn tells_that_nothing_more_fits(rt: HostRuntime) {
    let mut room = [0u8; 9];
    assert!(rt; two_places_shown(&rt, &mut room[..]).is_err());
}

fn written(rt: &HostRuntime) -> anyhow::Result<Vec<u8>> {
    let mut out = Blocks::new(rt.alloc(), Vec::new(rt.alloc()))?;
    out.lines.extend_from_slice(b"abc")?;
    out.write_if_block()?;
    out.lines.extend_from_slice(b"de")?;
    out.write()?;
    out.lines.extend_from_slice(b"f")?;
    Ok(out.end()?)
}

#[test]
fn what_waits_is_written(rt: HostRuntime) {
    assert!(rt; written(&rt).is_ok_and(|text| text.as_slice() == b"abcdef".as_slice()));
}
