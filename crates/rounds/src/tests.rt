// A round is worked, a run ends, and faults are told.
ghost use Rattle.std.proofs.Common.{rules};
ghost use Rattle.std.specs.Prelude.{[], true};

use crate::{Fault, Standing, Watch, Worked, run};
use meaning::{Done, Given, Inbox, Outbox, Place, Plan, Round};
use std::test::Fail;

// Each place begins with nothing, keeps what it has, and rests at once.
struct Still;

impl Plan for Still {
    ghost program = { λ _. record { first = λ _. []; does = λ x. record { state = x.state; sends = []; rests = true } } };

    ghost first_fits = { Prim.search rules };

    ghost fits = { Prim.search rules };

    fn first<'a>(&self, _place: Place, _fresh: &'a mut [u8]) -> &'a [u8] {
        &[]
    }

    fn act<'a>(
        &self,
        _given: Given<'_>,
        state: &'a [u8],
        _fresh: &'a mut [u8],
        _out: &mut Outbox,
    ) -> Done<'a> {
        Done { state, rests: true }
    }
}

// The last round that was told.
#[derive(Drop)]
struct Last(u32);

impl Watch for Last {
    fn reached(&mut self, round: Round) {
        self.0 = round.0;
    }
}

#[test]
fn three_places_work(rt: HostRuntime) -> Result<(), Fail> {
    let heap = rt.alloc();
    let standing = Standing::first(heap, &Still, (0..3).map(Place))?;
    let inbox = Inbox::new(heap, 3)?;
    let mut next = Worked::new(heap, 3)?;
    next.work(&Still, Round(0), (0..3).map(Place), &standing, &inbox)?;
    assert_eq!(rt; next.standing.len(), 3);
    assert!(rt; next.standing.all_rest());
    Ok(())
}

#[test]
fn a_run_ends(rt: HostRuntime) -> Result<(), Fail> {
    let mut last = Last(0);
    let all = run(rt.alloc(), &Still, 3, Round(9), &mut last)?;
    assert!(rt; all.is_over());
    assert_eq!(rt; last.0, 1);
    Ok(())
}

#[test]
fn faults_are_told(rt: HostRuntime) -> Result<(), Fail> {
    for (fault, text) in [
        (Fault::Places, "more than 1048576 places"),
        (Fault::Rounds, "more than 2147483647 rounds"),
        (Fault::Memory, "no memory"),
    ] {
        let told = format!(in rt.alloc(); "{fault}")?;
        assert_eq!(rt; told.as_str(), text);
    }
    Ok(())
}
