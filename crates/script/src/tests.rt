// That scripts are read and complaints kept where there is memory.
use crate::{Choice, Expected, Script, Unread, lack, note, read};

#[test]
fn reads_scripts(rt: HostRuntime) {
    let good = read(rt.alloc(), b"alone 2 # rounds\nplan sum\n\nplaces 3");
    let want = Script {
        places: 3,
        plan: Choice::Sum,
        rounds: 2,
    };
    assert_eq!(rt; good.ok(), Some(want));
    let bad = read(rt.alloc(), b"plan sum\nplan echo\nplaces x\n");
    let complaints = match bad {
        Err(Unread::Bad(complaints)) => complaints.len(),
        _other => 0,
    };
    assert_eq!(rt; complaints, 3);
}

#[test]
fn keeps_complaints(rt: HostRuntime) {
    let mut complaints = Vec::new(rt.alloc());
    assert!(rt; note(&mut complaints, None, Err(Expected::Once)).is_ok());
    assert!(rt; lack(&mut complaints, None::<u32>, Expected::PlanLine).is_ok());
    assert_eq!(rt; complaints.len(), 2);
}
