// Copies are made where there is memory for them, and faults print as they are told.
use crate::{Line, OpenFault, Partition, PartitionFault, Share, Stretch};
use meaning::{Letters, Place};
use packed::Strings;
use std::test::Fail;

#[test]
fn copies(rt: HostRuntime) -> Result<(), Fail> {
    let heap = rt.alloc();
    let stretches = [
        Stretch {
            first: Place(0),
            worker: Line(1),
        },
        Stretch {
            first: Place(2),
            worker: Line(0),
        },
    ];
    let table = Partition::new(heap, 3, 2, &stretches)?.clone()?;
    assert_eq!(rt; table.owner(Place(1)), Line(1));
    assert_eq!(rt; table.owner(Place(2)), Line(0));
    let mut states = Strings::new(heap)?;
    states.push(b"seven")?;
    let share = Share {
        states,
        rests: vec![in heap; true]?,
        letters: Letters::new(heap)?,
    };
    let copy = share.clone()?;
    assert_eq!(rt; copy.states.get(0), Some(b"seven".as_slice()));
    Ok(())
}

#[test]
fn faults(rt: HostRuntime) -> Result<(), Fail> {
    let heap = rt.alloc();
    let bad = PartitionFault::Stretches { index: 1 };
    assert_eq!(rt;
        format!(in heap; "{}", PartitionFault::Places)?.as_str(),
        "more than 1048576 places"
    );
    assert_eq!(rt;
        format!(in heap; "{}", PartitionFault::Workers)?.as_str(),
        "a crew has 1 to 64 workers"
    );
    assert_eq!(rt;
        format!(in heap; "{bad}")?.as_str(),
        "the stretches are bad"
    );
    assert_eq!(rt;
        format!(in heap; "{}", OpenFault::Memory)?.as_str(),
        "no memory"
    );
    Ok(())
}
