// Letters are taken over where memory is there, and not where one of them goes to a missing place.
use crate::{Head, Inbox, Letters, Place, TakeOverError};
use std::test::Fail;

#[test]
fn letters_are_cloned_and_taken_over(rt: HostRuntime) -> Result<(), Fail> {
    let mut letters = Letters::new(rt.alloc())?;
    for (to, body) in [(2, "first"), (0, "second"), (2, "third")] {
        let head = Head {
            from: Place(1),
            to: Place(to),
        };
        letters.push(head, body.as_bytes())?;
    }
    let mut inbox = Inbox::new(rt.alloc(), 3)?;
    assert_eq!(rt;
        inbox.take_over(2, letters.clone()?),
        Err(TakeOverError::MissingPlace)
    );
    assert!(rt; inbox.is_empty());
    assert_eq!(rt; inbox.take_over(3, letters), Ok(()));
    assert_eq!(rt; inbox.count(Place(2)), 2);
    for (got, wanted) in inbox.letters_to(Place(2)).zip(["first", "third"]) {
        assert_eq!(rt; got.bytes, wanted.as_bytes());
    }
    Ok(())
}
