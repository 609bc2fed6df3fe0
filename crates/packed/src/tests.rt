// Strings that are put in come out, of a clone too.
use crate::Strings;
use std::test::Fail;

#[test]
fn a_clone_gives_the_same_strings(rt: HostRuntime) -> Result<(), Fail> {
    let mut strings = Strings::new(rt.alloc())?;
    for text in ["one", "", "three"] {
        strings.push(text.as_bytes())?;
    }
    let copy = strings.clone()?;
    assert_eq!(rt; copy.len(), 3);
    assert_eq!(rt; copy.bytes(), 8);
    for (got, wanted) in copy.iter().zip(["one", "", "three"]) {
        assert_eq!(rt; got, wanted.as_bytes());
    }
    Ok(())
}
