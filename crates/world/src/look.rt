// What is seen of a place.
use meaning::{Place, Round};

/// After so many rounds, the place's state and whether it rests.
#[derive(Clone, Copy, Debug, PartialEq, Eq)]
pub struct Look<'a> {
    pub round: Round,
    pub place: Place,
    pub rests: bool,
    pub state: &'a [u8],
}
