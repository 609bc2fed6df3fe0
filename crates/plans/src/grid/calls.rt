// How a grid is made, and what its places do.
ghost use Rattle.std.specs.Prelude.{◌≡◌, ◌%◌, ◌^◌, ◌&&◌, is_some, IfSome, nat_le, nat_lt};
ghost use Rattle.meaning.specs.Given.{input_of};
ghost use Rattle.plans.specs.Grid.{around, mixed, spreading};
ghost use Rattle.std.proofs.Common.{rules, arith};

use crate::bytes::{number, total, written};
use crate::grid::Grid;
use crate::sending::send_to_each;
use meaning::{Done, Given, Outbox, PLACES, Place, Plan};

// The linear congruence's factor and step.
const FACTOR: u64 = 6364136223846793005;

const STEP: u64 = 1442695040888963407;

impl Grid {
    /// None if there are no places in a row, or too many.
    pub fn new(width: u32, last: u32) -> Option<Grid>
        ensures test { is_some result ≡ (nat_lt 0 width && nat_le width 1048576) }
        ensures some { IfSome result (λ g. (g.width ≡ width) × (g.last ≡ last)) }
    {
        if width == 0 || width > PLACES {
            return None;
        }
        Some(Grid { width, last })
    }

    // The places above, to the left, to the right and below, where there is one.
    fn neighbours(&self, v: u32) -> [Option<u32>; 4]
        ensures { result ≡ around self.now.width v }
    {
        let across = v % self.width;
        let above = v.checked_sub(self.width);
        let left = if across == 0 { None } else { Some(v - 1) };
        let right = if across == self.width - 1 {
            None
        } else {
            v.checked_add(1)
        };
        let below = v.checked_add(self.width);
        [above, left, right, below]
    }
}

impl Plan for Grid {
    ghost program = { spreading };

    ghost first_fits = { first_of (Prim.search rules, Prim.grind (arith, Self.row.coded.inj)) };

    ghost fits = { first_of (Prim.search rules, Prim.grind (arith, Self.row.coded.inj)) };

    fn first<'a>(&self, place: Place, fresh: &'a mut [u8]) -> &'a [u8] {
        written(fresh, &u64::from(place.0).to_be_bytes())
    }

    fn act<'a>(
        &self,
        given: Given<'_>,
        state: &'a [u8],
        fresh: &'a mut [u8],
        out: &mut Outbox,
    ) -> Done<'a> {
        let stirred = stir(&given, state).to_be_bytes();
        let rests = given.round.0 >= self.last;
        if !rests {
            send_to_each(out, &self.neighbours(given.place.0), &stirred);
        }
        Done {
            state: written(fresh, &stirred),
            rests,
        }
    }
}

// The step of a linear congruence, with what came added to it.
fn stir(given: &Given<'_>, state: &[u8]) -> u64
    ensures { result ≡ mixed (input_of given.now state.now) % 2 ^ 64 }
{
    number(state)
        .wrapping_mul(FACTOR)
        .wrapping_add(total(given))
        .wrapping_add(STEP)
}
