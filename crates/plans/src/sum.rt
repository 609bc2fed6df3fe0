// A plan that adds up: place 0 comes to the sum of all places' numbers.
ghost use Rattle.plans.specs.Sum.{adding};
ghost use Rattle.std.proofs.Common.{rules};

use crate::bytes::{low_half, number, total, written};
use crate::sending::send;
use meaning::{Done, Given, Outbox, Place, Plan, Round};

/// States and letters are numbers of 4 bytes.
#[derive(Clone, Copy)]
pub struct Sum;

impl Plan for Sum {
    ghost program = { adding };

    ghost first_fits = { Prim.search rules };

    ghost fits = { Prim.search rules };

    fn first<'a>(&self, _place: Place, _fresh: &'a mut [u8]) -> &'a [u8] {
        &[0; 4]
    }

    fn act<'a>(
        &self,
        given: Given<'_>,
        state: &'a [u8],
        fresh: &'a mut [u8],
        out: &mut Outbox,
    ) -> Done<'a> {
        if given.round == Round(0) {
            send(out, 0, &given.place.0.to_be_bytes());
        }
        let sum = number(state).wrapping_add(total(&given));
        Done {
            state: written(fresh, &low_half(sum).to_be_bytes()),
            rests: true,
        }
    }
}
