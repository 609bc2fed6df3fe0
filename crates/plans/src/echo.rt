// A plan that keeps what it has.
ghost use Rattle.plans.specs.Echo.{keeping};
ghost use Rattle.std.proofs.Common.{rules};

use meaning::{Done, Given, Outbox, Place, Plan};

/// It keeps its state, sends nothing and rests.
#[derive(Clone, Copy)]
pub struct Echo;

impl Plan for Echo {
    ghost program = { keeping };

    ghost first_fits = { Prim.search rules };

    ghost fits = { Prim.search rules };

    fn first<'a>(&self, _place: Place, _fresh: &'a mut [u8]) -> &'a [u8] {
        &[]
    }

    fn act<'a>(
        &self,
        _given: Given<'_>,
        state: &'a [u8],
        _fresh: &'a mut [u8],
        _out: &mut Outbox,
    ) -> Done<'a> {
        Done { state, rests: true }
    }
}
