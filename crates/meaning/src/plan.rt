// What a plan is, to the code and to the proofs.
ghost use Rattle.std.specs.Prelude.{◌≡◌, ℕ, ◌≤◌, length, MatchOption};
ghost use Rattle.meaning.specs.Caps.{state_cap, send_cap};
ghost use Rattle.meaning.specs.Given.{input_of};
ghost use Rattle.meaning.specs.Mail.{post_of, mailed};
ghost use Rattle.meaning.specs.Meaning.{Program, Input, Fits};
ghost use Rattle.meaning.specs.Packets.{blank, received_of};

use crate::inbox::Inbox;
use crate::letters::Received;
use crate::numbers::{Place, Round};
use crate::outbox::Outbox;

mod calls;

/// What a plan is given in a round, beside the old state.
#[derive(Clone, Copy)]
pub struct Given<'a> {
    pub round: Round,
    pub place: Place,
    pub inbox: &'a Inbox,
}

/// What a place comes to, beside the letters that it sent.
#[derive(Clone, Copy)]
pub struct Done<'a> {
    pub state: &'a [u8],
    pub rests: bool,
}

/// A plan: what a place begins with, and what it does in a round. It is lent 256 bytes for a new state and an outbox
/// with room for 64 letters of 64 bytes, so that it cannot pass the limits.
pub trait Plan {
    // what it means
    ghost program: { Self → Program };

    fn first<'a>(&self, place: Place, fresh: &'a mut [u8]) -> &'a [u8]
        requires { length fresh.old ≡ state_cap }
        ensures { result.now ≡ (program self.now).first place.0 };

    // The new state lies in one of the two lent buffers: the old state's, or the fresh one.
    fn act<'a>(
        &self,
        given: Given<'_>,
        state: &'a [u8],
        fresh: &'a mut [u8],
        out: &mut Outbox,
    ) -> Done<'a>
        requires fresh { length fresh.old ≡ state_cap }
        requires room { (post_of out.old).left ≡ send_cap }
        requires fits { length state.now ≤ state_cap }
        ensures state { result.state.now ≡ ((program self.now).does (input_of given.entry state.now)).state }
        ensures rests { result.rests ≡ ((program self.now).does (input_of given.entry state.now)).rests }
        ensures sent { post_of out.new ≡ mailed (post_of out.old) ((program self.now).does (input_of given.entry state.now)).sends };

    ghost first_fits: { (p : Self) (v : ℕ) → length ((program p).first v) ≤ state_cap };

    ghost fits: { (p : Self) (x : Input) → length x.state ≤ state_cap → Fits ((program p).does x) };
}
