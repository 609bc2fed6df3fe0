// Letters, where there is room for them.
ghost use Rattle.std.specs.Prelude.{◌≡◌, ◌<◌, ◌≤◌, length};
ghost use Rattle.meaning.specs.Mail.{post_of, mailed, one_to};
ghost use Rattle.plans.specs.Sending.{to_each};

use meaning::{Outbox, Place};

// A letter for which there is room.
pub(crate) fn send(out: &mut Outbox, to: u32, body: &[u8])
    requires room { 0 < (post_of out.old).left }
    requires short { length body.now ≤ 64 }
    ensures { post_of out.new ≡ mailed (post_of out.old) (one_to to body.now) }
{
    out.send(Place(to), body).unwrap();
}

// The same letter to each of these that there is.
pub(crate) fn send_to_each(out: &mut Outbox, places: &[Option<u32>], body: &[u8])
    requires room { length places.now ≤ (post_of out.old).left }
    requires short { length body.now ≤ 64 }
    ensures { post_of out.new ≡ mailed (post_of out.old) (to_each body.now places.now) }
{
    for to in places.iter().filter_map(|place| *place) {
        send(out, to, body);
    }
}
