// How a foreman takes a message.
ghost use Rattle.std.specs.Prelude.{◌≡◌, ℕ, ◌+◌, ◌<◌, ◌≤◌, not, ◌&&◌, ◌||◌, [], ◌∷◌, IfOk, ◌==◌, nat_le, nat_lt};
ghost use Rattle.crew.specs.Foreman.{advanced as advanced_of, counted, is_report, least_of, notes, reasons, taking, took, with_kept, with_ready};
ghost use Rattle.crew.specs.Outcomes.{judged, Taken};
ghost use Rattle.crew.specs.Paced.{foreman_of, Gives, reasons_by};
ghost use Rattle.crew.specs.Stored.{message_of};
ghost use Rattle.crew.specs.Worker.{is_due as due};
ghost use Rattle.meaning.specs.Caps.{round_cap};

use crate::foreman::ready::Workers;
use crate::foreman::{Foreman, Paced};
use crate::journal::{Note, is_due};
use crate::message::{Kind, PutBy, Ready};
use crate::numbers::Line;
use crate::outcome::{Outcome, Refusal};
use meaning::{ROUNDS, Round};
use std::alloc::{AllocError, Global};

impl Foreman {
    /// A message that came on a line. Where it is not taken, nothing changes and nothing is said.
    pub fn take(self, heap: Global, line: Line, kind: Kind) -> Result<Paced, AllocError>
        ensures { IfOk result (Gives self.workers (took self.workers (foreman_of self) line.0 (message_of kind []))) }
    {
        match self.judge(line, kind) {
            Ok(()) => self.follow(heap, line, kind),
            Err(why) => Ok(self.unmoved(heap, Err(why))),
        }
    }

    // What a message comes to.
    fn judge(&self, line: Line, kind: Kind) -> Outcome
        ensures { result ≡ judged (reasons self.now.workers (foreman_of self.now) line.0 (message_of kind [])) }
    {
        let there = line.0 < self.workers;
        // A match over message and state: once it is over, nobody is awaited.
        match (kind, self.over) {
            (Kind::Ready(ready), false) => {
                verdict(there, self.awaits(line, ready), self.at.0 >= ROUNDS)
            }
            (Kind::Ready(_), true) => verdict(there, false, self.at.0 >= ROUNDS),
            (Kind::PutBy(put_by), _) => {
                let full = put_by.round < self.start && self.is_last();
                verdict(there, self.heeds(line, put_by), full)
            }
            (Kind::Hello(hello), _) => {
                verdict(there, hello.attempt == self.attempt, self.is_last())
            }
            (Kind::Batch(_) | Kind::Go(_) | Kind::Anew(_), _) => Err(Refusal::Malformed),
        }
    }

    // A worker is ready from whom that was still awaited.
    fn awaits(&self, line: Line, ready: Ready) -> bool
        ensures { result ≡ (ready.attempt.0 == self.now.attempt.0 && ready.round.0 == self.now.at.0 && not ((foreman_of self.now).ready line.0)) }
    {
        ready.attempt == self.attempt && ready.round == self.at && !self.ready.has(line)
    }

    // A checkpoint of which it did not know, or a report that the one that the attempt began from isn't there.
    fn heeds(&self, line: Line, put_by: PutBy) -> bool
        ensures { result ≡ (put_by.attempt.0 == self.now.attempt.0 && nat_le put_by.round.0 self.now.at.0 && due put_by.round.0 && (is_report (foreman_of self.now) put_by.round.0 || nat_lt ((foreman_of self.now).kept line.0) put_by.round.0)) }
    {
        put_by.attempt == self.attempt
            && put_by.round <= self.at
            && is_due(put_by.round)
            && (put_by.round < self.start || self.kept_by(line) < put_by.round)
    }

    // The last round of which a worker said in this attempt that it has a checkpoint.
    fn kept_by(&self, line: Line) -> Round
        ensures { result.0 ≡ (foreman_of self.now).kept line.0 }
    {
        self.kept
            .get(usize::from(line.0))
            .copied()
            .unwrap_or(self.start)
    }

    // Does what a message asks that is taken.
    fn follow(self, heap: Global, line: Line, kind: Kind) -> Result<Paced, AllocError>
        requires { judged (reasons self.workers (foreman_of self) line.0 (message_of kind [])) ≡ Taken }
        ensures { IfOk result (Gives self.workers (taking self.workers (foreman_of self) line.0 (message_of kind []))) }
    {
        match kind {
            Kind::Ready(ready) => self.count(heap, line, ready.over),
            Kind::PutBy(put_by) => {
                let round = put_by.round;
                if round < self.start {
                    let notes = vec![in heap; Note::Noted { round }]?;
                    self.begin(heap, round, notes)
                } else {
                    self.note(heap, line, round)
                }
            }
            Kind::Hello(_) => self.begin(heap, self.noted, Vec::new(heap)),
            Kind::Batch(_) | Kind::Go(_) | Kind::Anew(_) => Ok(self.unmoved(heap, Ok(()))),
        }
    }

    // One more is ready; once all are, on to the next round.
    fn count(mut self, heap: Global, line: Line, over: bool) -> Result<Paced, AllocError>
        requires there { line.0 < self.workers }
        requires more { self.at.0 < round_cap }
        ensures { IfOk result (Gives self.workers (counted self.workers (with_ready (foreman_of self) line.0 over))) }
    {
        self.ready = self.ready.with(line);
        self.ending &= over;
        self.quiet = 0;
        if self.ready.has_all(self.workers) {
            self.advanced().say_again(heap, Ok(()))
        } else {
            Ok(self.unmoved(heap, Ok(())))
        }
    }

    // On to the next round, and over if all said so.
    fn advanced(mut self) -> Foreman
        requires { self.at.0 < round_cap }
        ensures workers { result.workers ≡ self.workers }
        ensures is { foreman_of result ≡ advanced_of (foreman_of self) }
    {
        self.at = Round(self.at.0 + 1);
        self.ready = Workers::NONE;
        self.over = self.ending;
        self.ending = true;
        self
    }

    // Notes the last round of which all have said that they have a checkpoint, once it is a later one.
    fn note(mut self, heap: Global, line: Line, round: Round) -> Result<Paced, AllocError>
        requires { line.0 < self.workers }
        ensures { IfOk result (Gives self.workers (notes self.workers (foreman_of self) line.0 round.0)) }
    {
        self.kept[usize::from(line.0)] = round;
        self.quiet = 0;
        let least = self.least_kept(round);
        if least <= self.noted {
            return Ok(self.unmoved(heap, Ok(())));
        }
        self.noted = least;
        self.noting(heap, Note::Noted { round: least })
    }

    // The least of what the workers said, and of this round.
    fn least_kept(&self, round: Round) -> Round
        ensures { result.0 ≡ least_of round.0 self.now.workers (foreman_of self.now).kept }
    {
        let kept = &self.kept[..usize::from(self.workers)];
        kept.iter().fold(round, |least, kept| least.min(*kept))
    }
}

// The lowest of the reasons that a foreman has: no such line, not what it waits for, used up.
fn verdict(there: bool, fits: bool, full: bool) -> Outcome
    ensures { result ≡ judged (reasons_by there fits full) }
{
    if !there {
        return Err(Refusal::Malformed);
    }
    if !fits {
        return Err(Refusal::Stale);
    }
    if full {
        return Err(Refusal::UsedUp);
    }
    Ok(())
}
