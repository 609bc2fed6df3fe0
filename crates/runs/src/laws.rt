// What holds of every run, whatever is lost, doubled or late and whoever crashes. Each is the contract of a function:
// without its proof the crate is refused.
ghost use Rattle.runs.specs.Promise.{AsIfOne, ComesBack, GoesOn, HundredTicks, InStep, NeverUnready, NotesOn, OneRound, OverIsOver, OverIsSaid};
ghost use Rattle.runs.specs.Tour.{NotEmpty};

/// In every world that a run leads to, all that machines have, keep and say is what one machine would have come to.
pub fn as_if_one()
    ensures { AsIfOne }
{}

/// A go that was ever said with over is true of that round and of every later one.
pub fn over_is_over()
    ensures { OverIsOver }
{}

/// Workers of one attempt are at most a round apart.
pub fn in_step()
    ensures { InStep }
{}

/// No attempt is ever said with two rounds.
pub fn one_round()
    ensures { OneRound }
{}

/// No go that was said finds a worker that isn't ready for it, and no anew one without the checkpoint.
pub fn never_unready()
    ensures { NeverUnready }
{}

/// The foreman begins anew at the hundredth tick with nothing taken, and not before.
pub fn hundred_ticks()
    ensures { HundredTicks }
{}

/// From every world there is a way, with nobody crashing, to any round that is asked for, or to where it is over.
pub fn goes_on()
    ensures { GoesOn }
{}

/// If the meaning comes to be over, then over is said, and every worker is told.
pub fn over_is_said()
    ensures { OverIsSaid }
{}

/// Who crashes after over comes back: from every world in which it is over there is a way to where everybody is up and knows.
pub fn comes_back()
    ensures { ComesBack }
{}

/// The noted round can rise to any multiple of 8 that the run has not ended before.
pub fn notes_on()
    ensures { NotesOn }
{}

/// There is a run with a crash, a rejoin from a checkpoint, a restart of the foreman, everything doubled and late, and over.
pub fn not_empty()
    ensures { NotEmpty }
{}
