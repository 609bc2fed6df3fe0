// Where a worker is in its attempt.
ghost use Rattle.std.specs.Prelude.{◌≡◌, if◌then◌else◌};
ghost use Rattle.workers.specs.Phases.{is_in, is_over};
ghost use Rattle.workers.specs.declared.phase.Phase.TheVariants.{Out, Idle, Over};

#[derive(Clone, Copy, Debug, PartialEq, Eq)]
pub(crate) enum Phase {
    // it came up, and is out until it joins an attempt
    Out,
    // in a round that it hasn't worked
    Idle,
    // in a round that it has worked
    Worked,
    // it was told that it is over
    Over,
}

impl Phase {
    // A fresh machine is in its attempt, and one that came up is out.
    pub(crate) fn opened(fresh: bool) -> Phase
        ensures { result ≡ (if fresh then Idle else Out) }
    {
        if fresh { Phase::Idle } else { Phase::Out }
    }

    // After a go.
    pub(crate) fn after(over: bool) -> Phase
        ensures { result ≡ (if over then Over else Idle) }
    {
        if over { Phase::Over } else { Phase::Idle }
    }

    // Is it in its attempt.
    pub(crate) fn is_in(self) -> bool
        ensures { result ≡ is_in self }
    {
        self != Phase::Out
    }

    pub(crate) fn is_over(self) -> bool
        ensures { result ≡ is_over self }
    {
        self == Phase::Over
    }
}
