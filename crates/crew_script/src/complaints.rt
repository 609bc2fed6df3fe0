// What is wrong with a script.
ghost use Rattle.std.specs.Prelude.{◌≡◌, Some};
ghost use Rattle.crew_script.specs.Wording.{with_crews, wording};

use std::fmt;

/// What should have stood there. `Lone` is what a script of one machine should have there too, and the last is a whole
/// line that is missing.
#[derive(Clone, Copy, Debug, PartialEq, Eq)]
pub enum Expected {
    FirstWord,
    Lone(script::Expected),
    WorkerCount,
    CrewOnce,
    OneRun,
    CrewLine,
    OwnerSettings,
    TickSettings,
    UpSettings,
    CutSettings,
    NoWord,
    LateSettings,
    SeedSettings,
    UntilSettings,
    Machine,
    RunLine,
}

impl Expected {
    // By hand, in place of thiserror's derive: that has no contract, and here it is promised what is printed.
    fn text(self) -> &'static str
        ensures { result.now ≡ wording self }
    {
        match self {
            Expected::FirstWord =>
                "'places', 'plan' or 'alone', or with a crew 'workers', 'owner' or an event",
            Expected::Lone(expected) => expected.text(),
            Expected::WorkerCount => "a number of workers from 1 to 8 and no other word",
            Expected::CrewOnce => "'workers' only once",
            Expected::OneRun => "one of 'alone' and 'workers', not both",
            Expected::CrewLine => "this only where a line 'workers M' is",
            Expected::OwnerSettings =>
                "'owner FIRST WORKER', FIRST 0 at first, then rising and below the places, WORKER below the workers",
            Expected::TickSettings => "'tick I', I a worker or 64",
            Expected::UpSettings => "'up I', I a worker or 64",
            Expected::CutSettings =>
                "'cut I' or 'cut I B', I a worker or 64, B from 0 to 4294967295",
            Expected::NoWord => "no word after 'give', 'lose' or 'twice'",
            Expected::LateSettings => "'late K', K from 0 to 4294967295",
            Expected::SeedSettings => "'seed S T', S and T from 0 to 4294967295",
            Expected::UntilSettings => "'until over T', T from 0 to 4294967295",
            Expected::Machine => "a machine that is there: a worker below the workers, or 64",
            Expected::RunLine => "a line 'alone R' or 'workers M'",
        }
    }
}

impl fmt::Display for Expected {
    ghost output = { λ e. Some (wording e) };

    fn fmt<W: fmt::Write>(&self, f: &mut fmt::Formatter<W>) -> fmt::Result {
        f.write_str(self.text())
    }
}

// More first words are there with crews.
impl From<script::Expected> for Expected {
    ghost from_gives = { λ e x. x ≡ with_crews e };

    fn from(expected: script::Expected) -> Expected {
        match expected {
            script::Expected::FirstWord => Expected::FirstWord,
            other => Expected::Lone(other),
        }
    }
}
