// What the lines of a script say, taken together.
ghost use Rattle.std.specs.Prelude.{◌≡◌, Some};
ghost use Rattle.script.specs.Given.{added_to, fault_of, first_of, once, script_in, unsaid};

use crate::complaints::Expected;
use crate::settings::{Choice, Script};
use crate::statements::Statement;

/// What the first line with each first word says. A bad line counts as given too.
#[derive(Clone, Copy, Debug, PartialEq, Eq)]
pub struct Given {
    pub places: Option<Result<u32, Expected>>,
    pub plan: Option<Result<Choice, Expected>>,
    pub alone: Option<Result<u32, Expected>>,
}

/// Sets what is said for the first time, and says what is bad: what is said, or else that it is said again.
pub fn say_once<T: Copy, E: Copy>(
    given: &mut Option<Result<T, E>>,
    said: Result<T, E>,
    again: E,
) -> Result<(), E>
    ensures after { given.new ≡ Some (first_of given.old said) }
    ensures value { result ≡ once again given.old said }
{
    if given.is_some() {
        return Err(again);
    }
    *given = Some(said);
    said?;
    Ok(())
}

impl Given {
    /// Before the first line.
    pub fn nothing() -> Given
        ensures { result ≡ unsaid }
    {
        Given {
            places: None,
            plan: None,
            alone: None,
        }
    }

    /// Takes one more line, and says what should have stood there, where it is bad.
    pub fn add(&mut self, statement: Statement) -> Result<(), Expected>
        ensures after { self.new ≡ added_to self.old statement }
        ensures value { result ≡ fault_of self.old statement }
    {
        match statement {
            Statement::Nothing => Ok(()),
            Statement::Unknown => Err(Expected::FirstWord),
            Statement::Places(places) => say_once(&mut self.places, places, Expected::Once),
            Statement::Plan(plan) => say_once(&mut self.plan, plan, Expected::Once),
            Statement::Alone(rounds) => say_once(&mut self.alone, rounds, Expected::Once),
        }
    }

    /// The script, where all that it needs is given and good.
    pub fn script(&self) -> Option<Script>
        ensures { result ≡ script_in self.now }
    {
        Some(Script {
            places: self.places?.ok()?,
            plan: self.plan?.ok()?,
            rounds: self.alone?.ok()?,
        })
    }
}
