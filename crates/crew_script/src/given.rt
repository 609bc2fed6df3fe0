// What the lines of a script say, taken together, and which of them are bad.
ghost use Rattle.std.specs.Prelude.{◌≡◌, ◌||◌};
ghost use Rattle.std.specs.Option.{is_some, option_map};
ghost use Rattle.crew_script.specs.Given.{added_to, crew_fault, event_fault, fault_of, follows, is_machine, last_after, lone_fault, owner_fault, script_in, there, unsaid, workers_fault};
ghost use Rattle.crew_script.specs.Told.{asked_in};
ghost use Rattle.script.specs.Given.{given_or};

use crate::complaints::Expected;
use crate::settings::{Crew, Event, Machine, Run, Script, Span};
use crate::statements::{MOST_WORKERS, Statement};
use script::{MOST_PLACES, say_once};

// What the first line with each first word says, and the first place of the last stretch. A bad line counts as given too.
#[derive(Clone, Copy)]
pub(crate) struct Given {
    pub lone: script::Given,
    pub workers: Option<Result<u8, Expected>>,
    pub last: Option<u32>,
}

impl Given {
    // Before the first line.
    pub(crate) fn nothing() -> Given
        ensures { result ≡ unsaid }
    {
        Given {
            lone: script::Given::nothing(),
            workers: None,
            last: None,
        }
    }

    // Takes one more line.
    pub(crate) fn add(&mut self, statement: Statement)
        ensures { self.new ≡ added_to self.old statement }
    {
        match statement {
            Statement::Lone(said) => {
                let _ = self.lone.add(said);
            }
            Statement::Workers(workers) => {
                let _ = say_once(&mut self.workers, workers, Expected::CrewOnce);
            }
            Statement::Owner(span) => self.last = Some(last_after(self.last, span)),
            Statement::Happens(_) => {}
        }
    }

    // What should have stood in a line, where it is bad, after what was given before it; this is what all lines give.
    pub(crate) fn judge(&self, given: &Given, statement: Statement) -> Result<(), Expected>
        ensures { result ≡ fault_of self.now given.now statement }
    {
        match statement {
            Statement::Lone(said) => judge_lone(*given, said),
            Statement::Workers(workers) => judge_workers(*given, workers),
            Statement::Owner(span) => {
                self.needs_crew()?;
                self.judge_stretch(given, span?)
            }
            Statement::Happens(event) => {
                self.needs_crew()?;
                self.judge_event(event?)
            }
        }
    }

    fn needs_crew(&self) -> Result<(), Expected>
        ensures { result ≡ crew_fault self.now }
    {
        if self.workers.is_none() {
            return Err(Expected::CrewLine);
        }
        Ok(())
    }

    fn judge_stretch(&self, given: &Given, span: Span) -> Result<(), Expected>
        ensures { result ≡ owner_fault self.now given.now span }
    {
        if !given.rises(span) || span.first >= self.places() || span.worker >= self.workers() {
            return Err(Expected::OwnerSettings);
        }
        Ok(())
    }

    fn judge_event(&self, event: Event) -> Result<(), Expected>
        ensures { result ≡ event_fault self.now event }
    {
        if !is_there(self.workers(), event) {
            return Err(Expected::Machine);
        }
        Ok(())
    }

    // The first stretch begins at place 0, and any other above the one before.
    fn rises(&self, span: Span) -> bool
        ensures { result ≡ follows self.now span }
    {
        match self.last {
            Some(last) => span.first > last,
            None => span.first == 0,
        }
    }

    // Where nothing is set there are as many as there can be, so that no line is bad for that.
    fn places(&self) -> u32
        ensures { result ≡ given_or 1048576 self.now.lone.places }
    {
        given_or(self.lone.places, MOST_PLACES)
    }

    fn workers(&self) -> u8
        ensures { result ≡ given_or 8 self.now.workers }
    {
        given_or(self.workers, MOST_WORKERS)
    }

    // Whether some line says who plays.
    pub(crate) fn is_played(&self) -> bool
        ensures { result ≡ (is_some self.now.lone.alone || is_some self.now.workers) }
    {
        self.lone.alone.is_some() || self.workers.is_some()
    }

    // The script, where all that it needs is given and good.
    pub(crate) fn script(&self, stretches: Vec<Span>, events: Vec<Event>) -> Option<Script>
        ensures { option_map asked_in result ≡ script_in self.now stretches.items events.items }
    {
        let places = self.lone.places?.ok()?;
        let plan = self.lone.plan?.ok()?;
        let run = match self.workers {
            None => Run::Alone {
                rounds: self.lone.alone?.ok()?,
            },
            Some(workers) => Run::Crew(Crew {
                workers: workers.ok()?,
                stretches,
                events,
            }),
        };
        Some(Script { places, plan, run })
    }
}

fn given_or<T: Copy, E: Copy>(given: Option<Result<T, E>>, most: T) -> T
    ensures { result ≡ given_or most given }
{
    match given {
        Some(Ok(given)) => given,
        _ => most,
    }
}

// A bad stretch counts as one, and leaves the last one's first place.
fn last_after(last: Option<u32>, span: Result<Span, Expected>) -> u32
    ensures { result ≡ last_after last span }
{
    match span {
        Ok(span) => span.first,
        Err(_) => last.unwrap_or(0),
    }
}

fn judge_lone(mut given: Given, said: script::Statement) -> Result<(), Expected>
    ensures { result ≡ lone_fault given said }
{
    let mixed = given.lone.alone.is_none() && given.workers.is_some();
    if mixed && matches!(said, script::Statement::Alone(_)) {
        return Err(Expected::OneRun);
    }
    given.lone.add(said)?;
    Ok(())
}

fn judge_workers(mut given: Given, workers: Result<u8, Expected>) -> Result<(), Expected>
    ensures { result ≡ workers_fault given workers }
{
    if given.workers.is_none() && given.lone.alone.is_some() {
        return Err(Expected::OneRun);
    }
    say_once(&mut given.workers, workers, Expected::CrewOnce)
}

fn is_there(workers: u8, event: Event) -> bool
    ensures { result ≡ there workers event }
{
    match event {
        Event::Tick(machine) | Event::Up(machine) | Event::Cut { machine, .. } => {
            is_machine(workers, machine)
        }
        _ => true,
    }
}

fn is_machine(workers: u8, machine: Machine) -> bool
    ensures { result ≡ is_machine workers machine }
{
    match machine {
        Machine::Worker(worker) => worker < workers,
        Machine::Foreman => true,
    }
}
