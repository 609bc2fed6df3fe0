// Progress on standard error, where that is a terminal.
use meaning::Round;
use rounds::Watch;
use std::io::IsTerminal;
use std::time::Instant;

#[derive(Drop)]
pub struct Progress {
    rt: HostRuntime,
    last: Instant,
    terminal: bool,
    shown: bool,
}

impl Progress {
    pub fn new(rt: &HostRuntime) -> anyhow::Result<Progress> {
        Ok(Progress {
            rt: rt.clone()?,
            last: Instant::now(rt)?,
            terminal: rt.stderr().is_terminal(),
            shown: false,
        })
    }

    /// Wipes what was shown.
    pub fn end(&self) {
        if self.shown {
            let _ = eprint!(self.rt; "\r                    \r");
        }
    }

    fn due(&self) -> bool {
        self.last
            .elapsed(&self.rt)
            .is_ok_and(|time| time.as_millis() >= 200)
    }
}

// Five times a second at most.
impl Watch for Progress {
    fn reached(&mut self, round: Round) {
        if self.terminal && self.due() {
            let r = round.0;
            let _ = eprint!(self.rt; "\rround {r}");
            self.shown = true;
            if let Ok(now) = Instant::now(&self.rt) {
                self.last = now;
            }
        }
    }
}
