// What can befall a crew.
use crew::Line;

#[derive(Clone, Copy, Debug, PartialEq, Eq)]
pub enum Event {
    // a machine comes up, ticks, does its round where one is due, or crashes
    Up(Line),
    Tick(Line),
    Work(Line),
    Crash(Line),
    // the message that is due next is handed over, handed over and under way again, lost, or put behind so many others
    Give,
    Twice,
    Lose,
    Late(usize),
}
