// What a machine is told, and what it works with.
use crew::Parcel;
use std::alloc::Global;

/// The calls that the model has. Which one a machine is told is data, since events are read from a script.
#[derive(Clone, Copy)]
pub enum Call<'a> {
    // come up
    Open,
    // a message came
    Take(&'a Parcel),
    Tick,
    // do the round, where one is due
    Work,
}

/// The plan of the crew, and where memory comes from.
#[derive(Drop)]
pub struct Setting<'a, P> {
    pub heap: Global,
    pub plan: &'a P,
}
