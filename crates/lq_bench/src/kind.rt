//! The kinds of rounds.

/// What a round does.
#[derive(Clone, Copy, Drop)]
pub enum Kind {
    /// One load, of a turn word.
    Load,
    /// One exchange, which tries to wake a queue that is open.
    Wake,
    /// A try of a producer lock: a load, and where it is free an exchange, a load and a store.
    Produce,
}

impl Kind {
    /// What is printed of it.
    pub fn name(self) -> &'static str {
        match self {
            Kind::Load => "a load",
            Kind::Wake => "an exchange that finds another value",
            Kind::Produce => "a try of a producer lock, given back where it was got",
        }
    }
}

/// What control does in its rounds, which has the table alone.
#[derive(Clone, Copy, Drop)]
pub enum Holding {
    /// The run lock is taken with the station, and both are given back.
    Lock,
    /// The station is moved out of its slot and back, under the run lock.
    Station,
}

impl Holding {
    /// What is printed of it.
    pub fn name(self) -> &'static str {
        match self {
            Holding::Lock => "the run lock with the station, taken and given back by control",
            Holding::Station => "two exchanges of the slot: the station moved out and back",
        }
    }
}
