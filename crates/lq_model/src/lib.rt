//! The plain types of the transmit path and, in `specs/`, every definition that the contracts of the other
//! crates cite. `docs/RULES.md` and `docs/FORMATS.md` say the same in words, in the same order.
#![tactic(auto)]

mod band;
mod capture;
mod device;
mod fate;
mod flight;
mod machine;
mod plan;
pub mod runs;
pub mod state;
mod words;

pub use band::batch;
pub use capture::CaptureReason;
pub use device::{Params, Tx};
pub use fate::{Cause, Fate, Info};
pub use flight::Flight;
pub use machine::{
    Answer, Attempt, Beginning, Blocked, Call, ControlStep, Packet, Phase, Position, Seat,
};
pub use plan::{
    Card, Classify, EventKind, EventPlan, Irq, Limit, PlanReason, Split, Spread, StationPlan,
};
pub use words::{fate_word, fate_written_again, one_fate_a_word, word_fate, word_read_again};

/// Want of memory.
#[derive(Clone, Copy, Debug, PartialEq, Eq)]
pub struct NoMemory;
