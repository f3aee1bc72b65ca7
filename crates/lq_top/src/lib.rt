//! The top call: a capture through the devices of a bench, and what became of its packets.
//!
//! All that is promised stands on `lqtx`, and `specs/Headline.antt` says it of a run that is done.
#![tactic(auto)]

mod generate;
pub mod laws;
mod program;
mod send;
mod tap;
mod top;
mod trace;

pub use lq_files::Status;
pub use lq_senders::{Free, Gate, Resources};
pub use program::{NO_MEMORY, run_program, run_words};
pub use top::lqtx;
