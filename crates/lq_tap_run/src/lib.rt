//! A run of a tap: senders put packets into one ring, and a reader takes them out in batches and gives back what it
//! doesn't read.
#![tactic(auto)]

mod fates;
mod lanes;
mod reader;
mod run;
mod shared;

pub use lq_fates::TapFate;
pub use lq_gate::{Free, Gate};
pub use run::{Tapped, tap_all};
