//! A sender's seat at a station's table, and that table, from its making to its close.
//!
//! A [`Table`] is made over a station's device, with its first [`Seat`]. Seats are split off for further senders and joined again;
//! in between each sends its packets, wakes queues and, as the first, does the plan's events.
#![tactic(auto)]

mod seat;
mod table;

pub use seat::{Brought, Seat};
pub use table::Table;
