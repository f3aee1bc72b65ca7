//! The kit's table with a log: each of its operations appends its step, with what it found, to the list of the seat that made it.
#![tactic(auto)]

mod known;
mod logged;
mod seats;
mod steps;
mod tells;

pub use known::{Knows, Logging};
pub use logged::Logged;
pub use tells::{Cuts, Tells};
