//! The rings of a shared table: a packet is put by one of many senders, and taken by the holder of the run lock.
#![tactic(auto)]

mod moves;
mod purges;
mod puts;
mod resize;
mod takes;
mod turns;

pub use purges::purge_band;
pub use puts::produce;
pub use resize::resize_all;
pub use takes::consume;
