//! From dequeue to transmit on a station's shared table: packets are taken from the rings and handed to the device.
#![tactic(auto)]

mod answers;
mod direct;
mod interrupts;
mod runs;
mod sends;
mod takes;
mod transmits;

pub use answers::{Ran, RunEnd, Sending, Taken, Through, Why};
pub use direct::direct_xmit;
pub use interrupts::{irq, softirq};
pub use runs::run;
pub use takes::dequeue;
pub use transmits::transmit;
