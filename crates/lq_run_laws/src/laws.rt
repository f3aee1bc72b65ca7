//! Laws of seats among others. Each is the contract of a function that does nothing.

pub mod among;
pub mod seats;
