//! The words of a table as a machine that steps: laws of progress of what a table's seats do, for any number of them.
//!
//! Each law is the contract of a function that does nothing.
#![tactic(auto)]

pub mod laws;
