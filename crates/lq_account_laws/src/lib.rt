//! Laws of accounts: what a legal list of events comes to, and which events the run of one sender makes.
//!
//! Each law is the contract of a function that does nothing; `proofs/` has the lemmas that other crates cite.
#![tactic(auto)]

pub mod laws;
