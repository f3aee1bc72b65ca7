//! The machine of the run lock: lemmas that each move of a seat keeps its invariant, of which the laws of `lq_run_core` and the rule of
//! `lq_table` are made, and the laws of one seat among others.
#![tactic(auto)]

pub mod laws;
