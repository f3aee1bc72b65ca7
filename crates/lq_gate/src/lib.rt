//! A place where a test can hold a thread of a run, and what a run has for all that it does.
#![tactic(auto)]

use std::alloc::Global;
use std::marker::Sync;

/// Called by a sender before each of its packets, and in a run over stations once after its last; in the run of a tap, by the
/// reader before each batch. It carries no content: a test holds a thread by it, or learns that the thread's earlier calls have
/// returned.
pub trait Gate: Sync {
    /// `k` counts the packets of this sender, from 0 on. The reader of a tap is the sender behind the last, and counts its
    /// batches that weren't empty.
    fn pass(&self, sender: u32, k: u32);
}

/// The gate that does nothing.
pub struct Free;

impl Gate for Free {
    fn pass(&self, _sender: u32, _k: u32) {}
}

/// What a run has for all that it does: threads, memory, and the gate that they pass.
#[derive(Drop)]
pub struct Resources<'r, R, G: Gate> {
    pub rt: &'r R,
    pub alloc: Global,
    pub gate: &'r G,
}
