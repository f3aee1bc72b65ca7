//! What the senders and the reader of a run share.
ghost use Rattle.lq_tap_run.specs.Lanes.{CanPut};

use lq_gate::Gate;
use lq_tap::Tap;

/// The ring of a run, how many packets it is for, how many senders it has, and the gate that all pass.
#[derive(Drop)]
pub struct Run<'r, G: Gate> {
    pub tap: &'r Tap,
    pub packets: u32,
    pub senders: u32,
    pub gate: &'r G,
    pub ghost may: { CanPut tap.now packets senders },
}
