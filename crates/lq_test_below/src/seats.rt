//! A sender's seat.

use lq_device::TxDevice;
use lq_table::Cpu;

/// The seat of a sender, with its owner.
#[derive(Drop)]
pub struct Sender<D: TxDevice> {
    pub owner: u32,
    pub cpu: Cpu<D>,
}
