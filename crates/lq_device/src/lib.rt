//! Network devices, as the transmit path sees them: the trait `TxDevice`, and the device of the built-in bench.
//!
//! A device is a driver's `ndo_start_xmit` with the state of its queues. The layers above rest on one clause of
//! `TxDevice::xmit`: the list of accepted packets grows by exactly the packets that were answered as sent.
#![tactic(auto)]

mod asked;
mod bench;
mod device;
mod multiples;
mod station;

pub use asked::Asked;
pub use bench::{BenchDevice, PLAIN};
pub use device::TxDevice;
pub use lq_model::{NoMemory, Params, StationPlan, Tx};
pub use multiples::{is_multiple_next, left_after_one};
pub use station::Station;
