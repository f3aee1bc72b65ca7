//! Control of a station beside running senders: it is deactivated and activated, its rings are resized, its device is swapped,
//! and it is ended.
#![tactic(auto)]

mod activates;
mod drains;
mod finishes;
mod laws;
mod purges;
mod resizes;
mod swaps;
mod waits;

pub use activates::{down, up};
pub use drains::drain;
pub use finishes::finish;
pub use laws::{
    a_resize_drops_the_last, a_swap_hands_the_old_device_back, an_end_purges_what_hangs,
    deactivations_purge_all,
};
pub use resizes::{resize, tx_queue_len};
pub use swaps::swap;
