//! The pointer ring on one thread, after include/linux/ptr_ring.h: slots, a producer index, a consumer head and a
//! consumer tail. Taken slots are emptied a batch at a time, so a ring can be full while it holds fewer entries
//! than it has slots.
#![tactic(auto)]

mod ring;
mod slots;
mod three;

pub use ring::{Full, Ring, RingRefusal};
pub use slots::{next_place, place_before};
pub use three::{Dropped, resize_three};
