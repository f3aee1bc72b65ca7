//! The ring of a tap device, with a producer lock and a consumer lock: many senders put packets, and one reader takes them in
//! batches and gives back what it did not use.
#![tactic(auto)]

mod ends;
mod laws;
mod locks;
mod make;
mod puts;
mod returns;
mod seats;
mod shared;
mod slots;
mod takes;
mod view;

pub use ends::{end_sender, ended};
pub use laws::{given_back_again, room_for_all, senders_in_order};
pub use puts::put;
pub use returns::give_back;
pub use shared::{Tap, TapSeat};
pub use takes::get_batch;
pub use view::{About, Consumer, Knowledge, TapRule};
