//! The table of a tap and a seat of it.
ghost use Rattle.std.specs.Prelude.{◌≡◌, ◌+◌, ◌<◌, ◌≤◌};

use crate::view::{About, Consumer, Knowledge, TapRule};
use atomic_table::Seat;
use lq_log::{Knows, Logged};
use std::alloc::Global;

/// The ring of a tap device, shared by its senders and its reader.
#[derive(Drop)]
pub struct Tap {
    pub(crate) table: Logged<Consumer, Knowledge, About, TapRule, Global>,
    pub(crate) packets: u32,
    pub(crate) len: u32,
    pub(crate) senders: u32,
    pub ghost sized: { (table.kit.shared.table_id.words ≡ 32 + len) × (table.kit.shared.table_id.slots ≡ 1) },
    pub ghost limits: { (packets ≤ 1000000) × (0 < len) × (len ≤ 4096) × (0 < senders) × (senders ≤ 8) },
    pub ghost same: { (table.kit.shared.key.packets ≡ packets) × (table.kit.shared.key.len ≡ len)
        × (table.kit.shared.key.senders ≡ senders) },
}

/// A seat of the reader or of one sender: what it knows of the tap, and which steps it made.
#[derive(Drop)]
pub struct TapSeat {
    pub(crate) seat: Seat<Consumer, Knows<Knowledge>>,
}
