//! What is left of a table that was closed.
ghost use Rattle.std.specs.Prelude.{◌≡◌, ℕ, ◌+◌, ◌<◌, ◌≤◌, false, slice_index_or};
ghost use Rattle.std.specs.Mem.Slots.{slots_items, slots_len, slots_filled, IsFull};
ghost use Rattle.lq_table.specs.Places.{line_of};
ghost use Rattle.lq_table.specs.Written.{AreWritten};

use atomic_table::Closed as ClosedTable;
use core::slots::Slots;
use lq_device::{Station, StationPlan, TxDevice};
use std::alloc::Global;
use std::marker::Sync;

/// What stays of a closed station when its device is handed out: its number, its plan and its packets' fates.
pub struct Ended<D: TxDevice> {
    /// The words as the last seat left them.
    pub(crate) table: ClosedTable<Option<Station<D>>, Global>,
    /// The number of the station.
    pub(crate) number: u32,
    /// What the plan says of the station.
    pub(crate) plan: StationPlan,
    /// The place of the first packet's fate among the words.
    pub(crate) fates_from: usize,
    /// How many packets the capture has, each with a fate word.
    pub(crate) packets: usize,
    pub ghost long: { (fates_from + packets ≤ slots_len table.words) × (line_of 9 ≤ slots_len table.words) × (packets ≤ 1000000) },
    pub ghost full: { IsFull table.words },
    pub ghost written: { AreWritten fates_from packets (slots_items table.words) },
    pub ghost taken: { (k : ℕ) → k < slots_len table.slots → slice_index_or (slots_filled table.slots) k false ≡ false },
}

/// A closed table, with its station where it was at home.
#[derive(Drop)]
pub struct Closed<D: TxDevice> {
    /// All but the station.
    pub(crate) ended: Ended<D>,
    /// The station, with its device; none where it wasn't in the slot.
    pub(crate) station: Option<Station<D>>,
    /// How many queues its device has.
    pub(crate) queues: usize,
    pub ghost stopped: { (0 < queues) × (ended.fates_from + ended.packets + queues ≡ slots_len ended.table.words + 1) },
}

/// The fate words of a closed table, lent. Threads may share them whatever the station's device is, since no device is among them;
/// the table itself they may not share, for its device may be one that only one thread at a time may look at.
#[derive(Clone, Copy)]
pub struct FateWords<'a> {
    /// All words of the table.
    pub(crate) words: &'a Slots<u64>,
    /// The place of the first packet's fate among them.
    pub(crate) from: usize,
    /// How many packets the capture has, each with a fate word.
    pub(crate) packets: usize,
    ghost long: { from + packets ≤ slots_len words.now },
    ghost full: { IsFull words.now },
    ghost written: { AreWritten from packets (slots_items words.now) },
}

unsafe impl Sync for FateWords<'_> {}

impl<D: TxDevice> Drop for Ended<D> {
    fn drop(self) {
        let Ended {
            table,
            number: _,
            plan: _,
            fates_from: _,
            packets: _,
        } = self;
        table.free();
    }
}
