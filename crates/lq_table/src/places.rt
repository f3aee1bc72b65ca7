//! Where each word of the table lies: the one place in the code that knows.
//!
//! A word's number is the format's. Each of the first `9 + senders` words has a line of its own, since several threads write it
//! and a processor takes a whole line to write one word of it; so the kernel keeps the fields of producer and consumer apart in
//! `struct ptr_ring` of include/linux/ptr_ring.h. Slots, fates and the other stop words lie close together behind them.
ghost use Rattle.std.specs.Prelude.{◌≡◌, ◌+◌, ◌-◌, ◌*◌, ◌<◌, ◌≤◌};
ghost use Rattle.lq_table.specs.Places.{line_of, producer_place, turn_place, slot_word, fates_offset, xoff_word};
ghost use Rattle.lq_table.specs.Keyed.{keyed_setup};
ghost use Rattle.lq_table.specs.Sees.{setup};

use crate::shared::Shared;
use lq_device::TxDevice;

/// How many words a line has: 128 bytes, since processors fetch lines of 64 bytes in pairs.
pub(crate) const LINE: usize = 16;

pub(crate) const BASE: usize = 0;

pub(crate) const STATE: usize = LINE;

pub(crate) const LOCK: usize = 2 * LINE;

/// The stop word of queue 0.
pub(crate) const XOFF: usize = 3 * LINE;

pub(crate) const INSIDE: usize = 4 * LINE;

pub(crate) const SIZE: usize = 5 * LINE;

const PRODUCERS: usize = 6 * LINE;

const TURNS: usize = 9 * LINE;

/// The producer word of a band.
pub(crate) fn producer_word(band: u32) -> usize
    requires band { band < 3 }
    ensures { result ≡ producer_place band }
{
    PRODUCERS + LINE * band as usize
}

/// The turn word of an owner.
pub(crate) fn turn_word(owner: u32) -> usize
    ensures { result ≡ turn_place owner }
{
    TURNS + LINE * owner as usize
}

/// The slots of the three bands begin here, behind the turns.
fn slots_from(senders: u32) -> usize
    ensures { result ≡ line_of (9 + senders) }
{
    TURNS + LINE * senders as usize
}

/// The fates begin here, behind the slots.
pub(crate) fn fates_from(senders: u32, max_len: u32) -> usize
    ensures { result ≡ line_of (9 + senders) + 3 * max_len }
{
    slots_from(senders) + 3 * max_len as usize
}

/// How many words the table has.
pub(crate) fn word_count(senders: u32, max_len: u32, packets: usize, queues: u32) -> usize
    requires queues { 0 < queues }
    requires packets { packets ≤ 1000000 }
    ensures { result ≡ line_of (9 + senders) + 3 * max_len + packets + (queues - 1) }
{
    fates_from(senders, max_len) + packets + (queues as usize - 1)
}

impl<'a, D: TxDevice> Shared<'a, D> {
    /// The word of slot `i` of a band.
    pub(crate) fn slot_word(&self, band: u32, i: u32) -> usize
        requires band { band < 3 }
        ensures { result ≡ slot_word (keyed_setup self.now.table.kit.shared.key) band i }
    {
        slots_from(self.senders) + band as usize * self.max_len as usize + i as usize
    }

    /// The word of packet `n`'s fate.
    pub(crate) fn fate_word_of(&self, n: u32) -> usize
        ensures { result ≡ fates_offset (keyed_setup self.now.table.kit.shared.key) + n }
    {
        fates_from(self.senders, self.max_len) + n as usize
    }

    /// The word in which a queue's stop value stands.
    pub(crate) fn stop_word(&self, queue: u32) -> usize
        requires queue { queue < self.now.queues }
        ensures keyed { result ≡ xoff_word (keyed_setup self.now.table.kit.shared.key) queue }
        ensures named { result ≡ xoff_word (setup self.now) queue }
    {
        if queue == 0 {
            return XOFF;
        }
        fates_from(self.senders, self.max_len) + self.infos.len() + (queue as usize - 1)
    }
}
