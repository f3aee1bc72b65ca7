//! What the seats share, and what a step of a seat does there.
ghost use Rattle.std.specs.Prelude.{◌≡◌, ◌≤◌, ◌+◌, [], nat_lt, if◌then◌else◌, IfOk};
ghost use Rattle.lq_run_core.specs.Room.{IsBandList};

use lq_model::{NoMemory, Packet, Phase, Position, Seat};
use std::alloc::Global;
use std::collections::VecDeque;
use std::marker::Model;

/// The words, the lists of the bands and the requeue slot.
#[derive(Drop)]
pub(crate) struct Qdisc {
    /// SCHED of the state word: a soft interrupt is to come.
    pub(crate) sched: bool,
    /// DEACTIVATED of the state word.
    pub(crate) deactivated: bool,
    /// MISSED of the state word.
    pub(crate) missed: bool,
    /// DRAINING of the state word.
    pub(crate) draining: bool,
    /// Whether a seat has the run lock.
    pub(crate) locked: bool,
    /// The stop word of each queue, of which there are at most 8: 0 open, 1 stopped, 2 hung.
    pub(crate) xoff: Vec<u64>,
    /// How many transmits and soft interrupts are under way.
    pub(crate) inside: u64,
    /// The packets of band 0, the first to be served at the front. Each band has room for `len` packets.
    pub(crate) first: VecDeque<Packet>,
    /// The packets of band 1.
    pub(crate) second: VecDeque<Packet>,
    /// The packets of band 2.
    pub(crate) third: VecDeque<Packet>,
    /// How many packets a band may hold, at most 4096.
    pub(crate) len: u32,
    /// The packet in the requeue slot.
    pub(crate) slot: Option<Packet>,
    /// Whether a packet may go past the bands.
    pub(crate) bypass: bool,
    /// How many packets the device accepted. It stands still at `u64::MAX`.
    pub(crate) sent: u64,
    /// How many packets were dropped since their band was full. It stands still at `u64::MAX`.
    pub(crate) full: u64,
    /// How far control has come.
    pub(crate) phase: Phase,
}

impl Model for Qdisc {
    ghost use Rattle.std.specs.Prelude.{◌≤◌, ◌∷◌, [], None, vec_len};
    ghost use Rattle.lq_run_core.specs.Room.{IsBandList};
    ghost use Rattle.lq_model.specs.Machine.{Qdisc as State};

    ghost Value = { State };

    ghost view = { λ s. record {
      sched = s.sched;
      deactivated = s.deactivated;
      missed = s.missed;
      draining = s.draining;
      locked = s.locked;
      xoff = s.xoff.items;
      inside = s.inside;
      bands = s.first.items ∷ s.second.items ∷ s.third.items ∷ [];
      len = s.len;
      slot = s.slot;
      bypass = s.bypass;
      sent = s.sent;
      full = s.full;
      phase = s.phase;
      purge = None;
    } };

    ghost invariant = { λ s. (vec_len s.xoff ≤ 8) × (s.len ≤ 4096)
        × IsBandList s.len s.first × IsBandList s.len s.second × IsBandList s.len s.third };
}

/// The seat at another position.
pub(crate) fn at(seat: Seat, position: Position) -> Seat
    ensures { result ≡ record seat { position = position } }
{
    Seat {
        position,
        raised: seat.raised,
        run: seat.run,
    }
}

/// A count stands still at the last value of its type.
fn one_more(count: u64) -> u64
    ensures { result ≡ (if nat_lt count 18446744073709551615 then count + 1 else count) }
{
    if count < u64::MAX { count + 1 } else { count }
}

impl Qdisc {
    ghost use Rattle.std.specs.Prelude.{◌≡◌, ◌<◌, ◌≤◌, ◌+◌, ◌∷◌, [], nat_lt, length, slice_set, slice_index, IfSome, IfNone, OnSome, IfOk};
    ghost use Rattle.lq_model.specs.Machine.{is_non_empty, is_queue_open, has_several_queues, band_at, first_qdisc, state_word};
    ghost use Rattle.lq_run_core.specs.Numbered.{packets_held};
    ghost use Rattle.lq_model.specs.Steps.{one_more, joined_band};

    /// MISSED or DRAINING is set.
    pub(crate) fn is_non_empty(&self) -> bool
        ensures { result ≡ is_non_empty self.now }
    {
        self.missed || self.draining
    }

    /// The stop word of this queue, and 0 where there is none.
    pub(crate) fn stop_word(&self, queue: u32) -> u64
        ensures { result ≡ slice_index self.now.xoff queue }
    {
        let queue = queue as usize;
        if queue < self.xoff.len() {
            self.xoff[queue]
        } else {
            0
        }
    }

    pub(crate) fn is_queue_open(&self, queue: u32) -> bool
        ensures { result ≡ is_queue_open self.now queue }
    {
        self.stop_word(queue) == 0
    }

    /// Several queues share the bands.
    pub(crate) fn has_several_queues(&self) -> bool
        ensures { result ≡ has_several_queues self.now }
    {
        self.xoff.len() > 1
    }

    /// Whether a queue has a higher number.
    pub(crate) fn has_next_queue(&self, queue: u32) -> bool
        ensures behind { result ≡ nat_lt (queue + 1) (length self.now.xoff) }
        ensures few { length self.now.xoff ≤ 8 }
    {
        (queue as usize) + 1 < self.xoff.len()
    }

    pub(crate) fn store_xoff(&mut self, queue: u32, word: u64)
        ensures { self.new ≡ record self.old { xoff = slice_set self.old.xoff queue word } }
    {
        let queue = queue as usize;
        if queue < self.xoff.len() {
            self.xoff[queue] = word;
        }
    }

    /// How many packets this band holds.
    pub(crate) fn band_len(&self, band: u32) -> usize
        ensures { result ≡ length (band_at self.now band) }
    {
        match band {
            0 => self.first.len(),
            1 => self.second.len(),
            2 => self.third.len(),
            _ => 0,
        }
    }

    /// Puts a packet at the end of its band's list, which has room.
    pub(crate) fn join(&mut self, packet: Packet)
        requires { length (band_at self.old packet.band) < self.old.len }
        ensures { self.new ≡ joined_band packet self.old }
    {
        match packet.band {
            0 => self.first.push_back_reserved(packet),
            1 => self.second.push_back_reserved(packet),
            2 => self.third.push_back_reserved(packet),
            _ => {}
        }
    }

    /// Counts a packet as sent.
    pub(crate) fn count_sent(&mut self)
        ensures { self.new ≡ record self.old { sent = one_more self.old.sent } }
    {
        self.sent = one_more(self.sent);
    }

    /// Counts a packet as refused by its band's ring.
    pub(crate) fn count_full(&mut self)
        ensures { self.new ≡ record self.old { full = one_more self.old.full } }
    {
        self.full = one_more(self.full);
    }

    /// Takes the first packet of this band.
    pub(crate) fn take_first(&mut self, band: u32) -> Option<Packet>
        ensures some { IfSome result (λ p. band_at self.old band ≡ p ∷ band_at self.new band) }
        ensures taken { OnSome result (self.new ≡ record self.old { bands = slice_set self.old.bands band (band_at self.new band) }) }
        ensures none { IfNone result ((band_at self.old band ≡ []) × (self.new ≡ self.old)) }
    {
        match band {
            0 => self.first.pop_front(),
            1 => self.second.pop_front(),
            2 => self.third.pop_front(),
            _ => None,
        }
    }

    /// All words 0, all lists empty.
    pub(crate) fn new(alloc: Global, len: u32, bypass: bool, queues: u32) -> Result<Qdisc, NoMemory>
        requires len { len ≤ 4096 }
        requires queues { queues ≤ 8 }
        ensures { IfOk result (λ q. q ≡ first_qdisc len bypass queues) }
    {
        let Ok(xoff) = Vec::from_elem(alloc, 0u64, queues as usize) else {
            return Err(NoMemory);
        };
        let first = band(alloc, len)?;
        let second = band(alloc, len)?;
        let third = band(alloc, len)?;
        Ok(Qdisc {
            sched: false,
            deactivated: false,
            missed: false,
            draining: false,
            locked: false,
            xoff,
            inside: 0,
            first,
            second,
            third,
            len,
            slot: None,
            bypass,
            sent: 0,
            full: 0,
            phase: Phase::Active,
        })
    }

    /// The state word.
    pub(crate) fn state(&self) -> u64
        ensures { result ≡ state_word self.now }
    {
        bit(self.sched) + 2 * bit(self.deactivated) + 4 * bit(self.missed) + 8 * bit(self.draining)
    }

    /// How many packets the bands and the requeue slot hold.
    pub(crate) fn held(&self) -> u64
        ensures { result ≡ packets_held self.now }
    {
        (self.first.len() + self.second.len() + self.third.len()) as u64 + bit(self.slot.is_some())
    }
}

fn bit(set: bool) -> u64
    ensures { result ≡ (if set then 1 else 0) }
{
    if set { 1 } else { 0 }
}

/// An empty list with room for so many packets.
fn band(alloc: Global, len: u32) -> Result<VecDeque<Packet>, NoMemory>
    ensures empty { IfOk result (λ q. q.items ≡ []) }
    ensures room { IfOk result (λ q. IsBandList len q) }
{
    match VecDeque::with_capacity(alloc, len as usize) {
        Ok(list) => Ok(list),
        Err(_) => Err(NoMemory),
    }
}
