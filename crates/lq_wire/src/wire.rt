//! The driver's ring and the wire.
ghost use Rattle.std.specs.Prelude.{◌≡◌, ◌+◌, ◌*◌, ◌^◌, ◌<◌, ◌≤◌, ◌∷◌, ◌++◌, [], All, drop, option_to_list, IfSome, OnOk};
ghost use Rattle.std.specs.VecDeque.{deque_len};
ghost use Rattle.lq_model.specs.Wire.{delay, flight_of, frame_length, ring_has_room, left_at, wire_time};
ghost use Rattle.lq_wire.specs.Wire.{due_at, due_by, first_has_left, flight_lengths, latest};

use lq_model::{Card, Flight, Limit};
use lq_pcap::Frames;
use std::alloc::{AllocError, Global};
use std::collections::VecDeque;

/// What a byte takes on a wire of one thousand bits a second, in nanoseconds.
const BYTE: u128 = 8_000_000;

/// What a frame of raw IP lacks: a header of Ethernet.
const ETHERNET_HEADER: u64 = 14;

/// libpcap's `LINKTYPE_RAW`.
const RAW_IP: u32 = 101;

/// A card: the packets that it accepted and the driver hasn't taken back, and when the wire is free.
#[derive(Drop)]
pub struct Wire {
    pub card: Card,
    pub ring: VecDeque<Flight>,
    /// The lengths of the packets in the ring, added up.
    pub bytes: u64,
    /// When the wire is free.
    pub free: u128,
    /// How many packets were accepted.
    pub accepted: u32,
    /// Those that were accepted and not told yet.
    pub untold: Vec<Flight>,
    pub ghost bytes_are: { bytes ≡ flight_lengths ring.items },
    pub ghost few: { deque_len ring ≤ accepted },
    pub ghost small: { bytes ≤ accepted * 4294967309 },
    pub ghost near: { free ≤ 2 ^ 96 + accepted * 2 ^ 75 },
    pub ghost ended: { All (λ flight. flight.ends ≤ free) ring.items },
}

impl Wire {
    ghost use Rattle.lq_model.specs.Wire.{Wired, with_flights};
    ghost use Rattle.lq_lone.specs.Lone.{slot_count};
    ghost use Rattle.lq_wire.specs.Wired.{IsWire};

    pub fn new(alloc: Global, card: Card) -> Wire
        ensures card { result.card ≡ card }
        ensures ring { result.ring.items ≡ [] }
        ensures free { result.free ≡ 0 }
        ensures accepted { result.accepted ≡ 0 }
        ensures untold { result.untold.items ≡ [] }
    {
        Wire {
            card,
            ring: VecDeque::new(alloc),
            bytes: 0,
            free: 0,
            accepted: 0,
            untold: Vec::new(alloc),
        }
    }

    /// Whether the driver has room for a packet.
    pub fn ring_has_room(&self) -> bool
        ensures { result ≡ ring_has_room self.now.card self.now.ring.items }
    {
        match self.card.limit {
            Limit::Ring { descriptors } => self.ring.len() < descriptors as usize,
            Limit::Bql { bytes } => self.bytes <= u64::from(bytes),
        }
    }

    /// The device accepts packet `n` at a moment.
    pub fn accept<F: Frames>(&mut self, frames: &F, now: u128, n: u32) -> Result<(), AllocError>
        requires near { now ≤ latest self.old.accepted }
        requires few { self.old.accepted < 1000000 }
        ensures ring { OnOk result (self.new.ring.items ≡ self.old.ring.items ++ flight_of self.old.card (F.packets frames.now) now self.old.free n ∷ []) }
        ensures free { OnOk result (self.new.free ≡ (flight_of self.old.card (F.packets frames.now) now self.old.free n).ends) }
        ensures accepted { OnOk result (self.new.accepted ≡ self.old.accepted + 1) }
        ensures untold { OnOk result (self.new.untold.items ≡ self.old.untold.items ++ flight_of self.old.card (F.packets frames.now) now self.old.free n ∷ []) }
        ensures card { self.new.card ≡ self.old.card }
    {
        let length = length_of(frames, n);
        let begins = now.max(self.free);
        let ends = begins + wire_time(self.card, length);
        let flight = Flight {
            number: n,
            accepted: now,
            begins,
            ends,
            length,
        };
        self.untold.push(flight)?;
        self.ring.push_back(flight)?;
        self.free = ends;
        self.bytes += length;
        self.accepted += 1;
        Ok(())
    }

    /// The device accepts this packet at a moment, if there is one.
    pub fn accept_some<F: Frames>(
        &mut self,
        frames: &F,
        now: u128,
        accepted: Option<u32>,
    ) -> Result<(), AllocError>
        requires near { now ≤ latest self.old.accepted }
        requires few { self.old.accepted + slot_count accepted ≤ 1000000 }
        ensures accepts { OnOk result ((w : Wired) → IsWire self.old w → IsWire self.new (with_flights self.old.card (F.packets frames.now) now (option_to_list accepted) w)) }
        ensures accepted { OnOk result (self.new.accepted ≡ self.old.accepted + slot_count accepted) }
        ensures card { self.new.card ≡ self.old.card }
    {
        match accepted {
            Some(n) => self.accept(frames, now, n),
            None => Ok(()),
        }
    }

    /// What has left the wire by a moment is taken back.
    pub fn reclaim(&mut self, now: u128)
        ensures ring { self.new.ring.items ≡ left_at now self.old.ring.items }
        ensures free { self.new.free ≡ self.old.free }
        ensures accepted { self.new.accepted ≡ self.old.accepted }
        ensures untold { self.new.untold ≡ self.old.untold }
        ensures card { self.new.card ≡ self.old.card }
    {
        for turn in 0..self.ring.len() {
            let _ = turn;
            if !self.has_left(now) {
                return;
            }
            self.take_back();
        }
    }

    // Whether the oldest frame of the ring has left the wire by a moment.
    fn has_left(&self, now: u128) -> bool
        ensures { result ≡ first_has_left now self.now.ring.items }
    {
        match self.ring.front() {
            Some(first) => first.ends <= now,
            None => false,
        }
    }

    // The oldest packet of the ring is taken back, if there is one.
    fn take_back(&mut self)
        ensures ring { self.new.ring.items ≡ drop 1 self.old.ring.items }
        ensures free { self.new.free ≡ self.old.free }
        ensures accepted { self.new.accepted ≡ self.old.accepted }
        ensures untold { self.new.untold ≡ self.old.untold }
        ensures card { self.new.card ≡ self.old.card }
    {
        if let Some(first) = self.ring.pop_front() {
            self.bytes -= first.length;
        }
    }

    /// The moment of the next interrupt, if there is one, up to a moment if there is such a limit.
    pub fn due(&self, until: Option<u128>) -> Option<u128>
        ensures due { result ≡ due_at self.now.card (due_by until) self.now.ring.items }
        ensures near { IfSome result (λ now. now ≤ latest self.now.accepted) }
    {
        let first = self.ring.front()?;
        let now = first.ends + delay(self.card);
        if is_due(until, now) { Some(now) } else { None }
    }
}

// Whether a moment is due.
fn is_due(until: Option<u128>, now: u128) -> bool
    ensures { result ≡ due_by until now }
{
    match until {
        Some(until) => now <= until,
        None => true,
    }
}

// How long after a frame has left its interrupt comes.
fn delay(card: Card) -> u128
    ensures delay { result ≡ delay card }
    ensures few { result ≤ 2 ^ 74 }
{
    u128::from(card.coalesce_us) * 1000 * u128::from(card.rate_kbit)
}

// How long a frame of a length is on the wire.
fn wire_time(card: Card, length: u64) -> u128
    requires { length ≤ 4294967309 }
    ensures time { result ≡ wire_time card length }
    ensures few { result ≤ 2 ^ 57 }
{
    let bytes = (length + u64::from(card.overhead)).max(u64::from(card.mpu));
    BYTE * u128::from(bytes)
}

// The length of a packet's frame, with its Ethernet header.
fn length_of<F: Frames>(frames: &F, n: u32) -> u64
    ensures length { result ≡ frame_length (F.packets frames.now) n }
    ensures few { result ≤ 4294967309 }
{
    let i = n as usize;
    if i >= frames.len() {
        return 0;
    }
    let header = if frames.link_of(i) == RAW_IP {
        ETHERNET_HEADER
    } else {
        0
    };
    u64::from(frames.wire_length(i)) + header
}
