//! A station's device, with what the holder of its run lock keeps beside it.
ghost use Rattle.std.specs.Prelude.{◌≡◌, ◌<◌, ◌≤◌, false, [], length, slice_get, slice_index, Some, None, IfOk, IfErr};
ghost use Rattle.lq_device.specs.Station.{StationState, HasAnswered, AreBandEnds, sent_list, initial_station, with_slot, with_device, with_ends};

use crate::device::TxDevice;
use lq_model::Tx;
use std::alloc::Global;
use std::marker::Model;
use std::mem::replace;

/// A unit's device, the requeue slot, and the consumer ends of the three bands' rings: what the kernel keeps in a
/// `Qdisc` and its driver for the holder of the run lock (include/net/sch_generic.h).
#[derive(Drop)]
struct Held<D: TxDevice> {
    device: D,
    /// The number of the device among the bench's.
    unit: u32,
    /// How many packets the device has accepted.
    sent: u32,
    /// The packet in the requeue slot.
    slot: Option<u32>,
    /// For each band the slot that is consumed next.
    heads: [u32; 3],
    /// For each band the first slot that isn't emptied yet: not past the head.
    tails: [u32; 3],
    last: Option<Tx>,
}

/// The same in a box, so that it changes places by its address.
#[derive(Drop)]
pub struct Station<D: TxDevice> {
    held: Box<Held<D>>,
}

impl<D: TxDevice> Model for Station<D> {
    ghost Value = { StationState };

    ghost view = { λ s. record { device = D.state s.held.value.device; unit = s.held.value.unit; slot = s.held.value.slot; heads = s.held.value.heads; tails = s.held.value.tails; last = s.held.value.last } };

    ghost invariant = { λ s. (s.held.value.sent ≡ length (D.state s.held.value.device).accepted) × AreBandEnds s.held.value.heads s.held.value.tails };
}

impl<D: TxDevice> Station<D> {
    /// A station of this unit with nothing sent, an empty requeue slot, and every head and tail 0. The device must
    /// have accepted nothing, and not hang.
    pub fn new(alloc: Global, unit: u32, device: D) -> Result<Station<D>, D>
        requires fresh { (D.state device).accepted ≡ [] }
        requires alive { (D.state device).hung ≡ false }
        ensures ok { IfOk result (λ st. st ≡ initial_station unit (D.state device)) }
        ensures err { IfErr result (λ d. D.state d ≡ D.state device) }
    {
        let held = Held {
            device,
            unit,
            sent: 0,
            slot: None,
            heads: [0; 3],
            tails: [0; 3],
            last: None,
        };
        match Box::new(alloc, held) {
            Ok(held) => Ok(Station { held }),
            Err(failed) => {
                let Held {
                    device,
                    unit: _,
                    sent: _,
                    slot: _,
                    heads: _,
                    tails: _,
                    last: _,
                } = failed.value;
                Err(device)
            }
        }
    }

    /// The number of its device.
    pub fn unit(&self) -> u32
        ensures { result ≡ self.now.unit }
    {
        self.held.unit
    }

    /// How many packets its device has accepted: the serial number of the next one.
    pub fn sent(&self) -> u32
        ensures { result ≡ length (sent_list self.now) }
    {
        self.held.sent
    }

    /// Whether its device hangs.
    pub fn hung(&self) -> bool
        ensures { result ≡ self.now.device.hung }
    {
        self.held.device.hung()
    }

    /// The packet in the requeue slot, `gso_skb` and `skb_bad_txq` of a `Qdisc`: `None` exactly where it is empty.
    pub fn slot(&self) -> Option<u32>
        ensures { result ≡ self.now.slot }
    {
        self.held.slot
    }

    /// Puts a packet into the requeue slot, which must be empty, as `dev_requeue_skb` of net/sched/sch_generic.c does
    /// with one that the device didn't accept.
    pub fn set_slot(&mut self, n: u32)
        requires { self.old.slot ≡ None }
        ensures { self.new ≡ with_slot self.old (Some n) }
    {
        self.held.slot = Some(n);
    }

    /// Takes the packet from the requeue slot: `None` exactly where it is empty.
    pub fn take_slot(&mut self) -> Option<u32>
        ensures taken { result ≡ self.old.slot }
        ensures empty { self.new ≡ with_slot self.old None }
    {
        self.held.slot.take()
    }

    /// The slot of a band's ring that is consumed next, `consumer_head` of a `ptr_ring` (include/linux/ptr_ring.h).
    pub fn head(&self, band: u32) -> u32
        requires { band < 3 }
        ensures { slice_get self.now.heads band ≡ Some result }
    {
        self.held.heads[band as usize]
    }

    /// The first slot of a band's ring that isn't emptied yet, `consumer_tail` of a `ptr_ring`. It isn't past the
    /// head.
    pub fn tail(&self, band: u32) -> u32
        requires { band < 3 }
        ensures tail { slice_get self.now.tails band ≡ Some result }
        ensures within { result ≤ slice_index self.now.heads band }
    {
        self.held.tails[band as usize]
    }

    /// Sets a band's head and tail; the tail must not be past the head.
    pub fn set_ends(&mut self, band: u32, head: u32, tail: u32)
        requires band { band < 3 }
        requires order { tail ≤ head }
        ensures { self.new ≡ with_ends self.old band head tail }
    {
        self.held.heads[band as usize] = head;
        self.held.tails[band as usize] = tail;
    }

    /// What the device answered last: `None` until it has answered.
    pub fn last(&self) -> Option<Tx>
        ensures { result ≡ self.now.last }
    {
        self.held.last
    }

    /// Offers the device a packet, on this one of its queues. The caller owes that the device has room and doesn't hang,
    /// and that the count of what is sent can still rise.
    pub fn xmit(&mut self, queue: u32, n: u32) -> Tx
        requires room { 0 < self.old.device.spare }
        requires alive { self.old.device.hung ≡ false }
        requires countable { length (sent_list self.old) < 4294967295 }
        ensures { HasAnswered result queue n self.old self.new }
    {
        let answer = self.held.device.xmit(queue, n);
        self.held.last = Some(answer);
        match answer {
            Tx::Sent | Tx::SentStop | Tx::SentHang => self.held.sent += 1,
            Tx::Busy => {}
        }
        answer
    }

    /// Takes over another unit's device and hands out the old one as it is. The new one must have accepted nothing, and not
    /// hang. Nothing is sent of it yet and it hasn't answered; the requeue slot and the ends stay.
    pub fn change(&mut self, unit: u32, device: D) -> D
        requires fresh { (D.state device).accepted ≡ [] }
        requires alive { (D.state device).hung ≡ false }
        ensures old { D.state result ≡ self.old.device }
        ensures new { self.new ≡ with_device self.old unit (D.state device) }
    {
        self.held.unit = unit;
        self.held.sent = 0;
        self.held.last = None;
        replace(&mut self.held.device, device)
    }

    /// Hands out the device as it is.
    pub fn into_device(self) -> D
        ensures { D.state result ≡ self.device }
    {
        let Held {
            device,
            unit: _,
            sent: _,
            slot: _,
            heads: _,
            tails: _,
            last: _,
        } = Box::into_inner(self.held);
        device
    }
}
