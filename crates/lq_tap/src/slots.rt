//! The steps on the slots of the ring.
ghost use Rattle.std.specs.Prelude.{◌≡◌, ◌≢◌, ℕ, ◌+◌, ◌-◌, ◌<◌, ◌≤◌, true, false, List, [], ◌∷◌, ◌++◌, length};
ghost use Rattle.lq_band_laws.specs.Ring.{having_stored, all_empty, IsAtRest};
ghost use Rattle.lq_tap.specs.Made.{◌⊳◌, did_load_slot, did_store_slot};
ghost use Rattle.lq_tap.specs.Told.{having_put, having_found_full, with_lock, with_ends};
ghost use Rattle.lq_tap.specs.Told.{finding_room, finding_none, taking, destroying, putting_back};
ghost use Rattle.lq_tap.specs.Views.{AreFew};
ghost use Rattle.lq_tap.specs.Steps.{emptied_below};
ghost use Rattle.lq_tap.specs.Sees.{view, Makes, HasConsumer, MayPutAt, MayReturnAt};

use crate::shared::{Tap, TapSeat};
use std::marker::Brand;

/// The word of the first slot.
const SLOTS: usize = 32;

impl Tap {
    /// What stands in the slot at the producer index: the look of `__ptr_ring_produce` at `queue[producer]`. Where it is not 0 the
    /// sender's next packet is full.
    pub(crate) fn producer_slot(&self, seat: &mut TapSeat, index: u32) -> u64
        requires { MayPutAt self.now index seat.old }
        ensures room { result ≡ 0 → Makes finding_room (λ s. s ⊳ did_load_slot index 0) seat.old seat.new }
        ensures full { result ≢ 0
            → Makes (λ v. having_found_full v.sender.next (result - 1) v) (λ s. s ⊳ did_load_slot index result) seat.old seat.new
            × (result - 1 ≢ (view seat.old).sender.next) × (result ≤ self.now.packets) }
    {
        self.table
            .load::<Brand, _>(&mut seat.seat, SLOTS + index as usize, &())
    }

    /// Stores the sender's next packet there, where it was loaded as 0 under the producer lock.
    pub(crate) fn store_slot(&self, seat: &mut TapSeat, index: u32, n: u32)
        requires seat { MayPutAt self.now index seat.old }
        requires packet { (view seat.old).sender.next ≡ n }
        requires room { (view seat.old).lock.room ≡ true }
        ensures { Makes (λ v. with_lock (having_stored v.lock) (having_put n v)) (λ s. s ⊳ did_store_slot index (n + 1)) seat.old seat.new }
    {
        self.table
            .store::<Brand, _>(&mut seat.seat, SLOTS + index as usize, n as u64 + 1, &());
    }

    /// What stands in the slot at the head: the look of `__ptr_ring_consume` at `queue[consumer_head]`. Where it is not 0 its packet
    /// is taken.
    pub(crate) fn head_slot(&self, seat: &mut TapSeat, head: u32) -> u64
        requires seat { HasConsumer self.now seat.old }
        requires rests { IsAtRest self.now.len (view seat.old).reader.ends × (head ≡ (view seat.old).reader.ends.head) }
        ensures none { result ≡ 0 → Makes finding_none (λ s. s ⊳ did_load_slot head 0) seat.old seat.new }
        ensures taken { result ≢ 0 → Makes (taking (result - 1)) (λ s. s ⊳ did_load_slot head result) seat.old seat.new
            × (result ≤ self.now.packets) }
        ensures few { AreFew (view seat.new) }
    {
        self.table
            .load::<Brand, _>(&mut seat.seat, SLOTS + head as usize, &())
    }

    /// Empties the slots below the head, down to the tail: the loop of `__ptr_ring_discard_one` after a batch was taken, and that of
    /// `ptr_ring_unconsume`.
    pub(crate) fn zero_down(&self, seat: &mut TapSeat, tail: u32, head: u32)
        requires seat { HasConsumer self.now seat.old }
        requires ends { (view seat.old).reader.ends ≡ record { head = head; tail = tail; edge = head } }
        requires within { (tail ≤ head) × (tail < self.now.len) × (head ≤ self.now.len) }
        ensures { Makes (λ v. with_ends (all_empty self.now.len v.reader.ends) v) (emptied_below head (head - tail)) seat.old seat.new }
    {
        for n in 0..head - tail {
            self.table
                .store::<Brand, _>(&mut seat.seat, SLOTS + (head - 1 - n) as usize, 0, &());
        }
    }

    /// What stands in the slot before the head, once no slot of a packet that was taken has anything. Where it is not 0 the packets
    /// that are left to be put back are destroyed.
    pub(crate) fn slot_before(&self, seat: &mut TapSeat, place: u32, left: usize) -> u64
        requires seat { MayReturnAt self.now place seat.old }
        requires left { (0 < left) × (left ≤ length (view seat.old).reader.batch) }
        ensures room { result ≡ 0 → Makes finding_room (λ s. s ⊳ did_load_slot place 0) seat.old seat.new }
        ensures full { result ≢ 0 → Makes (destroying left) (λ s. s ⊳ did_load_slot place result) seat.old seat.new }
    {
        self.table
            .load::<Brand, _>(&mut seat.seat, SLOTS + place as usize, &left)
    }

    /// Puts the last packet of the batch there, where it was loaded as 0 under both locks.
    pub(crate) fn store_before(&self, seat: &mut TapSeat, place: u32, n: u32)
        requires seat { MayReturnAt self.now place seat.old }
        requires room { (view seat.old).lock.room ≡ true }
        requires last { (rest : List ℕ) × ((view seat.old).reader.batch ≡ rest ++ n ∷ []) }
        ensures { Makes putting_back (λ s. s ⊳ did_store_slot place (n + 1)) seat.old seat.new }
    {
        self.table
            .store::<Brand, _>(&mut seat.seat, SLOTS + place as usize, n as u64 + 1, &());
    }
}
