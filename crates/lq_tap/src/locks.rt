//! The two locks of a `ptr_ring`: `producer_lock`, whose word has the producer index too, and `consumer_lock`.
ghost use Rattle.std.specs.Prelude.{◌≡◌, ◌/◌, ◌%◌, ◌<◌, true, false, [], ◌∷◌};
ghost use Rattle.lq_band_laws.specs.Ring.{unlocked, locked_at, index_given, IsAtRest};
ghost use Rattle.lq_tap.specs.Made.{◌⊳◌, did_load_producer, did_take_producer, did_give_producer, did_take_consumer, did_give_consumer};
ghost use Rattle.lq_tap.specs.Told.{with_lock, with_consumer};
ghost use Rattle.lq_tap.specs.Rule.{consumer_of};
ghost use Rattle.lq_tap.specs.Steps.{LocksProducer, LocksConsumer};
ghost use Rattle.lq_tap.specs.Sees.{view, steps, slot, IsSeatOf, IsSameSeat, IsElseSame, Makes, GetsConsumer, HasConsumer};

use crate::shared::{Tap, TapSeat};
use crate::view::{Consumer, Purpose};
use crossbeam_utils::Backoff;
use std::marker::Brand;
use std::sync::Wait;

/// The word of the producer lock, apart from those of the consumer, of the ends and of the slots by a cache line.
const PRODUCER: usize = 8;

const CONSUMER: usize = 16;

impl Tap {
    /// Twice the producer index, plus 1 while the producer lock is held: a load of the producer word.
    fn load_producer(&self, seat: &mut TapSeat) -> u64
        requires seat { IsSeatOf self.now seat.old }
        ensures { Makes (λ v. v) (λ s. s ⊳ did_load_producer result) seat.old seat.new }
    {
        self.table.load::<Brand, _>(&mut seat.seat, PRODUCER, &())
    }

    /// Takes the producer lock where its word is still `seen`, which is even: an exchange of the producer word.
    fn take_producer(&self, seat: &mut TapSeat, seen: u64) -> bool
        requires seat { IsSeatOf self.now seat.old }
        requires even { seen % 2 ≡ 0 }
        requires free { (view seat.old).lock.holds ≡ false }
        ensures got { result ≡ true → Makes (with_lock (locked_at (seen / 2))) (λ s. s ⊳ did_take_producer seen true) seat.old seat.new
            × (seen / 2 < self.now.len) }
        ensures missed { result ≡ false → Makes (λ v. v) (λ s. s ⊳ did_take_producer seen false) seat.old seat.new }
    {
        self.table
            .compare_exchange::<Brand, _>(&mut seat.seat, PRODUCER, seen, seen + 1, &())
            == seen
    }

    /// Gives the producer lock back, with the index for the next packet: a store into the producer word.
    pub(crate) fn give_producer(&self, seat: &mut TapSeat, index: u32)
        requires seat { IsSeatOf self.now seat.old }
        requires lock { (view seat.old).lock.holds ≡ true }
        requires index { index ≡ index_given self.now.len (view seat.old).lock }
        ensures { Makes (with_lock unlocked) (λ s. s ⊳ did_give_producer index) seat.old seat.new }
    {
        self.table
            .store::<Brand, _>(&mut seat.seat, PRODUCER, 2 * index as u64, &());
    }

    /// Waits for the producer lock, and gives the producer index under it.
    pub(crate) fn lock_producer<R: Wait>(&self, rt: &R, seat: &mut TapSeat) -> u32
        requires seat { IsSeatOf self.now seat.old }
        requires free { (view seat.old).lock ≡ unlocked }
        ensures same { IsElseSame seat.old seat.new }
        ensures locked { (view seat.new ≡ with_lock (locked_at result) (view seat.old)) × (result < self.now.len) }
        ensures steps { LocksProducer result (steps seat.old) (steps seat.new) }
    {
        let backoff = Backoff::new();
        for _ in rt.forever() {
            let seen = self.load_producer(seat);
            if seen % 2 == 0 {
                if self.take_producer(seat, seen) {
                    return (seen / 2) as u32;
                }
            }
            backoff.snooze();
        }
        unreachable!()
    }

    /// Takes the consumer lock for this purpose, where it is free: an exchange of the consumer word. The slot with the ends comes with
    /// it.
    fn take_consumer(&self, seat: &mut TapSeat, purpose: Purpose) -> bool
        requires seat { IsSeatOf self.now seat.old × ((view seat.old).reader.reads ≡ true) }
        ensures same { IsSameSeat seat.old seat.new }
        ensures got { result ≡ true → GetsConsumer self.now purpose seat.old seat.new }
        ensures missed { result ≡ false → (view seat.new ≡ view seat.old) × (slot seat.new ≡ slot seat.old) }
        ensures steps { steps seat.new ≡ steps seat.old ⊳ did_take_consumer result }
    {
        self.table
            .compare_exchange::<Brand, _>(&mut seat.seat, CONSUMER, 0, 1, &purpose)
            == 0
    }

    /// Waits for the consumer lock, and takes it for this purpose.
    pub(crate) fn lock_consumer<R: Wait>(&self, rt: &R, seat: &mut TapSeat, purpose: Purpose)
        requires seat { IsSeatOf self.now seat.old × ((view seat.old).reader.reads ≡ true) }
        ensures same { IsSameSeat seat.old seat.new }
        ensures locked { GetsConsumer self.now purpose seat.old seat.new }
        ensures steps { LocksConsumer (steps seat.old) (steps seat.new) }
    {
        let backoff = Backoff::new();
        for _ in rt.forever() {
            if self.take_consumer(seat, purpose) {
                return;
            }
            backoff.snooze();
        }
        unreachable!()
    }

    /// Gives back the consumer lock that was taken for this purpose, and the ends with it: a store of 0 into the consumer word.
    pub(crate) fn give_consumer(&self, seat: &mut TapSeat, purpose: Purpose)
        requires seat { HasConsumer self.now seat.old }
        requires ends { slot seat.old ≡ (0, consumer_of (view seat.old).reader.ends) ∷ [] }
        requires rest { IsAtRest self.now.len (view seat.old).reader.ends }
        ensures same { IsSameSeat seat.old seat.new × (slot seat.new ≡ []) }
        ensures given { view seat.new ≡ with_consumer purpose false (view seat.old) }
        ensures steps { steps seat.new ≡ steps seat.old ⊳ did_give_consumer }
    {
        self.table
            .store::<Brand, _>(&mut seat.seat, CONSUMER, 0, &purpose);
    }

    /// Reads and writes the ends in the slot, which is out with the consumer lock.
    pub(crate) fn exchange_ends(&self, seat: &mut TapSeat, ends: Consumer) -> Consumer
        requires seat { seat.old.seat.table_id ≡ self.now.table.kit.shared.table_id }
        requires lock { (was : Consumer) × (slot seat.old ≡ (0, was) ∷ []) }
        ensures same { IsSameSeat seat.old seat.new × (view seat.new ≡ view seat.old) × (steps seat.new ≡ steps seat.old) }
        ensures ends { (slot seat.old ≡ (0, result) ∷ []) × (slot seat.new ≡ (0, ends) ∷ []) }
    {
        let mut ends = ends;
        self.table.move_slot(&mut seat.seat, 0, &mut ends);
        ends
    }
}
