//! Giving back: `ptr_ring_unconsume` of include/linux/ptr_ring.h, which `vhost_net_buf_unproduce` of drivers/vhost/net.c calls.
ghost use Rattle.std.specs.Prelude.{◌≡◌, ◌+◌, ◌-◌, ◌<◌, ◌≤◌, ℕ, true, false, List, [], ◌∷◌, ◌++◌, length, drop};
ghost use Rattle.lq_band_laws.specs.Ring.{cleared_at};
ghost use Rattle.lq_tap.specs.Told.{having_given_back, place_back, without_batch};
ghost use Rattle.lq_tap.specs.Steps.{GivesBack, PutsBack};
ghost use Rattle.lq_tap.specs.Sees.{view, steps, IsReaderOf, IsElseSame, HasConsumer};

use crate::shared::{Tap, TapSeat};
use crate::view::{Consumer, Purpose};
use lq_ring_core::place_before;
use std::sync::Wait;

impl Tap {
    /// Puts the packets back from the last one to the first, each before the head, until the slot there is not empty: then the packet
    /// and those before it are destroyed. It answers how many these are, and where the head is.
    fn put_all_back(&self, seat: &mut TapSeat, first: u32, batch: &[u32]) -> (usize, u32)
        requires seat { HasConsumer self.now seat.old }
        requires lock { ((view seat.old).lock.holds ≡ true) × ((view seat.old).lock.stored ≡ false) × ((view seat.old).lock.room ≡ false) }
        requires clear { ((view seat.old).reader.ends ≡ cleared_at first) × (first < self.now.len) }
        requires batch { (read : List ℕ) × ((view seat.old).reader.batch ≡ read ++ batch.now) }
        ensures same { IsElseSame seat.old seat.new × ((view seat.new).lock ≡ (view seat.old).lock) }
        ensures count { result.0 ≤ length batch.now }
        ensures head { result.1 ≡ place_back self.now.len first (length batch.now - result.0) }
        ensures clear { ((view seat.new).reader.ends ≡ cleared_at result.1) × (result.1 < self.now.len) }
        ensures view { without_batch (view seat.new) ≡ having_given_back batch.now result.0 (view seat.old) }
        ensures steps { PutsBack self.now.len first (drop result.0 batch.now) result.0 (steps seat.old) (steps seat.new) }
    {
        let mut head = first;
        let mut left = batch.len();
        while left > 0 {
            let place = place_before(head, self.len);
            if self.slot_before(seat, place, left) != 0 {
                return (left, head);
            }
            self.store_before(seat, place, batch[left - 1]);
            head = place;
            left -= 1;
        }
        (0, head)
    }
}

/// Puts back what was not read of the last batch, as `ptr_ring_unconsume`, under the consumer lock and then the producer lock, for
/// which it may wait: the last packet first, so that those which find no slot are at the front of `batch`. They are destroyed; it
/// answers how many.
///
/// Some are destroyed only where, once all slots of packets that were taken are empty, the slot before the head was loaded and was
/// not 0. The head stands then at the first packet that was put back, if any.
pub fn give_back<R: Wait>(rt: &R, tap: &Tap, seat: &mut TapSeat, batch: &[u32]) -> usize
    requires seat { IsReaderOf tap.now seat.old }
    requires batch { (read : List ℕ) × ((view seat.old).reader.batch ≡ read ++ batch.now) }
    ensures seat { IsReaderOf tap.now seat.new }
    ensures count { result ≤ length batch.now }
    ensures view { view seat.new ≡ having_given_back batch.now result (view seat.old) }
    ensures steps { GivesBack tap.now.len (view seat.old).reader.ends (drop result batch.now) result (steps seat.old) (steps seat.new) }
{
    tap.lock_consumer(rt, seat, Purpose::Return);
    let index = tap.lock_producer(rt, seat);
    let ends = tap.exchange_ends(seat, Consumer { head: 0, tail: 0 });
    tap.zero_down(seat, ends.tail, ends.head);
    let (lost, head) = tap.put_all_back(seat, ends.head, batch);
    tap.exchange_ends(seat, Consumer { head, tail: head });
    tap.give_producer(seat, index);
    tap.give_consumer(seat, Purpose::Return);
    lost
}
