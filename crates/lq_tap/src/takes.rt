//! Batches: `ptr_ring_consume_batched` of include/linux/ptr_ring.h, which `vhost_net_buf_produce` of drivers/vhost/net.c calls.
ghost use Rattle.std.specs.Prelude.{◌≡◌, ◌+◌, ◌<◌, ◌≤◌, true, [], length, take, drop, All};
ghost use Rattle.lq_band_laws.specs.Ring.{taken_on, after_take, IsAtRest};
ghost use Rattle.lq_tap.specs.Told.{having_taken, with_ends, rest_at};
ghost use Rattle.lq_tap.specs.Views.{AreFew};
ghost use Rattle.lq_tap.specs.Rule.{consumer_of};
ghost use Rattle.lq_tap.specs.Steps.{GetsBatch, TakesAll, emptied_below, emptied_after};
ghost use Rattle.lq_tap.specs.Sees.{view, steps, Makes, IsReaderOf, IsElseSame, HasConsumer};

use crate::shared::{Tap, TapSeat};
use crate::view::{Consumer, Purpose};
use lq_model::batch;
use std::sync::Wait;

impl Tap {
    /// What `__ptr_ring_discard_one` does after a take from these ends: where a batch was taken, or the last slot, the slots are
    /// emptied. It answers the new ends.
    fn discard_one(&self, seat: &mut TapSeat, ends: Consumer) -> Consumer
        requires seat { HasConsumer self.now seat.old }
        requires ends { ((view seat.old).reader.ends ≡ taken_on (rest_at ends)) × IsAtRest self.now.len (rest_at ends) }
        ensures made { Makes (with_ends (after_take self.now.len (rest_at ends)))
            (emptied_below (ends.head + 1) (emptied_after self.now.len (rest_at ends))) seat.old seat.new }
        ensures ends { (result ≡ consumer_of (after_take self.now.len (rest_at ends)))
            × IsAtRest self.now.len (after_take self.now.len (rest_at ends)) }
    {
        let head = ends.head + 1;
        if ends.tail + batch(self.len) <= head || head == self.len {
            self.zero_down(seat, ends.tail, head);
            let end = if head == self.len { 0 } else { head };
            Consumer {
                head: end,
                tail: end,
            }
        } else {
            Consumer {
                head,
                tail: ends.tail,
            }
        }
    }

    /// Takes packets to the front of `out`, until it is full or none is there. It answers how many, and the new ends.
    fn take_all(&self, seat: &mut TapSeat, first: Consumer, out: &mut [u32]) -> (usize, Consumer)
        requires seat { HasConsumer self.now seat.old }
        requires begins { (view seat.old).reader.batch ≡ [] }
        requires ends { ((view seat.old).reader.ends ≡ rest_at first) × IsAtRest self.now.len (rest_at first) }
        requires out { 0 < length out.old }
        ensures same { IsElseSame seat.old seat.new }
        ensures count { result.0 ≤ length out.old }
        ensures out { (length out.new ≡ length out.old) × (drop result.0 out.new ≡ drop result.0 out.old) }
        ensures view { view seat.new ≡ having_taken (take result.0 out.new) (view seat.old) }
        ensures steps { TakesAll self.now.len (rest_at first) (take result.0 out.new) (length out.old) (steps seat.old) (steps seat.new) }
        ensures packets { All (λ n. n < self.now.packets) (take result.0 out.new) }
        ensures few { AreFew (view seat.new) }
        ensures ends { ((view seat.new).reader.ends ≡ rest_at result.1) × IsAtRest self.now.len (rest_at result.1) }
    {
        let mut ends = first;
        let mut taken = 0;
        while taken < out.len() {
            let found = self.head_slot(seat, ends.head);
            if found == 0 {
                return (taken, ends);
            }
            ends = self.discard_one(seat, ends);
            out[taken] = (found - 1) as u32;
            taken += 1;
        }
        (taken, ends)
    }
}

/// Takes the oldest packets of the ring to the front of `out`, until it is full or nothing is in the ring, as
/// `ptr_ring_consume_batched`, under the consumer lock, for which it may wait. It answers how many.
///
/// Fewer than `out` has places come only where the slot at the head, behind the packets taken, was loaded as 0 in this call.
pub fn get_batch<R: Wait>(rt: &R, tap: &Tap, seat: &mut TapSeat, out: &mut [u32]) -> usize
    requires seat { IsReaderOf tap.now seat.old }
    requires out { (0 < length out.old) × (length out.old ≤ 64) }
    ensures seat { IsReaderOf tap.now seat.new }
    ensures count { result ≤ length out.old }
    ensures out { (length out.new ≡ length out.old) × (drop result out.new ≡ drop result out.old) }
    ensures view { view seat.new ≡ having_taken (take result out.new) (view seat.old) }
    ensures steps { GetsBatch tap.now.len (view seat.old).reader.ends (take result out.new) (length out.old)
        (steps seat.old) (steps seat.new) }
    ensures packets { All (λ n. n < tap.now.packets) (take result out.new) }
    ensures few { AreFew (view seat.new) }
{
    tap.lock_consumer(rt, seat, Purpose::Batch);
    let first = tap.exchange_ends(seat, Consumer { head: 0, tail: 0 });
    let (taken, ends) = tap.take_all(seat, first, out);
    tap.exchange_ends(seat, ends);
    tap.give_consumer(seat, Purpose::Batch);
    taken
}
