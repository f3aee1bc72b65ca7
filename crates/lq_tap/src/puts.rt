//! Puts by the senders: `ptr_ring_produce` of include/linux/ptr_ring.h, which `tap_handle_frame` of drivers/net/tap.c calls.
ghost use Rattle.std.specs.Prelude.{◌≡◌, ◌≢◌, ◌<◌, true, MatchResult, IfErr};
ghost use Rattle.lq_tap.specs.Told.{having_put, having_found_full};
ghost use Rattle.lq_tap.specs.Steps.{Puts, FindsFull};
ghost use Rattle.lq_tap.specs.Sees.{view, steps, IsSenderOf};

use crate::shared::{Tap, TapSeat};
use lq_ring_core::{Full, next_place};
use std::sync::Wait;

/// Puts the sender's next packet, as `ptr_ring_produce`, under the producer lock, for which it may wait.
///
/// It is full exactly where the slot at the producer index, loaded under the lock, has another packet, which `seen` names. Nothing
/// is stored then, and the packet is not put later either.
pub fn put<R: Wait>(rt: &R, tap: &Tap, seat: &mut TapSeat, n: u32) -> Result<(), Full>
    requires seat { IsSenderOf tap.now seat.old }
    requires packet { ((view seat.old).sender.going ≡ true) × ((view seat.old).sender.next ≡ n) × (n < tap.now.packets) }
    ensures seat { IsSenderOf tap.now seat.new }
    ensures view { MatchResult result (λ _. view seat.new ≡ having_put n (view seat.old))
        (λ full. view seat.new ≡ having_found_full n full.seen (view seat.old)) }
    ensures steps { MatchResult result (λ _. Puts tap.now.len n (steps seat.old) (steps seat.new))
        (λ full. FindsFull full.seen (steps seat.old) (steps seat.new)) }
    ensures other { IfErr result (λ full. (full.seen ≢ n) × (full.seen < tap.now.packets)) }
{
    let index = tap.lock_producer(rt, seat);
    let found = tap.producer_slot(seat, index);
    if found != 0 {
        tap.give_producer(seat, index);
        return Err(Full {
            seen: (found - 1) as u32,
        });
    }
    tap.store_slot(seat, index, n);
    tap.give_producer(seat, next_place(index, tap.len));
    Ok(())
}
