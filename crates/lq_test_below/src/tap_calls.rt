//! The tap on one thread, slot by slot: with memory, and where nobody else has a lock, no call refuses without a cause.
ghost use Rattle.std.specs.Prelude.{◌≡◌, ◌+◌, ◌≤◌, Ok};
ghost use Rattle.lq_tap.specs.Sees.{IsSenderBefore};

use crate::plain::with_memory;
use lq_ring_core::Full;
use lq_tap::{Tap, TapSeat, end_sender, ended, get_batch, give_back, put};
use std::process::Abort;
use std::sync::Wait;

/// Puts so many packets of the only sender, each with room.
fn put_some<R: Wait + Abort>(rt: &R, tap: &Tap, seat: &mut TapSeat, first: u32, count: u32)
    requires tap { (tap.now.senders ≡ 1) × (first + count ≤ tap.now.packets) × (tap.now.packets ≤ 1000000) }
    requires seat { IsSenderBefore tap.now first seat.old }
    ensures seat { IsSenderBefore tap.now (first + count) seat.new }
{
    for n in first..first + count {
        assert_eq!(rt; put(rt, tap, seat, n), Ok(()));
    }
}

#[test]
fn the_first_of_a_batch_are_destroyed(rt: HostRuntime) {
    let (tap, mut reader) = with_memory(&rt, Tap::make(rt.alloc(), 9, 6, 1));
    let mut sender = tap.split(&mut reader, 0);
    put_some(&rt, &tap, &mut sender, 0, 6);
    let mut out = [9; 6];
    let taken = get_batch(&rt, &tap, &mut reader, &mut out[..4]);
    assert_eq!(rt; taken, 4);
    assert_eq!(rt; out, [0, 1, 2, 3, 9, 9]);
    put_some(&rt, &tap, &mut sender, 6, 2);
    let lost = give_back(&rt, &tap, &mut reader, &out[..4]);
    assert_eq!(rt; lost, 2);
    assert_eq!(rt; put(&rt, &tap, &mut sender, 8), Err(Full { seen: 2 }));
    assert_eq!(rt; get_batch(&rt, &tap, &mut reader, &mut out), 6);
    assert_eq!(rt; out, [2, 3, 4, 5, 6, 7]);
    assert!(rt; !ended(&tap, &mut reader));
    end_sender(&tap, &mut sender);
    assert!(rt; ended(&tap, &mut reader));
    assert_eq!(rt; get_batch(&rt, &tap, &mut reader, &mut out), 0);
    tap.join(&mut reader, sender);
}

#[test]
fn giving_back_empties_the_slots_of_what_was_read(rt: HostRuntime) {
    let (tap, mut reader) = with_memory(&rt, Tap::make(rt.alloc(), 34, 32, 1));
    let mut sender = tap.split(&mut reader, 0);
    put_some(&rt, &tap, &mut sender, 0, 32);
    let mut read = [99; 8];
    assert_eq!(rt; get_batch(&rt, &tap, &mut reader, &mut read), 8);
    let mut rest = [99; 7];
    assert_eq!(rt; get_batch(&rt, &tap, &mut reader, &mut rest), 7);
    assert_eq!(rt; put(&rt, &tap, &mut sender, 32), Err(Full { seen: 0 }));
    let lost = give_back(&rt, &tap, &mut reader, &rest);
    assert_eq!(rt; lost, 0);
    assert_eq!(rt; put(&rt, &tap, &mut sender, 33), Ok(()));
    let mut next = [99; 1];
    assert_eq!(rt; get_batch(&rt, &tap, &mut reader, &mut next), 1);
    assert_eq!(rt; next, [8]);
}
