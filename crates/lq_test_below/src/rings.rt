//! Batches of stale slots, unconsume and resize, slot by slot.
ghost use Rattle.std.specs.Prelude.{◌≡◌, ◌+◌, ◌<◌};

use lq_model::batch;
use lq_ring_core::{Dropped, Full, Ring, RingRefusal, resize_three};
use std::process::Abort;

// A ring of so many slots that holds nothing.
fn empty(rt: &(impl Abort + AllocGlobal), size: u32) -> Ring
    requires { size < 100 }
    ensures size { result.size ≡ size }
    ensures max_size { result.max_size ≡ size }
{
    Ring::new(rt.alloc(), size, size).ok().expect(rt, "a ring")
}

// Puts a number in, where the ring must have room, or none as the answer says.
fn put(rt: &impl Abort, ring: &mut Ring, n: u32, answer: Result<(), Full>)
    requires { n < 100 }
{
    assert_eq!(rt; (n, ring.produce(n)), (n, answer));
}

// Puts the numbers from the first to before the end in.
fn put_all(rt: &impl Abort, ring: &mut Ring, first: u32, end: u32)
    requires { end < 100 }
{
    for n in first..end {
        put(rt, ring, n, Ok(()));
    }
}

fn expect_next(rt: &impl Abort, ring: &mut Ring, n: u32) {
    assert_eq!(rt; ring.consume(), Some(n));
}

// Takes the numbers from the first to before the end out.
fn expect_all(rt: &impl Abort, ring: &mut Ring, first: u32, end: u32) {
    for n in first..end {
        expect_next(rt, ring, n);
    }
}

#[test]
fn a_batch_of_stale_slots_refuses(rt: HostRuntime) {
    let mut ring = empty(&rt, 32);
    put_all(&rt, &mut ring, 0, 32);
    expect_all(&rt, &mut ring, 0, 15);
    put(&rt, &mut ring, 32, Err(Full { seen: 0 }));
    expect_next(&rt, &mut ring, 15);
    put(&rt, &mut ring, 32, Ok(()));
    assert_eq!(rt; (ring.peek(), ring.size()), (Some(16), 32));
}

#[test]
fn batches(rt: HostRuntime) {
    let found = (batch(1), batch(31), batch(32), batch(4096));
    assert_eq!(rt; found, (1, 1, 16, 16));
}

#[test]
fn no_slots(rt: HostRuntime) {
    let refusal = Ring::new(rt.alloc(), 0, 8).err();
    assert_eq!(rt; refusal, Some(RingRefusal::ZeroSize));
}

// Takes four numbers in one batch.
fn expect_four(rt: &impl Abort, ring: &mut Ring, numbers: [u32; 4]) {
    let mut taken = [0; 4];
    let count = ring.consume_batched(&mut taken);
    assert_eq!(rt; (count, taken), (4, numbers));
}

#[test]
fn unconsume_destroys_what_finds_no_slot(rt: HostRuntime) {
    let mut ring = empty(&rt, 6);
    put_all(&rt, &mut ring, 1, 7);
    expect_four(&rt, &mut ring, [1, 2, 3, 4]);
    put_all(&rt, &mut ring, 7, 9);
    assert_eq!(rt; ring.unconsume(&[1, 2, 3, 4]), 2);
    expect_all(&rt, &mut ring, 3, 9);
    assert_eq!(rt; ring.consume(), None);
}

// A ring of eight slots that holds so many numbers.
fn filled(rt: &(impl Abort + AllocGlobal), first: u32, count: u32) -> Ring
    requires { first + count < 100 }
    ensures size { result.size ≡ 8 }
    ensures max_size { result.max_size ≡ 8 }
{
    let mut ring = empty(rt, 8);
    for n in first..first + count {
        ring.produce(n).expect(rt, "room");
    }
    ring
}

// What three rings of eight slots drop when they shrink to two, with 99 where nothing was dropped.
fn shrunk(a: &mut Ring, b: &mut Ring, c: &mut Ring) -> (Dropped, [u32; 24])
    requires a { (a.old.size ≡ 8) × (a.old.max_size ≡ 8) }
    requires b { (b.old.size ≡ 8) × (b.old.max_size ≡ 8) }
    requires c { (c.old.size ≡ 8) × (c.old.max_size ≡ 8) }
{
    let mut dropped = [99; 24];
    let counts = resize_three(a, b, c, 2, &mut dropped);
    (counts, dropped)
}

const DROPPED: [u32; 24] = [
    12, 13, 14, 32, 99, 99, 99, 99, 99, 99, 99, 99, 99, 99, 99, 99, 99, 99, 99, 99, 99, 99, 99, 99,
];

#[test]
fn three_rings_shrink(rt: HostRuntime) {
    let mut a = filled(&rt, 10, 5);
    let mut b = filled(&rt, 20, 0);
    let mut c = filled(&rt, 30, 3);
    let found = shrunk(&mut a, &mut b, &mut c);
    assert_eq!(rt; found, (Dropped { a: 3, b: 0, c: 1 }, DROPPED));
    expect_all(&rt, &mut a, 10, 12);
    assert_eq!(rt; (a.peek(), b.peek()), (None, None));
    put(&rt, &mut c, 33, Err(Full { seen: 30 }));
}
