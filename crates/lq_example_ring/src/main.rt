//! A ring of four slots on one thread: an entry that finds no slot is refused, and the others are taken in the order in which they were put.
#![tactic(auto)]

ghost use Rattle.std.specs.Prelude.{◌≡◌, ◌<◌, length, min, take};

use lq_ring_core::Ring;
use std::io;

/// How many slots the ring has.
const SLOTS: u32 = 4;

/// Puts the entries from `first` on, before `end`, and prints what becomes of each.
fn put_all(rt: &HostRuntime, ring: &mut Ring, first: u32, end: u32) -> io::Result<()>
    requires { end < 4294967295 }
{
    for n in first..end {
        match ring.produce(n) {
            Ok(()) => println!(rt; "{n} is put")?,
            Err(full) => println!(rt; "{n} is refused: {} is in its slot", full.seen)?,
        }
    }
    Ok(())
}

/// Takes the oldest entries, as many as fit, to the front of `out`. A contract of your own rests on those of the ring.
fn take_oldest(ring: &mut Ring, out: &mut [u32]) -> usize
    ensures count { result ≡ min (length out.old) (length ring.old.held) }
    ensures oldest { take result out.new ≡ take result ring.old.held }
{
    ring.consume_batched(out)
}

/// Takes as many entries as there are, but at most four, and prints them.
fn take_some(rt: &HostRuntime, ring: &mut Ring) -> io::Result<()> {
    let mut out = [0; 4];
    let taken = take_oldest(ring, &mut out);
    for n in &out[..taken] {
        println!(rt; "{n} is taken")?;
    }
    Ok(())
}

fn main(rt: HostRuntime) -> io::Result<()> {
    let Ok(mut ring) = Ring::new(rt.alloc(), SLOTS, SLOTS) else {
        return println!(rt; "there is no memory for a ring");
    };
    put_all(&rt, &mut ring, 0, 6)?;
    take_some(&rt, &mut ring)?;
    put_all(&rt, &mut ring, 6, 8)?;
    take_some(&rt, &mut ring)
}
