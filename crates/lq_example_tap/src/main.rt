//! Three senders, each on a thread of its own, put numbers into one ring, and a reader takes them in batches and gives the second half of each
//! batch back. The ring has room for all of them, so all are read, and those of each sender in its order: `tap_all` promises both. How the
//! senders' numbers mix differs from run to run.
#![tactic(auto)]

use lq_gate::{Free, Resources};
use lq_tap_run::tap_all;
use std::io;

const NUMBERS: u32 = 1000;

const SENDERS: u32 = 3;

const SLOTS: u32 = 1000;

const BATCH: u32 = 64;

/// How many of these numbers are a sender's, and whether they rise.
fn of_sender(read: &[u32], sender: u32) -> (u32, bool) {
    let mut count = 0u32;
    let mut last = None;
    let mut rises = true;
    for n in read {
        if *n % SENDERS == sender {
            rises = rises && last < Some(*n);
            last = Some(*n);
            count = count.saturating_add(1);
        }
    }
    (count, rises)
}

fn main(rt: HostRuntime) -> io::Result<()> {
    let on = Resources {
        rt: &rt,
        alloc: rt.alloc(),
        gate: &Free,
    };
    let Ok(tapped) = tap_all(&on, NUMBERS, SENDERS, SLOTS, BATCH) else {
        return println!(rt; "there is no memory for the ring");
    };
    for sender in 0..SENDERS {
        let (count, rises) = of_sender(&tapped.read, sender);
        println!(rt; "sender {sender}: {count} numbers, in its order: {rises}")?;
    }
    Ok(())
}
