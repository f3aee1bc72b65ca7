//! The taps of the runs.
use lq_pcap::gen_capture;
use lq_test_fixture::{TapCounts, TapShape, call, check_tap, host_with, unheld};
use lq_top::Status;
use std::marker::Sync;
use std::rt::Runtime;
use std::sync::Wait;
use std::test::Fail;
use std::thread::Threads;

/// A tap of eight senders: the slots of its ring, as a number and as a word, and the packets of a batch.
#[derive(Clone, Copy)]
struct Tap {
    len: usize,
    slots: &'static str,
    batch: &'static str,
}

/// Short rings and long ones, which are emptied by the batch, with batches of less, as many and more packets.
const TAPS: [Tap; 4] = [
    Tap {
        len: 4,
        slots: "4",
        batch: "4",
    },
    Tap {
        len: 7,
        slots: "7",
        batch: "64",
    },
    Tap {
        len: 64,
        slots: "64",
        batch: "24",
    },
    Tap {
        len: 1000,
        slots: "1000",
        batch: "64",
    },
];

/// How many packets the taps of some rounds read, dropped at full rings, and lost.
#[derive(Clone, Copy)]
pub struct TapSum {
    pub taps: u64,
    pub read: u64,
    pub full: u64,
    pub lost: u64,
}

impl TapSum {
    pub fn none() -> TapSum {
        TapSum {
            taps: 0,
            read: 0,
            full: 0,
            lost: 0,
        }
    }

    fn with(self, counts: TapCounts) -> TapSum {
        TapSum {
            taps: self.taps.saturating_add(1),
            read: self.read.saturating_add(counts.read as u64),
            full: self.full.saturating_add(counts.full as u64),
            lost: self.lost.saturating_add(counts.lost as u64),
        }
    }
}

/// One tap, which is checked.
fn tap_once<R: Runtime + AllocGlobal + Wait + Threads + Sync>(
    rt: &R,
    tap: &Tap,
    number: u32,
    packets: u32,
) -> Result<TapCounts, Fail> {
    let alloc = rt.alloc();
    let capture = gen_capture(alloc, number, packets.min(1_000_000))?;
    let mut host = host_with(alloc, &capture)?;
    let words = ["tap", "8", tap.slots, tap.batch, "c", "t"];
    let status = call(&unheld(rt, alloc), &words, &mut host)?;
    if status != Status::Done {
        return Err("a tap that isn't done".into());
    }
    let shape = TapShape {
        senders: 8,
        len: tap.len,
    };
    check_tap(alloc, &host, &capture, packets.min(1_000_000), shape)
}

/// A round: each tap once.
pub fn tap_round<R: Runtime + AllocGlobal + Wait + Threads + Sync>(
    rt: &R,
    number: u32,
    packets: u32,
    sum: TapSum,
) -> Result<TapSum, Fail> {
    let mut sum = sum;
    for tap in &TAPS {
        sum = sum.with(tap_once(rt, tap, number, packets)?);
    }
    Ok(sum)
}
