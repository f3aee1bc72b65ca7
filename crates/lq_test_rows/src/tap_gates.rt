//! What the gate is told in a tap, which shows what no contract says of it: that each sender is a thread of its own; that the reader asks
//! for batches of the size that the words name, gives back the second half of each, and goes on while senders are under way.
use crate::done::call_done;
use crate::holds::{Holds, Order, meeting};
use lq_pcap::gen_capture;
use lq_test_fixture::{TapShape, check_tap, host_with};
use lq_top::{Gate, Resources};
use std::alloc::{AllocError, Global};
use std::marker::Sync;
use std::sync::Wait;
use std::sync::atomic::{AtomicBool, AtomicU32, Ordering};
use std::test::Fail;
use std::thread::Threads;

/// The most senders of a tap.
const SENDERS: usize = 8;

/// A gate that holds passes, and keeps what it was told.
#[derive(Drop)]
struct Recording {
    holds: Holds,
    /// Which sender the reader is: the one behind the last.
    reader: u32,
    /// The number that each sender is to tell next.
    next: Vec<AtomicU32>,
    /// The last number that the reader told.
    batches: AtomicU32,
    is_wrong: AtomicBool,
}

impl Recording {
    fn new(alloc: Global, reader: u32, orders: &[Order]) -> Result<Recording, AllocError> {
        let mut next = Vec::new(alloc);
        for _ in 0..SENDERS {
            next.push(AtomicU32::new(0))?;
        }
        Ok(Recording {
            holds: Holds::new(alloc, orders)?,
            reader,
            next,
            batches: AtomicU32::new(0),
            is_wrong: AtomicBool::new(false),
        })
    }

    /// A sender tells how many packets it has put so far; the reader, how many of its batches so far weren't empty.
    fn is_as_it_should(&self, sender: u32, k: u32) -> bool {
        if sender == self.reader {
            let before = self.batches.swap(k, Ordering::SeqCst);
            return k == before || k == before.wrapping_add(1);
        }
        match self.next.get(sender as usize) {
            Some(next) => next.fetch_add(1, Ordering::SeqCst) == k,
            None => false,
        }
    }

    /// Each sender passed once before each of its packets, of so many in all, and not after the last.
    fn has_passed(&self, packets: u32) -> bool {
        let mut is_right = !self.is_wrong.load(Ordering::SeqCst);
        for (sender, next) in self.next.iter().enumerate() {
            let own = count_of(sender, self.reader, packets);
            is_right = is_right && next.load(Ordering::SeqCst) == own;
        }
        is_right
    }
}

/// How many of so many packets are a sender's: those whose number modulo the number of senders is its own.
fn count_of(sender: usize, senders: u32, packets: u32) -> u32 {
    let mut own = 0u32;
    for n in 0..packets {
        if let Some(owner) = n.checked_rem(senders) {
            if owner as usize == sender {
                own = own.wrapping_add(1);
            }
        }
    }
    own
}

impl Gate for Recording {
    fn pass(&self, sender: u32, k: u32) {
        if !self.is_as_it_should(sender, k) {
            self.is_wrong.store(true, Ordering::SeqCst);
        }
        self.holds.pass(sender, k);
    }
}

/// A tap whose ring has room for all packets, and how many batches of its reader aren't empty.
#[derive(Clone, Copy)]
struct Row {
    words: [&'static str; 3],
    senders: u32,
    len: usize,
    packets: u32,
    orders: &'static [Order],
    batches: u32,
}

const ROWS: [Row; 7] = [
    // three senders of 3, 2 and 2 packets, and a reader that takes one at a time
    Row {
        words: ["3", "8", "1"],
        senders: 3,
        len: 8,
        packets: 7,
        orders: &[],
        batches: 7,
    },
    // eight senders, of which five have no packet
    Row {
        words: ["8", "8", "1"],
        senders: 8,
        len: 8,
        packets: 3,
        orders: &[],
        batches: 3,
    },
    // In the others the reader finds all packets but the last in the ring, and the last one is held until the reader has taken them. Of
    // two packets at most the second is given back: one is read at a time.
    Row {
        words: ["1", "8", "2"],
        senders: 1,
        len: 8,
        packets: 5,
        orders: &[((1, 0), (0, 4)), ((0, 4), (1, 4))],
        batches: 5,
    },
    // four of four packets, two of which are given back; then two, then one
    Row {
        words: ["1", "8", "4"],
        senders: 1,
        len: 8,
        packets: 5,
        orders: &[((1, 0), (0, 4)), ((0, 4), (1, 3))],
        batches: 4,
    },
    // four of six, which leaves four, then two, then one; with larger batches it would be one fewer
    Row {
        words: ["1", "8", "4"],
        senders: 1,
        len: 8,
        packets: 7,
        orders: &[((1, 0), (0, 6)), ((0, 6), (1, 4))],
        batches: 5,
    },
    // five of ten, of which three are read: that leaves 7, 4, 2, 1 and none; with batches of four it would be one more, and of seven
    // packets or more one fewer
    Row {
        words: ["1", "16", "5"],
        senders: 1,
        len: 16,
        packets: 11,
        orders: &[((1, 0), (0, 10)), ((0, 10), (1, 5))],
        batches: 6,
    },
    // all of 64, which leaves 32, 16, 8, 4, 2, 1 and none
    Row {
        words: ["1", "128", "64"],
        senders: 1,
        len: 128,
        packets: 65,
        orders: &[((1, 0), (0, 64)), ((0, 64), (1, 7))],
        batches: 8,
    },
];

/// A tap of generated packets under this gate, in whose ring all have room: all are read, and the gate is told what it should be.
fn check_row<R: Threads + Wait + Sync>(
    rt: &R,
    alloc: Global,
    row: &Row,
    orders: &[Order],
) -> Result<u32, Fail> {
    let capture = gen_capture(alloc, 1, row.packets.min(1_000_000))?;
    let gate = Recording::new(alloc, row.senders, orders)?;
    let on = Resources {
        rt,
        alloc,
        gate: &gate,
    };
    let [senders, len, batch] = row.words;
    let words = ["tap", senders, len, batch, "c", "t"];
    let done = call_done(&on, batch, &words, host_with(alloc, &capture)?)?;
    if gate.holds.gave_up() {
        return Err(Fail::new(format_args!("held too long: batch {batch}")));
    }
    if !gate.has_passed(row.packets) {
        return Err(Fail::new(format_args!("told otherwise: batch {batch}")));
    }
    let shape = TapShape {
        senders: row.senders as usize,
        len: row.len,
    };
    let counts = check_tap(alloc, &done.host, &capture, row.packets, shape)?;
    if counts.read != row.packets as usize {
        return Err(Fail::new(format_args!("not all read: batch {batch}")));
    }
    Ok(gate.batches.load(Ordering::SeqCst))
}

#[test]
fn reader_takes_batches_of_the_size_asked_for_and_gives_half_back(
    rt: HostRuntime,
) -> Result<(), Fail> {
    let alloc = rt.alloc();
    for row in &ROWS {
        let batches = check_row(&rt, alloc, row, row.orders)?;
        assert_eq!(rt; batches, row.batches, "{}", row.words[2]);
    }
    Ok(())
}

/// Eight senders, each of one packet.
const EIGHT: Row = Row {
    words: ["8", "8", "1"],
    senders: 8,
    len: 8,
    packets: 8,
    orders: &[],
    batches: 8,
};

#[test]
fn all_senders_of_a_tap_meet_before_their_first_packets(rt: HostRuntime) -> Result<(), Fail> {
    let alloc = rt.alloc();
    let orders = meeting(alloc, EIGHT.senders)?;
    let batches = check_row(&rt, alloc, &EIGHT, &orders)?;
    assert_eq!(rt; batches, EIGHT.batches);
    Ok(())
}
