//! Taps: the worked rows, that the reader goes beside the senders and gives back, many runs of eight senders, each checked, and that
//! each size comes to its end.
use crate::done::{Done, call_done};
use crate::holds::{Holds, Order};
use crate::pcapng::section_of;
use lq_pcap::gen_capture;
use lq_test_fixture::{TapShape, capture_of, check_tap, host_with, records_of, three_frames};
use lq_top::Resources;
use std::alloc::Global;
use std::marker::Sync;
use std::sync::Wait;
use std::test::Fail;
use std::thread::Threads;

/// Calls the tap with these words on a capture, with a gate that holds its threads.
fn tap<'a, R: Threads + Wait + Sync>(
    rt: &R,
    alloc: Global,
    [senders, len, batch]: [&'a str; 3],
    capture: &[u8],
    orders: &[Order],
) -> Result<Done<'a>, Fail> {
    let gate = Holds::new(alloc, orders)?;
    let words = ["tap", senders, len, batch, "c", "t"];
    let on = Resources {
        rt,
        alloc,
        gate: &gate,
    };
    let done = call_done(&on, batch, &words, host_with(alloc, capture)?)?;
    if gate.gave_up() {
        return Err(Fail::new("a pass that was held too long"));
    }
    Ok(done)
}

/// A tap of three packets, whose threads are held so that what it leaves is known.
struct Row {
    words: [&'static str; 3],
    orders: &'static [Order],
    fates: &'static str,
    read: &'static [usize],
    output: &'static str,
}

const ROWS: [Row; 4] = [
    // all have room
    Row {
        words: ["1", "8", "4"],
        orders: &[],
        fates: "0 read 0\n1 read 1\n2 read 2\n",
        read: &[0, 1, 2],
        output: "total 3 read 3 full 0 lost 0\n",
    },
    // two senders, of which the first has one packet more: it is held until the reader has the second's
    Row {
        words: ["2", "8", "4"],
        orders: &[((0, 0), (2, 1))],
        fates: "0 read 1\n1 read 0\n2 read 2\n",
        read: &[1, 0, 2],
        output: "total 3 read 3 full 0 lost 0\n",
    },
    // A ring of one slot: packet 1 comes while packet 0 is in it, and packet 2 after packet 0 was taken. The reader is held before its
    // first batch until the sender has come to packet 2, and that packet until the reader has taken a batch.
    Row {
        words: ["1", "1", "1"],
        orders: &[((1, 0), (0, 2)), ((0, 2), (1, 1))],
        fates: "0 read 0\n1 full 0\n2 read 1\n",
        read: &[0, 2],
        output: "total 3 read 2 full 1 lost 0\n",
    },
    // The reader finds two packets in the ring and takes both, and the sender's third is held until two batches weren't empty: so the
    // second of them had what the reader gave back of the first.
    Row {
        words: ["1", "8", "4"],
        orders: &[((1, 0), (0, 2)), ((0, 2), (1, 2))],
        fates: "0 read 0\n1 read 1\n2 read 2\n",
        read: &[0, 1, 2],
        output: "total 3 read 3 full 0 lost 0\n",
    },
];

/// What a row's tap leaves of this capture, with the records of the packets that it reads.
fn check_row<R: Threads + Wait + Sync>(
    rt: &R,
    alloc: Global,
    row: &Row,
    capture: &[u8],
    read: &[u8],
) -> Result<(), Fail> {
    let done = tap(rt, alloc, row.words, capture, row.orders)?;
    done.has_file("t.fates", row.fates.as_bytes())?;
    done.has_file("t.pcap", read)?;
    done.told(row.output.as_bytes())
}

#[test]
fn leaves_what_each_row_says(rt: HostRuntime) -> Result<(), Fail> {
    let alloc = rt.alloc();
    let classic = three_frames(alloc)?;
    let frames = [(0, 1, 0), (0, 2, 1), (0, 3, 0)];
    let pcapng = section_of(alloc, &frames, &[0, 1, 2])?;
    for row in &ROWS {
        check_row(
            &rt,
            alloc,
            row,
            &classic,
            &records_of(alloc, &classic, row.read)?,
        )?;
        check_row(
            &rt,
            alloc,
            row,
            &pcapng,
            &section_of(alloc, &frames, row.read)?,
        )?;
    }
    Ok(())
}

/// A tap that reads each of so many packets, all of which have room.
struct Roomy {
    words: [&'static str; 3],
    shape: TapShape,
    count: u32,
    orders: &'static [Order],
}

/// The greatest and the least numbers; senders that don't divide the packets, so that some have fewer than others, or none; and a first
/// sender that is held until the reader has taken a batch.
const ROOMY: [Roomy; 5] = [
    Roomy {
        words: ["8", "4096", "64"],
        shape: TapShape {
            senders: 8,
            len: 4096,
        },
        count: 3,
        orders: &[],
    },
    Roomy {
        words: ["3", "5", "1"],
        shape: TapShape { senders: 3, len: 5 },
        count: 5,
        orders: &[],
    },
    Roomy {
        words: ["7", "40", "3"],
        shape: TapShape {
            senders: 7,
            len: 40,
        },
        count: 40,
        orders: &[],
    },
    Roomy {
        words: ["8", "1", "1"],
        shape: TapShape { senders: 8, len: 1 },
        count: 0,
        orders: &[],
    },
    Roomy {
        words: ["2", "8", "2"],
        shape: TapShape { senders: 2, len: 8 },
        count: 6,
        orders: &[((0, 1), (2, 1))],
    },
];

#[test]
fn reads_the_packets_of_all_senders(rt: HostRuntime) -> Result<(), Fail> {
    let alloc = rt.alloc();
    for row in &ROOMY {
        let capture = gen_capture(alloc, 1, row.count.min(1_000_000))?;
        let done = tap(&rt, alloc, row.words, &capture, row.orders)?;
        let counts = check_tap(alloc, &done.host, &capture, row.count, row.shape)?;
        assert_eq!(rt; counts.read, row.count as usize);
    }
    Ok(())
}

/// A reader that went on only when the senders have ended would give up: the first sender is held until the reader has taken a batch.
/// The ring hasn't room for all packets.
#[test]
fn reads_while_a_sender_is_under_way(rt: HostRuntime) -> Result<(), Fail> {
    let alloc = rt.alloc();
    let capture = capture_of(alloc, &[(0, 1, 0); 6])?;
    let done = tap(&rt, alloc, ["2", "4", "2"], &capture, &[((0, 1), (2, 1))])?;
    let shape = TapShape { senders: 2, len: 4 };
    check_tap(alloc, &done.host, &capture, 6, shape)?;
    Ok(())
}

/// Rings and batches of many runs, each in turn.
const LENGTHS: [u32; 5] = [1, 2, 4, 33, 64];

const BATCHES: [u32; 4] = [1, 4, 7, 64];

/// How many runs there are, and of how many packets.
const RUNS: u32 = 200;

const PACKETS: u32 = 203;

fn check_many<R: Threads + Wait + Sync>(
    rt: &R,
    alloc: Global,
    capture: &[u8],
    len: u32,
    batch: u32,
) -> Result<(), Fail> {
    let (slots, most) = (format!(in alloc; "{len}")?, format!(in alloc; "{batch}")?);
    let done = tap(
        rt,
        alloc,
        ["8", slots.as_str(), most.as_str()],
        capture,
        &[],
    )?;
    let shape = TapShape {
        senders: 8,
        len: len as usize,
    };
    check_tap(alloc, &done.host, capture, PACKETS, shape)?;
    Ok(())
}

#[test]
fn settles_each_packet_of_eight_senders(rt: HostRuntime) -> Result<(), Fail> {
    let alloc = rt.alloc();
    let capture = gen_capture(alloc, 1, PACKETS)?;
    for run in 0..RUNS {
        let len = LENGTHS[run as usize % LENGTHS.len()];
        let batch = BATCHES[run as usize % BATCHES.len()];
        check_many(&rt, alloc, &capture, len, batch)?;
    }
    Ok(())
}

/// Each number of senders, over a ring that has room for all packets.
#[test]
fn reads_all_of_each_number_of_senders(rt: HostRuntime) -> Result<(), Fail> {
    let alloc = rt.alloc();
    let capture = gen_capture(alloc, 1, 64)?;
    for senders in 1..9u32 {
        let number = format!(in alloc; "{senders}")?;
        let done = tap(&rt, alloc, [number.as_str(), "64", "64"], &capture, &[])?;
        let shape = TapShape {
            senders: senders as usize,
            len: 64,
        };
        let counts = check_tap(alloc, &done.host, &capture, 64, shape)?;
        assert_eq!(rt; counts.read, 64);
    }
    Ok(())
}

/// As many packets as a capture may have.
#[test]
fn comes_to_its_end_with_the_most_packets(rt: HostRuntime) -> Result<(), Fail> {
    let alloc = rt.alloc();
    let capture = gen_capture(alloc, 1, 1_000_000)?;
    let done = tap(&rt, alloc, ["8", "4096", "64"], &capture, &[])?;
    if done.host.output().starts_with(b"total 1000000 ") {
        return Ok(());
    }
    Err(Fail::new("another total"))
}
