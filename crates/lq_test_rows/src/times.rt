//! Queues that are opened by the capture's own time: the fates of packets over one station, which tell how often after each of them.
use crate::done::run;
use crate::holds::Holds;
use crate::pcapng::{FRAME, SECTION, joined};
use lq_test_fixture::{RUN, call, check_run, host_of, unheld};
use lq_top::{Free, Resources};
use std::alloc::{AllocError, Global};
use std::marker::Sync;
use std::sync::Wait;
use std::test::Fail;
use std::thread::Threads;

/// Where the frame of 34 bytes stands in its block.
const FRAME_START: usize = 28;

const FRAME_END: usize = 62;

const FRAME_BYTES: u32 = 34;

/// The byte order of a capture.
#[derive(Clone, Copy)]
enum Order {
    Little,
    Big,
}

const ORDERS: [Order; 2] = [Order::Little, Order::Big];

fn push_two(bytes: &mut Vec<u8>, order: Order, number: u16) -> Result<(), AllocError> {
    bytes.extend_from_slice(&match order {
        Order::Little => number.to_le_bytes(),
        Order::Big => number.to_be_bytes(),
    })
}

fn push_four(bytes: &mut Vec<u8>, order: Order, number: u32) -> Result<(), AllocError> {
    bytes.extend_from_slice(&match order {
        Order::Little => number.to_le_bytes(),
        Order::Big => number.to_be_bytes(),
    })
}

fn push_fours(bytes: &mut Vec<u8>, order: Order, numbers: &[u32]) -> Result<(), AllocError> {
    for number in numbers {
        push_four(bytes, order, *number)?;
    }
    Ok(())
}

/// The plan of one ring of one slot, whose device stops its queue after each packet, and whose queues are opened each so many microseconds.
fn plan_of(alloc: Global, irq_us: u32) -> Result<String, AllocError> {
    format!(in alloc; "version = 4\nirq_us = {irq_us}\n[[station]]\nlen = 1\nburst = 1\n")
}

/// Runs a capture under that plan: these are the fates.
fn check_fates<R: Threads + Wait + Sync>(
    on: &Resources<'_, R, Free>,
    irq_us: u32,
    capture: &[u8],
    fates: &str,
) -> Result<(), Fail> {
    let plan = plan_of(on.alloc, irq_us)?;
    run(on, plan.as_str(), capture)?.has_file("o.fates", fates.as_bytes())
}

/// Packet 1 is laid into the requeue slot and packet 2 into the ring. Before packet 3 the queues are opened once, so that packet 1 is
/// sent; packet 3 and packet 4, before which they aren't, find packet 2 in its slot. Before packet 5 they are opened more than once: packet
/// 2 is sent, and the queue stays open for packet 5, but not for packet 6.
const ONE_AND_TWO: &str =
    "0 sent 0 0\n1 sent 0 1\n2 sent 0 2\n3 full 2\n4 full 2\n5 sent 0 3\n6 sent 0 4\n";

/// They aren't opened before packet 3, which finds packet 2 in its slot, but then more than once.
const MANY_BEFORE_4: &str =
    "0 sent 0 0\n1 sent 0 1\n2 sent 0 2\n3 full 2\n4 sent 0 3\n5 sent 0 4\n6 sent 0 5\n";

// CLASSIC CAPTURES

/// What the second number of a time counts, by the capture's magic number.
#[derive(Clone, Copy)]
enum Unit {
    Microseconds,
    Nanoseconds,
}

/// A time: seconds, and units after them.
type Time = (u32, u32);

/// The capture of such frames that came at these times.
fn classic(alloc: Global, order: Order, unit: Unit, times: &[Time]) -> Result<Vec<u8>, AllocError> {
    let mut bytes = Vec::new(alloc);
    let magic = match unit {
        Unit::Microseconds => 0xa1b2_c3d4,
        Unit::Nanoseconds => 0xa1b2_3c4d,
    };
    push_four(&mut bytes, order, magic)?;
    push_two(&mut bytes, order, 2)?;
    push_two(&mut bytes, order, 4)?;
    push_fours(&mut bytes, order, &[0, 0, 262_144, 1])?;
    for (seconds, fraction) in times {
        push_fours(
            &mut bytes,
            order,
            &[*seconds, *fraction, FRAME_BYTES, FRAME_BYTES],
        )?;
        bytes.extend_from_slice(&FRAME[FRAME_START..FRAME_END])?;
    }
    Ok(bytes)
}

/// Packets of a classic capture.
#[derive(Clone, Copy)]
struct Row {
    irq_us: u32,
    unit: Unit,
    times: &'static [Time],
    fates: &'static str,
}

const ROWS: [Row; 8] = [
    // times that stand still and go back: 0, 0, 9, 10, 5, 25 and 25 microseconds. At 10 the packet has the time of the multiple itself.
    Row {
        irq_us: 10,
        unit: Unit::Microseconds,
        times: &[(0, 0), (0, 0), (0, 9), (0, 10), (0, 5), (0, 25), (0, 25)],
        fates: ONE_AND_TWO,
    },
    // the same in nanoseconds
    Row {
        irq_us: 10,
        unit: Unit::Nanoseconds,
        times: &[
            (0, 0),
            (0, 0),
            (0, 9_999),
            (0, 10_000),
            (0, 5_000),
            (0, 25_000),
            (0, 25_000),
        ],
        fates: ONE_AND_TWO,
    },
    // each second, over a gap of a day
    Row {
        irq_us: 1_000_000,
        unit: Unit::Microseconds,
        times: &[
            (7, 0),
            (7, 0),
            (7, 999_999),
            (8, 0),
            (8, 0),
            (86_408, 0),
            (86_408, 999_999),
        ],
        fates: ONE_AND_TWO,
    },
    // each microsecond, over a gap of a day, in which there are more multiples than count
    Row {
        irq_us: 1,
        unit: Unit::Microseconds,
        times: &[
            (1, 0),
            (1, 0),
            (1, 0),
            (1, 0),
            (86_401, 0),
            (86_401, 0),
            (86_401, 0),
        ],
        fates: MANY_BEFORE_4,
    },
    // the greatest times, which the last packet goes back from
    Row {
        irq_us: 1,
        unit: Unit::Nanoseconds,
        times: &[
            (0, 0),
            (0, 0),
            (0, 0),
            (0, 0),
            (4_294_967_295, 4_294_967_295),
            (4_294_967_295, 4_294_967_295),
            (0, 0),
        ],
        fates: MANY_BEFORE_4,
    },
    // one multiple between each two packets: the queue is open for each of them
    Row {
        irq_us: 10,
        unit: Unit::Microseconds,
        times: &[(0, 1), (0, 11), (0, 20), (0, 39)],
        fates: "0 sent 0 0\n1 sent 0 1\n2 sent 0 2\n3 sent 0 3\n",
    },
    // the same numbers as nanoseconds, between which there is none up to 999, and as microseconds
    Row {
        irq_us: 1,
        unit: Unit::Nanoseconds,
        times: &[(0, 0), (0, 0), (0, 0), (0, 999), (0, 1000)],
        fates: "0 sent 0 0\n1 sent 0 1\n2 sent 0 2\n3 full 2\n4 full 2\n",
    },
    Row {
        irq_us: 1,
        unit: Unit::Microseconds,
        times: &[(0, 0), (0, 0), (0, 0), (0, 999), (0, 1000)],
        fates: "0 sent 0 0\n1 sent 0 1\n2 sent 0 2\n3 sent 0 3\n4 sent 0 4\n",
    },
];

#[test]
fn opens_queues_by_times_of_classic_captures(rt: HostRuntime) -> Result<(), Fail> {
    let alloc = rt.alloc();
    let on = unheld(&rt, alloc);
    for row in &ROWS {
        for &order in &ORDERS {
            let capture = classic(alloc, order, row.unit, row.times)?;
            check_fates(&on, row.irq_us, &capture, row.fates)?;
        }
    }
    Ok(())
}

// PCAPNG

/// What an interface says of its times: the byte of `if_tsresol` and the seconds of `if_tsoffset`, if it has these options.
type Clock = (Option<u8>, Option<u32>);

/// A packet: in an enhanced block, of this interface and with so many units; or in a simple one, which has no time.
#[derive(Clone, Copy)]
enum Block {
    Enhanced(u32, u64),
    Simple,
}

fn push_section(bytes: &mut Vec<u8>, order: Order) -> Result<(), AllocError> {
    push_fours(bytes, order, &[0x0a0d_0d0a, 28, 0x1a2b_3c4d])?;
    push_two(bytes, order, 1)?;
    push_two(bytes, order, 0)?;
    push_fours(bytes, order, &[0xffff_ffff, 0xffff_ffff, 28])
}

/// An interface of Ethernet. An option has its code, its length and its value, filled up; the last one's code is 0.
fn push_interface(bytes: &mut Vec<u8>, order: Order, clock: &Clock) -> Result<(), AllocError> {
    let (resolution, offset) = clock;
    let mut options = 4u32;
    if resolution.is_some() {
        options = options.wrapping_add(8);
    }
    if offset.is_some() {
        options = options.wrapping_add(12);
    }
    let total = options.wrapping_add(20);
    push_fours(bytes, order, &[1, total])?;
    push_two(bytes, order, 1)?;
    push_two(bytes, order, 0)?;
    push_four(bytes, order, 262_144)?;
    if let Some(byte) = resolution {
        push_two(bytes, order, 9)?;
        push_two(bytes, order, 1)?;
        bytes.extend_from_slice(&[*byte, 0, 0, 0])?;
    }
    if let Some(seconds) = offset {
        push_two(bytes, order, 14)?;
        push_two(bytes, order, 8)?;
        push_long(bytes, order, u64::from(*seconds))?;
    }
    push_fours(bytes, order, &[0, total])
}

fn push_long(bytes: &mut Vec<u8>, order: Order, number: u64) -> Result<(), AllocError> {
    bytes.extend_from_slice(&match order {
        Order::Little => number.to_le_bytes(),
        Order::Big => number.to_be_bytes(),
    })
}

fn push_block(bytes: &mut Vec<u8>, order: Order, block: Block) -> Result<(), AllocError> {
    let frame = &FRAME[FRAME_START..FRAME_END];
    match block {
        Block::Enhanced(interface, units) => {
            let upper = (units >> 32) as u32;
            let lower = (units % (1 << 32)) as u32;
            push_fours(
                bytes,
                order,
                &[6, 68, interface, upper, lower, FRAME_BYTES, FRAME_BYTES],
            )?;
            bytes.extend_from_slice(frame)?;
            bytes.extend_from_slice(&[0, 0])?;
            push_four(bytes, order, 68)
        }
        Block::Simple => {
            push_fours(bytes, order, &[3, 52, FRAME_BYTES])?;
            bytes.extend_from_slice(frame)?;
            bytes.extend_from_slice(&[0, 0])?;
            push_four(bytes, order, 52)
        }
    }
}

/// A section with these interfaces and then these packets.
fn section(
    alloc: Global,
    order: Order,
    clocks: &[Clock],
    blocks: &[Block],
) -> Result<Vec<u8>, AllocError> {
    let mut bytes = Vec::new(alloc);
    push_section(&mut bytes, order)?;
    for clock in clocks {
        push_interface(&mut bytes, order, clock)?;
    }
    for block in blocks {
        push_block(&mut bytes, order, *block)?;
    }
    Ok(bytes)
}

/// Packets of a section.
#[derive(Clone, Copy)]
struct NgRow {
    irq_us: u32,
    clocks: &'static [Clock],
    blocks: &'static [Block],
    fates: &'static str,
}

const NG_ROWS: [NgRow; 10] = [
    // microseconds, where nothing is said
    NgRow {
        irq_us: 10,
        clocks: &[(None, None)],
        blocks: &[
            Block::Enhanced(0, 0),
            Block::Enhanced(0, 0),
            Block::Enhanced(0, 9),
            Block::Enhanced(0, 10),
            Block::Enhanced(0, 5),
            Block::Enhanced(0, 25),
            Block::Enhanced(0, 25),
        ],
        fates: ONE_AND_TWO,
    },
    // a power of ten: nanoseconds, more of them than 32 bits count
    NgRow {
        irq_us: 10,
        clocks: &[(Some(9), None)],
        blocks: &[
            Block::Enhanced(0, 86_400_000_000_000),
            Block::Enhanced(0, 86_400_000_000_000),
            Block::Enhanced(0, 86_400_000_009_999),
            Block::Enhanced(0, 86_400_000_010_000),
            Block::Enhanced(0, 86_400_000_005_000),
            Block::Enhanced(0, 86_400_000_025_000),
            Block::Enhanced(0, 86_400_000_025_000),
        ],
        fates: ONE_AND_TWO,
    },
    // milliseconds
    NgRow {
        irq_us: 10_000,
        clocks: &[(Some(3), None)],
        blocks: &[
            Block::Enhanced(0, 0),
            Block::Enhanced(0, 0),
            Block::Enhanced(0, 9),
            Block::Enhanced(0, 10),
            Block::Enhanced(0, 5),
            Block::Enhanced(0, 25),
            Block::Enhanced(0, 25),
        ],
        fates: ONE_AND_TWO,
    },
    // seconds
    NgRow {
        irq_us: 1_000_000,
        clocks: &[(Some(0), None)],
        blocks: &[
            Block::Enhanced(0, 5),
            Block::Enhanced(0, 5),
            Block::Enhanced(0, 5),
            Block::Enhanced(0, 6),
            Block::Enhanced(0, 5),
            Block::Enhanced(0, 7),
            Block::Enhanced(0, 7),
        ],
        fates: ONE_AND_TWO,
    },
    // a power of two: 1,024 units are a second
    NgRow {
        irq_us: 1_000_000,
        clocks: &[(Some(128 + 10), None)],
        blocks: &[
            Block::Enhanced(0, 0),
            Block::Enhanced(0, 0),
            Block::Enhanced(0, 1023),
            Block::Enhanced(0, 1024),
            Block::Enhanced(0, 512),
            Block::Enhanced(0, 2560),
            Block::Enhanced(0, 2560),
        ],
        fates: ONE_AND_TWO,
    },
    // 2 to the power of 20: 10 units are 9,536 nanoseconds, 11 are 10,490, and 27 are 25,749
    NgRow {
        irq_us: 10,
        clocks: &[(Some(128 + 20), None)],
        blocks: &[
            Block::Enhanced(0, 0),
            Block::Enhanced(0, 0),
            Block::Enhanced(0, 10),
            Block::Enhanced(0, 11),
            Block::Enhanced(0, 6),
            Block::Enhanced(0, 27),
            Block::Enhanced(0, 27),
        ],
        fates: ONE_AND_TWO,
    },
    // a second more than the units: of multiples of 7 microseconds 1,000,006 is one, and there are three up to 1,000,020
    NgRow {
        irq_us: 7,
        clocks: &[(None, Some(1))],
        blocks: &[
            Block::Enhanced(0, 0),
            Block::Enhanced(0, 0),
            Block::Enhanced(0, 5),
            Block::Enhanced(0, 6),
            Block::Enhanced(0, 3),
            Block::Enhanced(0, 20),
            Block::Enhanced(0, 20),
        ],
        fates: ONE_AND_TWO,
    },
    // The same units without that second: none lies before packets 3 and 4, and two before packet 5. At the first packet 1 is sent, and at
    // the second packet 2; so the queue is stopped when packet 5 comes, which packet 6 finds in the ring.
    NgRow {
        irq_us: 7,
        clocks: &[(None, None)],
        blocks: &[
            Block::Enhanced(0, 0),
            Block::Enhanced(0, 0),
            Block::Enhanced(0, 5),
            Block::Enhanced(0, 6),
            Block::Enhanced(0, 3),
            Block::Enhanced(0, 20),
            Block::Enhanced(0, 20),
        ],
        fates: "0 sent 0 0\n1 sent 0 1\n2 sent 0 2\n3 full 2\n4 full 2\n5 sent 0 3\n6 full 5\n",
    },
    // two interfaces, one in milliseconds, and one in nanoseconds that are a second late
    NgRow {
        irq_us: 10_000,
        clocks: &[(Some(3), None), (Some(9), Some(1))],
        blocks: &[
            Block::Enhanced(0, 1_000),
            Block::Enhanced(1, 0),
            Block::Enhanced(1, 9_999_999),
            Block::Enhanced(0, 1_010),
            Block::Enhanced(1, 5_000_000),
            Block::Enhanced(0, 1_025),
            Block::Enhanced(1, 25_000_000),
        ],
        fates: ONE_AND_TWO,
    },
    // a simple packet has the time of the one before it, and the first the start of 1970
    NgRow {
        irq_us: 10,
        clocks: &[(Some(6), None)],
        blocks: &[
            Block::Simple,
            Block::Enhanced(0, 9),
            Block::Simple,
            Block::Enhanced(0, 10),
            Block::Simple,
            Block::Enhanced(0, 35),
            Block::Simple,
        ],
        fates: ONE_AND_TWO,
    },
];

#[test]
fn opens_queues_by_times_of_pcapng(rt: HostRuntime) -> Result<(), Fail> {
    let alloc = rt.alloc();
    let on = unheld(&rt, alloc);
    for row in &NG_ROWS {
        for &order in &ORDERS {
            let capture = section(alloc, order, row.clocks, row.blocks)?;
            check_fates(&on, row.irq_us, &capture, row.fates)?;
        }
    }
    Ok(())
}

/// An interface of Ethernet whose `if_tsresol` has two bytes.
const LONG_RESOLUTION: [u8; 28] = [
    1, 0, 0, 0, 28, 0, 0, 0, 1, 0, 0, 0, 0, 0, 4, 0, 9, 0, 2, 0, 6, 6, 0, 0, 28, 0, 0, 0,
];

/// Options are looked at only where times are read.
#[test]
fn refuses_options_of_version_4_alone(rt: HostRuntime) -> Result<(), Fail> {
    let alloc = rt.alloc();
    let on = unheld(&rt, alloc);
    let capture = joined(alloc, &[&SECTION, &LONG_RESOLUTION, &FRAME])?;
    run(&on, "version = 3\n[[station]]\n", &capture)?.has_file("o.fates", b"0 sent 0 0\n")?;
    let mut host = host_of(alloc, b"version = 4\n[[station]]\n", &capture)?;
    let status = call(&on, &RUN, &mut host)?;
    assert_eq!(rt; status.code(), 4);
    assert_eq!(rt;
        host.output(),
        b"capture refused: 14 BlockBody at 28\n".as_slice()
    );
    Ok(())
}

// SEVERAL SENDERS

const PACKETS: u32 = 40;

/// How many of them find the ring full: 14 of the first sender's and 2 of the second's.
const FULL: usize = 16;

/// Multiples lie after the second sender's packets alone, and it begins when the first has ended. So of the first sender's 20 packets one is
/// sent, one is laid into the requeue slot and four into the ring of four slots. Two of the second's find that full; then a packet leaves
/// after each of its own.
#[test]
fn a_sender_opens_queues_after_its_own_packets(rt: HostRuntime) -> Result<(), Fail> {
    let alloc = rt.alloc();
    let times = (0..PACKETS)
        .map(|n| (0, (n >> 1).wrapping_mul(10)))
        .collect::<Vec<Time>>(alloc)?;
    let capture = classic(alloc, Order::Little, Unit::Microseconds, &times)?;
    let plan = "version = 4\nsenders = 2\nirq_us = 10\n[[station]]\nlen = 4\nburst = 1\n";
    let gate = Holds::new(alloc, &[((1, 0), (0, PACKETS >> 1))])?;
    let on = Resources {
        rt: &rt,
        alloc,
        gate: &gate,
    };
    let done = run(&on, plan, &capture)?;
    assert!(rt; !gate.gave_up());
    let sent = check_run(&rt, alloc, &done.host, plan.as_bytes(), &capture)?;
    assert_eq!(rt; sent.wrapping_add(FULL), PACKETS as usize);
    Ok(())
}
