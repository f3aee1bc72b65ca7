//! Captures that are written again as they were read, in both formats.
use crate::done::{call_done, run};
use crate::pcapng::{ETHERNET, FRAME, SECTION, joined};
use lq_host::MemHost;
use lq_pcap::gen_capture;
use lq_test_fixture::{HEADER, PLAN, three_frames, unheld};
use lq_top::{Free, Resources};
use std::alloc::Global;
use std::marker::Sync;
use std::sync::Wait;
use std::test::Fail;
use std::thread::Threads;

/// In big-endian order, with times in nanoseconds.
const NANOSECONDS: [u8; 74] = [
    0xa1, 0xb2, 0x3c, 0x4d, 0, 2, 0, 4, 0, 0, 0, 0, 0, 0, 0, 0, 0, 4, 0, 0, 0, 0, 0, 1, 0, 0, 0, 5,
    0, 0, 0, 10, 0, 0, 0, 34, 0, 0, 0, 34, 2, 0, 0, 0, 0, 2, 2, 0, 0, 0, 0, 1, 8, 0, 0x45, 0, 0,
    20, 0, 0, 0, 0, 0x40, 0xfd, 0, 0, 10, 0, 0, 1, 10, 0, 1, 0,
];

/// A record of the greatest captured length.
fn longest_record(alloc: Global) -> Result<Vec<u8>, Fail> {
    let mut bytes = HEADER.to_vec(alloc)?;
    bytes.extend_from_slice(&[0, 0, 0, 0, 0, 0, 0, 0, 0, 0, 4, 0, 0, 0, 4, 0])?;
    for _ in 0..262_144 / 8 {
        bytes.extend_from_slice(&[1, 2, 3, 4, 5, 6, 7, 8])?;
    }
    Ok(bytes)
}

/// A capture of so many packets, all of which one device sends.
fn check_again<R: Threads + Wait + Sync>(
    on: &Resources<'_, R, Free>,
    capture: &[u8],
    count: u32,
) -> Result<(), Fail> {
    let alloc = on.alloc;
    let done = run(on, "[[station]]\n", capture)?;
    done.has_file("o.0.pcap", capture)?;
    let output = format!(in alloc;
        "unit 0 sent {count}\nstation 0 full 0 shrunk 0 purged 0 refused 0\ntotal {count} sent {count} full 0 shrunk 0 purged 0 refused 0\n"
    )?;
    done.told(output.as_bytes())
}

#[test]
fn writes_each_capture_as_it_was_read(rt: HostRuntime) -> Result<(), Fail> {
    let alloc = rt.alloc();
    let on = unheld(&rt, alloc);
    check_again(&on, &NANOSECONDS, 1)?;
    check_again(&on, &longest_record(alloc)?, 1)?;
    check_again(&on, &gen_capture(alloc, 1, 10_000)?, 10_000)?;
    check_again(&on, &SECTION, 0)?;
    check_again(&on, &joined(alloc, &[&SECTION, &ETHERNET, &FRAME])?, 1)
}

/// An output may have the name of an input: both are read before it is written.
#[test]
fn writes_over_its_own_capture(rt: HostRuntime) -> Result<(), Fail> {
    let alloc = rt.alloc();
    let capture = three_frames(alloc)?;
    let mut host = MemHost::new(alloc);
    host.put_file("p", PLAN)?;
    host.put_file("o.0.pcap", &capture)?;
    let words = ["run", "p", "o.0.pcap", "o"];
    let on = unheld(&rt, alloc);
    let done = call_done(&on, "its own capture", &words, host)?;
    done.has_file("o.0.pcap", &capture)
}
