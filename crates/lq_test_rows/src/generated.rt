//! The command `gen`: its file, and the counts of its run.
use crate::done::call_done;
use lq_host::{HostCall, MemHost};
use lq_pcap::gen_capture;
use lq_test_fixture::{HEADER, call, call_on, unheld};
use lq_top::{Free, Resources, Status};
use std::alloc::Global;
use std::marker::Sync;
use std::sync::Wait;
use std::test::Fail;
use std::thread::Threads;

/// The two records of the capture that 1 generates, byte for byte.
const TWO_RECORDS: [u8; 100] = [
    0, 0, 0, 0, 0, 0, 0, 0, 0x22, 0, 0, 0, 0x22, 0, 0, 0, 2, 0, 0, 0, 0, 2, 2, 0, 0, 0, 0, 1, 8, 0,
    0x45, 2, 0, 0x14, 0, 0, 0, 0, 0x40, 0xfd, 0, 0, 0x0a, 0, 0, 0, 0x0a, 0, 1, 0, //
    0, 0, 0, 0, 0xe8, 3, 0, 0, 0x22, 0, 0, 0, 0x22, 0, 0, 0, 2, 0, 0, 0, 0, 2, 2, 0, 0, 0, 0, 1, 8,
    0, 0x45, 0x10, 0, 0x14, 0, 1, 0, 0, 0x40, 0xfd, 0, 0, 0x0a, 0, 0, 0xe3, 0x0a, 0, 1, 1,
];

/// Numbers, counts of packets, and how many of them are sent; the others find their ring full. The least number and the greatest one
/// are numbers.
///
/// Of 256, packet 192 finds the queue stopped by the run of packet 191, with 45 packets taken from band 1. The tail stands
/// at slot 0 and the head at 13, so that band 1 takes 19 of its 32 packets.
const COUNTS: [(&str, u32, u32); 6] = [
    ("1", 0, 0),
    ("1", 2, 2),
    ("1", 64, 64),
    ("1", 256, 243),
    ("0", 0, 0),
    ("4294967295", 1, 1),
];

fn output_of(alloc: Global, count: u32, sent: u32) -> Result<String, Fail> {
    let full = count.saturating_sub(sent);
    Ok(format!(in alloc;
        "unit 0 sent {sent}\nstation 0 full {full} shrunk 0 purged 0 refused 0\ntotal {count} sent {sent} full {full} shrunk 0 purged 0 refused 0\n"
    )?)
}

/// So many packets that a number generates, and how many of them are sent.
fn check_counts<R: Threads + Wait + Sync>(
    on: &Resources<'_, R, Free>,
    (number, count, sent): (&str, u32, u32),
) -> Result<(), Fail> {
    let alloc = on.alloc;
    let text = format!(in alloc; "{count}")?;
    let words = ["gen", number, text.as_str(), "g"];
    let done = call_done(on, "gen", &words, MemHost::new(alloc))?;
    let output = output_of(alloc, count, sent)?;
    done.told(output.as_bytes())?;
    done.has_no_file("g.0.pcap")?;
    done.has_no_file("g.fates")
}

#[test]
fn counts_the_fates_of_a_generated_capture(rt: HostRuntime) -> Result<(), Fail> {
    let on = unheld(&rt, rt.alloc());
    for &row in &COUNTS {
        check_counts(&on, row)?;
    }
    Ok(())
}

fn check_generated<R: Threads + Wait + Sync>(
    on: &Resources<'_, R, Free>,
    count: &str,
    bytes: &[u8],
) -> Result<(), Fail> {
    let words = ["gen", "1", count, "g"];
    let done = call_done(on, count, &words, MemHost::new(on.alloc))?;
    done.has_file("g", bytes)
}

#[test]
fn writes_the_generated_capture(rt: HostRuntime) -> Result<(), Fail> {
    let alloc = rt.alloc();
    let mut two = HEADER.to_vec(alloc)?;
    two.extend_from_slice(&TWO_RECORDS)?;
    let on = unheld(&rt, alloc);
    check_generated(&on, "0", &HEADER)?;
    check_generated(&on, "2", &two)
}

#[test]
fn gives_the_same_each_time(rt: HostRuntime) -> Result<(), Fail> {
    let alloc = rt.alloc();
    let on = unheld(&rt, alloc);
    let words = ["gen", "5", "200000", "g"];
    let first = call_done(&on, "first", &words, MemHost::new(alloc))?;
    let second = call_done(&on, "second", &words, MemHost::new(alloc))?;
    second.told(first.host.output())?;
    second.has_file("g", first.host.file("g").ok_or("no capture")?)
}

#[test]
fn needs_a_device(rt: HostRuntime) -> Result<(), Fail> {
    let alloc = rt.alloc();
    let mut host = MemHost::new(alloc);
    let on = unheld(&rt, alloc);
    let status = call_on(&on, &["gen", "1", "2", "g"], &mut host, 0)?;
    assert_eq!(rt; status, Status::Bench { need: 1, have: 0 });
    assert_eq!(rt;
        host.output(),
        b"bench refused: needs 1 units, has 0\n".as_slice()
    );
    assert!(rt; host.file("g").is_none());
    Ok(())
}

/// The capture of 100,024 bytes is written in two pieces; the third write is that of the counts.
#[test]
fn a_write_fails_between_its_pieces(rt: HostRuntime) -> Result<(), Fail> {
    let alloc = rt.alloc();
    let on = unheld(&rt, alloc);
    let capture = gen_capture(alloc, 1, 2000)?;
    for &(k, written) in &[(1, 0), (2, 65_536), (3, 100_024)] {
        let mut host = MemHost::new(alloc);
        host.fail_at(HostCall::Write, k)?;
        let status = call(&on, &["gen", "1", "2000", "g"], &mut host)?;
        assert_eq!(rt; status, Status::Fault, "write {k}");
        assert_eq!(rt; host.file("g"), capture.get(..written), "write {k}");
        assert_eq!(rt; host.output(), b"".as_slice());
    }
    Ok(())
}
