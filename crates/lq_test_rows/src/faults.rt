//! Calls of the host that fail: the status, and what the outputs hold after it.
use lq_host::{Host, HostCall, MemHost};
use lq_pcap::gen_capture;
use lq_test_fixture::{RUN, call, host_with, three_frames, unheld};
use lq_top::{Free, Resources, Status};
use std::alloc::Global;
use std::marker::Sync;
use std::sync::Wait;
use std::test::Fail;
use std::thread::Threads;

const COUNTS: &[u8] =
    b"unit 0 sent 3\nstation 0 full 0 shrunk 0 purged 0 refused 0\ntotal 3 sent 3 full 0 shrunk 0 purged 0 refused 0\n";

const FATES: &[u8] = b"0 sent 0 0\n1 sent 0 1\n2 sent 0 2\n";

/// What a file holds: it isn't there, it is empty, or it has its whole text.
#[derive(Clone, Copy)]
enum Held {
    Absent,
    Empty,
    Whole,
}

/// The calls of a run of three frames. The plan is opened, read in one piece to its end and finished, then the capture;
/// the capture of the unit is created, written in one piece and finished, then the fates; then the counts are written. Each
/// with its number among those of its kind, and what the capture and the fates hold where it fails.
const FAILED_CALLS: [(HostCall, u64, Held, Held); 15] = [
    (HostCall::OpenRead, 1, Held::Absent, Held::Absent),
    (HostCall::Read, 1, Held::Absent, Held::Absent),
    (HostCall::Read, 2, Held::Absent, Held::Absent),
    (HostCall::Finish, 1, Held::Absent, Held::Absent),
    (HostCall::OpenRead, 2, Held::Absent, Held::Absent),
    (HostCall::Read, 3, Held::Absent, Held::Absent),
    (HostCall::Read, 4, Held::Absent, Held::Absent),
    (HostCall::Finish, 2, Held::Absent, Held::Absent),
    (HostCall::Create, 1, Held::Absent, Held::Absent),
    (HostCall::Write, 1, Held::Empty, Held::Absent),
    (HostCall::Finish, 3, Held::Whole, Held::Absent),
    (HostCall::Create, 2, Held::Whole, Held::Absent),
    (HostCall::Write, 2, Held::Whole, Held::Empty),
    (HostCall::Finish, 4, Held::Whole, Held::Whole),
    (HostCall::Write, 3, Held::Whole, Held::Whole),
];

/// The bytes of a file with this text that holds so much of it.
fn bytes_of(held: Held, text: &[u8]) -> Option<&[u8]> {
    match held {
        Held::Absent => None,
        Held::Empty => Some(&[]),
        Held::Whole => Some(text),
    }
}

/// The run stops at a fault, and writes nothing to standard output.
fn run_stops<R: Threads + Wait + Sync>(
    on: &Resources<'_, R, Free>,
    words: &[&str],
    host: &mut MemHost,
) -> Result<(), Fail> {
    let status = call(on, words, host)?;
    if status == Status::Fault && status.code() == 5 && host.output().is_empty() {
        return Ok(());
    }
    Err(Fail::new(format_args!("not stopped: {status:?}")))
}

/// A file holds just these bytes, or isn't there.
fn holds(host: &MemHost, name: &str, bytes: Option<&[u8]>) -> Result<(), Fail> {
    if host.file(name) == bytes {
        return Ok(());
    }
    Err(Fail::new(format_args!("another {name}")))
}

/// Each call of the run fails once: nothing more is written after it.
#[test]
fn each_call_fails_in_turn(rt: HostRuntime) -> Result<(), Fail> {
    let alloc = rt.alloc();
    let on = unheld(&rt, alloc);
    let capture = three_frames(alloc)?;
    for &(kind, k, captured, fates) in &FAILED_CALLS {
        let mut host = host_with(alloc, &capture)?;
        host.fail_at(kind, k)?;
        run_stops(&on, &RUN, &mut host)?;
        holds(&host, "o.0.pcap", bytes_of(captured, &capture))?;
        holds(&host, "o.fates", bytes_of(fates, FATES))?;
        assert_eq!(rt; host.faults(), 1, "call {k} of {kind:?}");
    }
    Ok(())
}

/// There are no more calls than those.
const AFTER_LAST: [(HostCall, u64); 5] = [
    (HostCall::OpenRead, 3),
    (HostCall::Read, 5),
    (HostCall::Create, 3),
    (HostCall::Write, 4),
    (HostCall::Finish, 5),
];

#[test]
fn no_call_after_the_last_fails(rt: HostRuntime) -> Result<(), Fail> {
    let alloc = rt.alloc();
    let on = unheld(&rt, alloc);
    let capture = three_frames(alloc)?;
    let mut host = host_with(alloc, &capture)?;
    for &(kind, k) in &AFTER_LAST {
        host.fail_at(kind, k)?;
    }
    let status = call(&on, &RUN, &mut host)?;
    assert_eq!(rt; status, Status::Done);
    holds(&host, "o.0.pcap", Some(&capture))?;
    holds(&host, "o.fates", Some(FATES))?;
    assert_eq!(rt; host.output(), COUNTS);
    Ok(())
}

/// The fates of packets that are sent by one unit in ascending number.
fn fates_in_order(alloc: Global, count: u32) -> Result<Vec<u8>, Fail> {
    let mut text = Vec::new(alloc);
    for n in 0..count {
        text.extend_from_slice(format!(in alloc; "{n} sent 0 {n}\n")?.as_bytes())?;
    }
    Ok(text)
}

/// Writes of a run of 10,000 packets that fail, and how much of the capture and of the fates was written before. The capture of 500,024
/// bytes is written in eight pieces, the fates' 167,780 in three; the twelfth write is that of the counts.
const FAILED_WRITES: [(u64, usize, Option<usize>); 7] = [
    (1, 0, None),
    (2, 65_536, None),
    (8, 458_752, None),
    (9, 500_024, Some(0)),
    (10, 500_024, Some(65_536)),
    (11, 500_024, Some(131_072)),
    (12, 500_024, Some(167_780)),
];

#[test]
fn a_write_fails_between_pieces(rt: HostRuntime) -> Result<(), Fail> {
    let alloc = rt.alloc();
    let on = unheld(&rt, alloc);
    let capture = gen_capture(alloc, 1, 10_000)?;
    let fates = fates_in_order(alloc, 10_000)?;
    for &(k, captured, told) in &FAILED_WRITES {
        let mut host = host_with(alloc, &capture)?;
        host.fail_at(HostCall::Write, k)?;
        run_stops(&on, &RUN, &mut host)?;
        holds(&host, "o.0.pcap", capture.get(..captured))?;
        let prefix = match told {
            Some(len) => fates.get(..len),
            None => None,
        };
        holds(&host, "o.fates", prefix)?;
    }
    Ok(())
}

/// Inputs that aren't there, and refusals whose line can't be written.
const FAULTS: [([&str; 4], u64); 5] = [
    (["run", "q", "c", "o"], 0),
    (["run", "p", "d", "o"], 0),
    (["ran", "p", "c", "o"], 1),
    (["run", "c", "c", "o"], 1),
    (["run", "p", "p", "o"], 1),
];

#[test]
fn a_fault_leaves_no_file(rt: HostRuntime) -> Result<(), Fail> {
    let alloc = rt.alloc();
    let on = unheld(&rt, alloc);
    let capture = three_frames(alloc)?;
    for &(words, k) in &FAULTS {
        let mut host = host_with(alloc, &capture)?;
        host.fail_at(HostCall::Write, k)?;
        run_stops(&on, &words, &mut host)?;
        holds(&host, "o.0.pcap", None)?;
        holds(&host, "o.fates", None)?;
    }
    Ok(())
}
