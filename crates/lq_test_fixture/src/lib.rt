//! What the tests of the top call share: captures made by hand, hosts in memory, and the call on a bench of devices.
#![tactic(auto)]

mod allowed;
mod checks;
mod fates;
mod flaw;
mod planned;
mod taps;

pub use checks::check_run;
pub use flaw::Flaw;
use lq_device::BenchDevice;
use lq_host::MemHost;
use lq_top::{Free, Gate, Resources, Status, lqtx};
use std::alloc::{AllocError, Global};
use std::marker::Sync;
use std::sync::Wait;
use std::test::Fail;
use std::thread::Threads;
pub use taps::{TapCounts, TapShape, Wrong, check_tap, check_tap_lines};

/// The header of a capture in little-endian order: microseconds, version 2.4, snapshot length 262,144, Ethernet.
pub const HEADER: [u8; 24] = [
    0xd4, 0xc3, 0xb2, 0xa1, 2, 0, 4, 0, 0, 0, 0, 0, 0, 0, 0, 0, 0, 0, 4, 0, 1, 0, 0, 0,
];

/// The bytes of such a record.
const RECORD_BYTES: usize = 50;

/// A record of an IPv4 frame of 34 bytes, whose type of service and lowest address bytes are 0.
const RECORD: [u8; RECORD_BYTES] = [
    0, 0, 0, 0, 0, 0, 0, 0, 34, 0, 0, 0, 34, 0, 0, 0, 2, 0, 0, 0, 0, 2, 2, 0, 0, 0, 0, 1, 8, 0,
    0x45, 0, 0, 20, 0, 0, 0, 0, 0x40, 0xfd, 0, 0, 10, 0, 0, 0, 10, 0, 1, 0,
];

/// The plan of one station.
pub const PLAN: &[u8] = b"[[station]]\n";

/// The plan of eight stations.
pub const EIGHT_STATIONS: &[u8] =
    b"[[station]]\n[[station]]\n[[station]]\n[[station]]\n[[station]]\n[[station]]\n[[station]]\n[[station]]\n";

/// The words of the worked rows.
pub const RUN: [&str; 4] = ["run", "p", "c", "o"];

/// The capture of such frames, each with this type of service, source byte and destination byte.
pub fn capture_of(alloc: Global, frames: &[(u8, u8, u8)]) -> Result<Vec<u8>, AllocError> {
    let mut bytes = Vec::new(alloc);
    bytes.extend_from_slice(&HEADER)?;
    for (tos, source, destination) in frames {
        let mut record = RECORD;
        record[31] = *tos;
        record[45] = *source;
        record[49] = *destination;
        bytes.extend_from_slice(&record)?;
    }
    Ok(bytes)
}

/// The capture of the first worked row: three frames, 174 bytes.
pub fn three_frames(alloc: Global) -> Result<Vec<u8>, AllocError> {
    capture_of(alloc, &[(0, 1, 0), (0x10, 2, 0), (8, 3, 0)])
}

/// The header of a capture of frames of 34 bytes, and these of its records.
pub fn records_of(alloc: Global, capture: &[u8], packets: &[usize]) -> Result<Vec<u8>, Fail> {
    let mut bytes = HEADER.to_vec(alloc)?;
    for n in packets {
        let start = HEADER.len().saturating_add(n.saturating_mul(RECORD_BYTES));
        let record = capture.get(start..start.saturating_add(RECORD_BYTES));
        bytes.extend_from_slice(record.ok_or("no record")?)?;
    }
    Ok(bytes)
}

/// A host with these bytes as the plan `p` and the capture `c`.
pub fn host_of(alloc: Global, plan: &[u8], capture: &[u8]) -> Result<MemHost, Fail> {
    let mut host = MemHost::new(alloc);
    host.put_file("p", plan)?;
    host.put_file("c", capture)?;
    Ok(host)
}

/// A host with the plan of one station as `p`, and these bytes as `c`.
pub fn host_with(alloc: Global, capture: &[u8]) -> Result<MemHost, Fail> {
    host_of(alloc, PLAN, capture)
}

/// What a run has whose threads nothing holds.
pub fn unheld<R>(rt: &R, alloc: Global) -> Resources<'_, R, Free> {
    Resources {
        rt,
        alloc,
        gate: &Free,
    }
}

/// The top call with these words, on a bench of so many devices.
#[tactic(auto, using(crate::proofs::NameLemmas::may_any))]
pub fn call_on<R: Threads + Wait + Sync, G: Gate>(
    on: &Resources<'_, R, G>,
    words: &[&str],
    host: &mut MemHost,
    devices: usize,
) -> Result<Status, AllocError> {
    let Resources { rt, alloc, gate } = *on;
    let mut bench = Vec::new(alloc);
    for _ in 0..devices {
        bench.push(BenchDevice::new(alloc))?;
    }
    let mut ended = Vec::new(alloc);
    Ok(lqtx(rt, alloc, words, host, &mut bench, &mut ended, gate))
}

/// How many devices the program has.
const DEVICES: usize = 16;

/// The same on a bench of as many devices as the program has.
pub fn call<R: Threads + Wait + Sync, G: Gate>(
    on: &Resources<'_, R, G>,
    words: &[&str],
    host: &mut MemHost,
) -> Result<Status, AllocError> {
    call_on(on, words, host, DEVICES)
}
