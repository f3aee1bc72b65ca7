//! Captures in the pcapng format: their blocks, and the lines that refuse others.
use crate::done::run;
use lq_test_fixture::{RUN, call, host_with, unheld};
use lq_top::{Free, Resources};
use std::alloc::{AllocError, Global};
use std::marker::Sync;
use std::sync::Wait;
use std::test::Fail;
use std::thread::Threads;

/// A section header block in little-endian order that says nothing of its section's length.
pub const SECTION: [u8; 28] = [
    0x0a, 0x0d, 0x0d, 0x0a, 28, 0, 0, 0, 0x4d, 0x3c, 0x2b, 0x1a, 1, 0, 0, 0, 0xff, 0xff, 0xff,
    0xff, 0xff, 0xff, 0xff, 0xff, 28, 0, 0, 0,
];

/// Interfaces of Ethernet and of raw IP with a snapshot length of 262,144.
pub const ETHERNET: [u8; 20] = [1, 0, 0, 0, 20, 0, 0, 0, 1, 0, 0, 0, 0, 0, 4, 0, 20, 0, 0, 0];

pub const RAW_IP: [u8; 20] = [
    1, 0, 0, 0, 20, 0, 0, 0, 101, 0, 0, 0, 0, 0, 4, 0, 20, 0, 0, 0,
];

/// An enhanced packet block of interface 0: an Ethernet frame of 34 bytes from 10.0.0.1 to 10.0.1.0.
pub const FRAME: [u8; 68] = [
    6, 0, 0, 0, 68, 0, 0, 0, 0, 0, 0, 0, 0, 0, 0, 0, 0, 0, 0, 0, 34, 0, 0, 0, 34, 0, 0, 0, 2, 0, 0,
    0, 0, 2, 2, 0, 0, 0, 0, 1, 8, 0, 0x45, 0, 0, 20, 0, 0, 0, 0, 0x40, 0xfd, 0, 0, 10, 0, 0, 1, 10,
    0, 1, 0, 0, 0, 68, 0, 0, 0,
];

/// An enhanced packet block of interface 1: an IPv4 header from 10.0.0.2 to 10.0.1.1.
pub const PACKET: [u8; 52] = [
    6, 0, 0, 0, 52, 0, 0, 0, 1, 0, 0, 0, 0, 0, 0, 0, 0, 0, 0, 0, 20, 0, 0, 0, 20, 0, 0, 0, 0x45,
    0x10, 0, 20, 0, 0, 0, 0, 0x40, 0xfd, 0, 0, 10, 0, 0, 2, 10, 0, 1, 1, 52, 0, 0, 0,
];

/// A block of name resolutions, which is passed over.
const NAMES: [u8; 16] = [4, 0, 0, 0, 16, 0, 0, 0, 0, 0, 0, 0, 16, 0, 0, 0];

pub fn joined(alloc: Global, blocks: &[&[u8]]) -> Result<Vec<u8>, AllocError> {
    let mut bytes = Vec::new(alloc);
    for block in blocks {
        bytes.extend_from_slice(block)?;
    }
    Ok(bytes)
}

/// The section with one interface of Ethernet, and a block for each of these of some frames, whose types of service and source and
/// destination bytes are given.
pub fn section_of(
    alloc: Global,
    frames: &[(u8, u8, u8)],
    packets: &[usize],
) -> Result<Vec<u8>, Fail> {
    let mut bytes = joined(alloc, &[&SECTION, &ETHERNET])?;
    for n in packets {
        let (tos, source, destination) = *frames.get(*n).ok_or("no frame")?;
        let mut block = FRAME;
        block[43] = tos;
        block[57] = source;
        block[61] = destination;
        bytes.extend_from_slice(&block)?;
    }
    Ok(bytes)
}

/// Each packet goes by the link type of its own interface, and each file has both interfaces.
#[test]
fn reads_two_interfaces(rt: HostRuntime) -> Result<(), Fail> {
    let alloc = rt.alloc();
    let capture = joined(
        alloc,
        &[&SECTION, &ETHERNET, &FRAME, &NAMES, &RAW_IP, &PACKET],
    )?;
    let on = unheld(&rt, alloc);
    let done = run(&on, "[[station]]\n[[station]]\n", &capture)?;
    let first = joined(alloc, &[&SECTION, &ETHERNET, &RAW_IP, &FRAME])?;
    done.has_file("o.0.pcap", &first)?;
    let second = joined(alloc, &[&SECTION, &ETHERNET, &RAW_IP, &PACKET])?;
    done.has_file("o.1.pcap", &second)?;
    done.has_file("o.fates", b"0 sent 0 0\n1 sent 1 0\n")
}

/// The capture of these blocks is refused, with this reason and place.
fn check_refused<R: Threads + Wait + Sync>(
    on: &Resources<'_, R, Free>,
    blocks: &[&[u8]],
    reason: &str,
) -> Result<(), Fail> {
    let alloc = on.alloc;
    let mut host = host_with(alloc, &joined(alloc, blocks)?)?;
    let status = call(on, &RUN, &mut host)?;
    let line = format!(in alloc; "capture refused: {reason}\n")?;
    let told = status.code() == 4 && host.output() == line.as_bytes();
    if told && host.file("o.0.pcap").is_none() {
        return Ok(());
    }
    Err(Fail::new(format_args!("not refused so: {reason}")))
}

#[test]
fn refuses_what_is_no_section(rt: HostRuntime) -> Result<(), Fail> {
    let mut other = FRAME;
    other[8] = 1;
    let on = unheld(&rt, rt.alloc());
    check_refused(
        &on,
        &[&SECTION, &ETHERNET, &FRAME[..67]],
        "10 CutBlock at 48",
    )?;
    check_refused(&on, &[&SECTION, &FRAME], "13 NoInterface at 28")?;
    check_refused(&on, &[&SECTION, &ETHERNET, &other], "13 NoInterface at 48")?;
    check_refused(&on, &[&SECTION, &SECTION], "15 SecondSection at 28")?;
    check_refused(
        &on,
        &[&SECTION, &ETHERNET[..16], &SECTION[4..8]],
        "11 BlockLength at 44",
    )?;
    check_refused(&on, &[&SECTION[..8], &SECTION[12..]], "12 ByteOrder at 8")?;
    check_refused(&on, &[&SECTION, &NAMES, &NAMES[..8]], "10 CutBlock at 44")?;
    check_refused(&on, &[&SECTION[..4]], "10 CutBlock at 0")
}
