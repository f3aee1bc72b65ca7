//! What five packets of a capture are to the rules, split by their numbers, by their source bytes and by their flows.
use lq_model::Info;
use lq_pcap::{Capture, read_capture};
use lq_plan::{infos, read_plan};
use std::marker::Sync;
use std::process::Abort;
use std::thread::Threads;

/// The header of a capture in microseconds, little-endian, of raw IP.
const HEADER: [u8; 24] = [
    0xd4, 0xc3, 0xb2, 0xa1, 2, 0, 4, 0, 0, 0, 0, 0, 0, 0, 0, 0, 0, 0, 4, 0, 101, 0, 0, 0,
];

/// Plans of two senders and two stations of two queues, for either split.
const BY_NUMBER: &[u8] = b"version = 2
senders = 2
split = \"round\"
station = [{ len = 2, bypass = false, queues = 2 }, { len = 2, bypass = false, queues = 2 }]
";

const BY_SOURCE: &[u8] = b"version = 2
senders = 2
split = \"source\"
station = [{ len = 2, bypass = false, queues = 2 }, { len = 2, bypass = false, queues = 2 }]
";

/// A plan of two senders, a station of two children and one of two queues, all chosen by flow.
const BY_FLOW: &[u8] = b"version = 4
senders = 2
split = \"flow\"
spread = \"flow\"
station = [{ len = 2, mq = 2 }, { len = 2, queues = 2 }]
";

/// A record of an IP header alone, with its first byte, type of service, and last address bytes.
fn record((first, tos, source, route): (u8, u8, u8, u8)) -> [u8; 36] {
    [
        0, 0, 0, 0, 0, 0, 0, 0, 20, 0, 0, 0, 20, 0, 0, 0, //
        first, tos, 0, 20, 0, 0, 0, 0, 64, 17, 0, 0, 10, 0, 0, source, 10, 0, 1, route,
    ]
}

/// The last header is of version 6.
fn five_packets(rt: &(impl Abort + AllocGlobal)) -> Capture {
    let mut bytes = Vec::from_slice(rt.alloc(), &HEADER).expect(rt, "memory");
    for &packet in &[
        (0x45, 0x00, 1, 0),
        (0x45, 0x10, 1, 1),
        (0x45, 0x08, 2, 3),
        (0x45, 0x00, 3, 2),
        (0x65, 0x10, 3, 3),
    ] {
        bytes
            .extend_from_slice(&record(packet))
            .expect(rt, "memory");
    }
    read_capture(rt.alloc(), bytes).ok().expect(rt, "a capture")
}

fn info(owner: u8, station: u8, band: u8, queue: u8, rank: u32) -> Info {
    Info {
        owner,
        station,
        band,
        queue,
        rank,
    }
}

fn split_by_number() -> [Info; 5] {
    [
        info(0, 0, 1, 1, 0),
        info(1, 1, 0, 1, 0),
        info(0, 1, 2, 0, 0),
        info(1, 0, 1, 1, 0),
        info(0, 0, 1, 0, 1),
    ]
}

fn split_by_source() -> [Info; 5] {
    [
        info(1, 0, 1, 1, 0),
        info(1, 1, 0, 1, 0),
        info(0, 1, 2, 0, 0),
        info(1, 0, 1, 1, 1),
        info(0, 0, 1, 0, 0),
    ]
}

/// The hashes are f3ceb36c, d37d21f2, d8dfac6c and eac1b993; the last packet has none.
fn split_by_flow() -> [Info; 5] {
    [
        info(0, 0, 1, 0, 0),
        info(0, 1, 0, 0, 0),
        info(0, 1, 2, 0, 1),
        info(1, 2, 1, 1, 0),
        info(0, 0, 1, 0, 1),
    ]
}

fn infos_of(
    rt: &(impl Abort + AllocGlobal + Threads + Sync),
    text: &[u8],
    capture: &Capture,
) -> Vec<Info> {
    let plan = read_plan(rt.alloc(), text).ok().expect(rt, "a plan");
    infos(rt, rt.alloc(), &plan, capture)
        .ok()
        .expect(rt, "memory")
}

fn check_split(
    rt: &(impl Abort + AllocGlobal + Threads + Sync),
    text: &[u8],
    capture: &Capture,
    wanted: &[Info],
) {
    assert_eq!(rt; infos_of(rt, text, capture).as_slice(), wanted);
}

#[test]
fn splits_by_number_by_source_and_by_flow(rt: HostRuntime) {
    let capture = five_packets(&rt);
    check_split(&rt, BY_NUMBER, &capture, &split_by_number());
    check_split(&rt, BY_SOURCE, &capture, &split_by_source());
    check_split(&rt, BY_FLOW, &capture, &split_by_flow());
}
