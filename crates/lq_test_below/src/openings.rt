//! How often the stopped queues are opened after each packet of a capture, by packets and by its time.
use lq_pcap::{Capture, read_capture};
use lq_plan::{Openings, read_plan};
use std::process::Abort;

/// The header of a capture of raw IP, in microseconds, little-endian, and in nanoseconds.
const MICROSECONDS: [u8; 24] = [
    0xd4, 0xc3, 0xb2, 0xa1, 2, 0, 4, 0, 0, 0, 0, 0, 0, 0, 0, 0, 0, 0, 4, 0, 101, 0, 0, 0,
];

const NANOSECONDS: [u8; 24] = [
    0x4d, 0x3c, 0xb2, 0xa1, 2, 0, 4, 0, 0, 0, 0, 0, 0, 0, 0, 0, 0, 0, 4, 0, 101, 0, 0, 0,
];

/// A record without data, of this time.
fn record(seconds: u32, fraction: u32) -> [u8; 16] {
    let [a, b, c, d] = seconds.to_le_bytes();
    let [e, f, g, h] = fraction.to_le_bytes();
    [a, b, c, d, e, f, g, h, 0, 0, 0, 0, 0, 0, 0, 0]
}

fn capture_of(rt: &(impl Abort + AllocGlobal), header: &[u8; 24], times: &[(u32, u32)]) -> Capture {
    let mut bytes = Vec::from_slice(rt.alloc(), header).expect(rt, "memory");
    for (seconds, fraction) in times {
        bytes
            .extend_from_slice(&record(*seconds, *fraction))
            .expect(rt, "memory");
    }
    read_capture(rt.alloc(), bytes).ok().expect(rt, "a capture")
}

/// How often after each packet, where one sender sends them all.
fn opened(rt: &(impl Abort + AllocGlobal), text: &[u8], capture: &Capture) -> Vec<u32> {
    let plan = read_plan(rt.alloc(), text).ok().expect(rt, "a plan");
    let openings = Openings::new(rt.alloc(), &plan, capture)
        .ok()
        .expect(rt, "memory");
    let mut times = Vec::new(rt.alloc());
    for n in 0..capture.len() {
        let place = n as u32;
        times
            .push(openings.after(place, place))
            .ok()
            .expect(rt, "memory");
    }
    times
}

fn expect_opened(rt: &(impl Abort + AllocGlobal), text: &[u8], capture: &Capture, wanted: &[u32]) {
    assert_eq!(rt; opened(rt, text, capture).as_slice(), wanted);
}

/// From 10 s on; the sixth packet is stamped a second before the first, and the seventh comes a day after it.
const TIMES: [(u32, u32); 8] = [
    (10, 0),
    (10, 100),
    (10, 199),
    (10, 400),
    (10, 400),
    (9, 0),
    (86_409, 0),
    (86_409, 1_000_000),
];

#[test]
fn multiples_between_two_packets(rt: HostRuntime) {
    let capture = capture_of(&rt, &MICROSECONDS, &TIMES);
    let each_100 = b"version = 4\nirq_us = 100\n[[station]]\n";
    expect_opened(&rt, each_100, &capture, &[1, 0, 3, 0, 0, 65_535, 10_000, 0]);
    let each_second = b"version = 4\nirq_us = 1000000\n[[station]]\n";
    expect_opened(&rt, each_second, &capture, &[0, 0, 0, 0, 0, 65_535, 1, 0]);
}

#[test]
fn nanoseconds_count(rt: HostRuntime) {
    let times = [(3, 2_999), (3, 3_000), (3, 5_999), (3, 9_000), (3, 9_001)];
    let capture = capture_of(&rt, &NANOSECONDS, &times);
    let each_3 = b"version = 4\nirq_us = 3\n[[station]]\n";
    expect_opened(&rt, each_3, &capture, &[1, 0, 2, 0, 0]);
}

#[test]
fn packets_of_a_sender_count(rt: HostRuntime) {
    let capture = capture_of(&rt, &MICROSECONDS, &TIMES);
    let each_3 = b"version = 4\nirq_every = 3\n[[station]]\n";
    expect_opened(&rt, each_3, &capture, &[0, 0, 1, 0, 0, 1, 0, 0]);
    expect_opened(&rt, b"[[station]]\n", &capture, &[1, 1, 1, 1, 1, 1, 1, 1]);
}
