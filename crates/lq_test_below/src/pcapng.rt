// Captures in the pcapng format by hand, and what reading them answers.
ghost use Rattle.std.specs.Prelude.{◌<◌, length};

use lq_pcapng::{CaptureReason, CaptureRefusal, NgCapture, push_block, push_section, read_pcapng};
use std::process::Abort;

// Little-endian: a section header block, an interface of Ethernet with a snapshot length of 262,144, and an enhanced
// packet block of a frame of 34 bytes.
const ONE_PACKET: [u8; 116] = [
    0x0a, 0x0d, 0x0d, 0x0a, 28, 0, 0, 0, 0x4d, 0x3c, 0x2b, 0x1a, 1, 0, 0, 0, 0xff, 0xff, 0xff,
    0xff, 0xff, 0xff, 0xff, 0xff, 28, 0, 0, 0, 1, 0, 0, 0, 20, 0, 0, 0, 1, 0, 0, 0, 0, 0, 4, 0, 20,
    0, 0, 0, 6, 0, 0, 0, 68, 0, 0, 0, 0, 0, 0, 0, 0, 0, 0, 0, 0, 0, 0, 0, 34, 0, 0, 0, 34, 0, 0, 0,
    2, 0, 0, 0, 0, 2, 2, 0, 0, 0, 0, 1, 8, 0, 0x45, 0, 0, 20, 0, 0, 0, 0, 64, 253, 0, 0, 10, 0, 0,
    1, 10, 0, 1, 0, 0, 0, 68, 0, 0, 0,
];

// Big-endian, with a section length and options of 4 bytes: an interface of Ethernet that cuts packets to 5 bytes, a
// simple packet of 7 bytes on the wire, a block of another type, an interface of raw IP, and an enhanced packet of 6
// bytes of it.
const TWO_INTERFACES: [u8; 164] = [
    0x0a, 0x0d, 0x0d, 0x0a, 0, 0, 0, 32, 0x1a, 0x2b, 0x3c, 0x4d, 0, 1, 0, 0, 0, 0, 0, 0, 0, 0, 0,
    132, 0, 0, 0, 0, 0, 0, 0, 32, 0, 0, 0, 1, 0, 0, 0, 20, 0, 1, 0, 0, 0, 0, 0, 5, 0, 0, 0, 20, 0,
    0, 0, 3, 0, 0, 0, 24, 0, 0, 0, 7, 11, 12, 13, 14, 15, 0, 0, 0, 0, 0, 0, 24, 0, 0, 0, 5, 0, 0,
    0, 12, 0, 0, 0, 12, 0, 0, 0, 1, 0, 0, 0, 20, 0, 101, 0, 0, 0, 0, 0, 0, 0, 0, 0, 20, 0, 0, 0, 6,
    0, 0, 0, 40, 0, 0, 0, 1, 0, 0, 0, 0, 0, 0, 0, 0, 0, 0, 0, 6, 0, 0, 0, 6, 21, 22, 23, 24, 25,
    26, 0, 0, 0, 0, 0, 40, 0, 0, 0, 5, 0, 0, 0, 16, 1, 2, 3, 4, 0, 0, 0, 16,
];

fn read(rt: &(impl Abort + AllocGlobal), bytes: &[u8]) -> NgCapture {
    let bytes = Vec::from_slice(rt.alloc(), bytes).expect(rt, "memory");
    read_pcapng(rt.alloc(), bytes, false)
        .ok()
        .expect(rt, "a capture")
}

// How many packets the bytes have, or why they are no capture.
fn answer(rt: &(impl Abort + AllocGlobal), bytes: &[u8]) -> Result<usize, CaptureRefusal> {
    let bytes = Vec::from_slice(rt.alloc(), bytes).expect(rt, "memory");
    match read_pcapng(rt.alloc(), bytes, false) {
        Ok(capture) => Ok(capture.len()),
        Err(refusal) => Err(refusal),
    }
}

fn refused(reason: CaptureReason, place: u64) -> Result<usize, CaptureRefusal> {
    Err(CaptureRefusal::Refused { reason, place })
}

// What one packet, cut to this length, answers.
fn cut_answer(len: usize) -> Result<usize, CaptureRefusal> {
    match len {
        0..=27 => refused(CaptureReason::CutBlock, 0),
        28 => Ok(0),
        29..=47 => refused(CaptureReason::CutBlock, 28),
        48 => Ok(0),
        49..=115 => refused(CaptureReason::CutBlock, 48),
        _ => Ok(1),
    }
}

#[test]
fn one_packet_cut_to_each_length(rt: HostRuntime) {
    for len in 0..117usize {
        let found = answer(&rt, &ONE_PACKET[..len]);
        assert_eq!(rt; (len, found), (len, cut_answer(len)));
    }
}

// A byte's place, its new value, and the refusal.
const CHANGES: [(usize, u8, CaptureReason, u64); 11] = [
    (4, 8, CaptureReason::BlockLength, 0),
    (4, 30, CaptureReason::BlockLength, 0),
    (4, 24, CaptureReason::BlockLength, 20),
    (9, 0x3d, CaptureReason::ByteOrder, 8),
    (12, 2, CaptureReason::Version, 12),
    (27, 1, CaptureReason::BlockLength, 24),
    (32, 120, CaptureReason::CutBlock, 28),
    (56, 1, CaptureReason::NoInterface, 48),
    (68, 37, CaptureReason::BlockBody, 48),
    (70, 4, CaptureReason::LongRecord, 48),
    (112, 72, CaptureReason::BlockLength, 112),
];

// One packet, with another byte at this place.
fn changed(place: usize, value: u8) -> [u8; 116] {
    let mut bytes = ONE_PACKET;
    if let Some(byte) = bytes.get_mut(place) {
        *byte = value;
    }
    bytes
}

#[test]
fn each_byte_that_is_tested(rt: HostRuntime) {
    for &(place, value, reason, at) in &CHANGES {
        let found = answer(&rt, &changed(place, value));
        assert_eq!(rt; (place, found), (place, refused(reason, at)));
    }
}

fn check_packet(rt: &impl Abort, capture: &NgCapture, i: usize, frame: &[u8], link: u32)
    requires { i < length capture.now.packets }
{
    assert_eq!(rt; (i, capture.link_of(i)), (i, link));
    assert_eq!(rt; capture.frame(i), frame);
}

// Each packet has the link type of its interface.
#[test]
fn big_endian_with_two_interfaces(rt: HostRuntime) {
    let capture = read(&rt, &TWO_INTERFACES);
    assert!(rt; !capture.is_little_endian());
    assert_eq!(rt; (capture.len(), capture.interface_count()), (2, 2));
    check_packet(&rt, &capture, 0, &[11, 12, 13, 14, 15], 1);
    check_packet(&rt, &capture, 1, &[21, 22, 23, 24, 25, 26], 101);
}

// The section of a capture, and its packets, the last one first.
fn written_backwards(rt: &(impl Abort + AllocGlobal), capture: &NgCapture) -> Vec<u8> {
    let mut out = Vec::new(rt.alloc());
    push_section(&mut out, capture).expect(rt, "memory");
    for i in (0..capture.len()).rev() {
        push_block(&mut out, capture, i).expect(rt, "memory");
    }
    out
}

// The two interfaces, and then their packets, the second one first: no length of the section, and no block of another type.
const WRITTEN_BACKWARDS: [u8; 136] = [
    0x0a, 0x0d, 0x0d, 0x0a, 0, 0, 0, 32, 0x1a, 0x2b, 0x3c, 0x4d, 0, 1, 0, 0, 0xff, 0xff, 0xff,
    0xff, 0xff, 0xff, 0xff, 0xff, 0, 0, 0, 0, 0, 0, 0, 32, 0, 0, 0, 1, 0, 0, 0, 20, 0, 1, 0, 0, 0,
    0, 0, 5, 0, 0, 0, 20, 0, 0, 0, 1, 0, 0, 0, 20, 0, 101, 0, 0, 0, 0, 0, 0, 0, 0, 0, 20, 0, 0, 0,
    6, 0, 0, 0, 40, 0, 0, 0, 1, 0, 0, 0, 0, 0, 0, 0, 0, 0, 0, 0, 6, 0, 0, 0, 6, 21, 22, 23, 24, 25,
    26, 0, 0, 0, 0, 0, 40, 0, 0, 0, 3, 0, 0, 0, 24, 0, 0, 0, 7, 11, 12, 13, 14, 15, 0, 0, 0, 0, 0,
    0, 24,
];

// The second interface and the packets as they were.
#[test]
fn written_behind_all_interfaces(rt: HostRuntime) {
    let out = written_backwards(&rt, &read(&rt, &TWO_INTERFACES));
    assert_eq!(rt; out.as_slice(), &WRITTEN_BACKWARDS[..]);
}
