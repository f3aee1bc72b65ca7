//! Captures cut at each length, in both byte orders, and generated.
use lq_pcap::{
    Capture, CaptureReason, CaptureRefusal, Places, gen_capture, push_header, push_record,
    read_capture,
};
use std::process::Abort;

// Little-endian, microseconds, Ethernet.
const HEADER: [u8; 24] = [
    0xd4, 0xc3, 0xb2, 0xa1, 2, 0, 4, 0, 0, 0, 0, 0, 0, 0, 0, 0, 0, 0, 4, 0, 1, 0, 0, 0,
];

// Big-endian, nanoseconds, Ethernet, and a packet of 34 bytes at 5 seconds and 10 nanoseconds.
const BIG_ENDIAN: [u8; 74] = [
    0xa1, 0xb2, 0x3c, 0x4d, 0, 2, 0, 4, 0, 0, 0, 0, 0, 0, 0, 0, 0, 4, 0, 0, 0, 0, 0, 1, 0, 0, 0, 5,
    0, 0, 0, 10, 0, 0, 0, 34, 0, 0, 0, 34, 2, 0, 0, 0, 0, 2, 2, 0, 0, 0, 0, 1, 8, 0, 0x45, 0, 0,
    20, 0, 0, 0, 0, 64, 253, 0, 0, 10, 0, 0, 1, 10, 0, 1, 0,
];

// The header and the first two records that the number 1 generates.
const GENERATED: [u8; 124] = [
    0xd4, 0xc3, 0xb2, 0xa1, 2, 0, 4, 0, 0, 0, 0, 0, 0, 0, 0, 0, 0, 0, 4, 0, 1, 0, 0, 0, 0, 0, 0, 0,
    0, 0, 0, 0, 0x22, 0, 0, 0, 0x22, 0, 0, 0, 2, 0, 0, 0, 0, 2, 2, 0, 0, 0, 0, 1, 8, 0, 0x45, 2, 0,
    0x14, 0, 0, 0, 0, 0x40, 0xfd, 0, 0, 0x0a, 0, 0, 0, 0x0a, 0, 1, 0, 0, 0, 0, 0, 0xe8, 3, 0, 0,
    0x22, 0, 0, 0, 0x22, 0, 0, 0, 2, 0, 0, 0, 0, 2, 2, 0, 0, 0, 0, 1, 8, 0, 0x45, 0x10, 0, 0x14, 0,
    1, 0, 0, 0x40, 0xfd, 0, 0, 0x0a, 0, 0, 0xe3, 0x0a, 0, 1, 1,
];

// A record at time 0 of an IPv4 packet with this type of service and these last bytes of its addresses.
fn record(tos: u8, source: u8, to: u8) -> [u8; 50] {
    [
        0, 0, 0, 0, 0, 0, 0, 0, 34, 0, 0, 0, 34, 0, 0, 0, 2, 0, 0, 0, 0, 2, 2, 0, 0, 0, 0, 1, 8, 0,
        0x45, tos, 0, 20, 0, 0, 0, 0, 64, 253, 0, 0, 10, 0, 0, source, 10, 0, 1, to,
    ]
}

// Three packets, 174 bytes.
fn three_packets(rt: &(impl Abort + AllocGlobal)) -> Vec<u8> {
    let mut bytes = Vec::from_slice(rt.alloc(), &HEADER).expect(rt, "memory");
    for part in &[record(0, 1, 0), record(0x10, 2, 0), record(8, 3, 0)] {
        bytes.extend_from_slice(part).expect(rt, "memory");
    }
    bytes
}

// How many packets the bytes have, or why they are no capture.
fn answer(rt: &(impl Abort + AllocGlobal), bytes: &[u8]) -> Result<usize, CaptureRefusal> {
    let bytes = Vec::from_slice(rt.alloc(), bytes).expect(rt, "memory");
    match read_capture(rt.alloc(), bytes) {
        Ok(capture) => Ok(capture.len()),
        Err(refusal) => Err(refusal),
    }
}

fn refused(reason: CaptureReason, place: u64) -> Result<usize, CaptureRefusal> {
    Err(CaptureRefusal::Refused { reason, place })
}

// What three packets, cut to this length, answer.
fn cut_answer(len: usize) -> Result<usize, CaptureRefusal> {
    match len {
        0..=23 => refused(CaptureReason::ShortHeader, len as u64),
        24 => Ok(0),
        25..=39 => refused(CaptureReason::CutRecordHeader, 24),
        40..=73 => refused(CaptureReason::CutData, 24),
        74 => Ok(1),
        75..=89 => refused(CaptureReason::CutRecordHeader, 74),
        90..=123 => refused(CaptureReason::CutData, 74),
        124 => Ok(2),
        125..=139 => refused(CaptureReason::CutRecordHeader, 124),
        140..=173 => refused(CaptureReason::CutData, 124),
        _ => Ok(3),
    }
}

#[test]
fn three_packets_cut_to_each_length(rt: HostRuntime) {
    let bytes = three_packets(&rt);
    assert_eq!(rt; bytes.len(), 174);
    for len in 0..175usize {
        let found = answer(&rt, &bytes[..len]);
        assert_eq!(rt; (len, found), (len, cut_answer(len)));
    }
}

// A header of another version, and one that begins as a file of gzip does.
const OTHER_VERSION: [u8; 24] = [
    0xd4, 0xc3, 0xb2, 0xa1, 3, 0, 4, 0, 0, 0, 0, 0, 0, 0, 0, 0, 0, 0, 4, 0, 1, 0, 0, 0,
];

const GZIP: [u8; 24] = [
    0x1f, 0x8b, 8, 0, 3, 0, 4, 0, 0, 0, 0, 0, 0, 0, 0, 0, 0, 0, 4, 0, 1, 0, 0, 0,
];

// The header, and that of a record of 262,144 bytes.
const LONG: [u8; 40] = [
    0xd4, 0xc3, 0xb2, 0xa1, 2, 0, 4, 0, 0, 0, 0, 0, 0, 0, 0, 0, 0, 0, 4, 0, 1, 0, 0, 0, 0, 0, 0, 0,
    0, 0, 0, 0, 0, 0, 4, 0, 0, 0, 4, 0,
];

// A capture of one record of 262,144 bytes and so many more, as its header says.
fn long_record(rt: &(impl Abort + AllocGlobal), more: u8) -> Vec<u8> {
    let mut header = LONG;
    header[32] = more;
    let mut long = Vec::from_slice(rt.alloc(), &header).expect(rt, "memory");
    long.resize(262_184, 7).expect(rt, "memory");
    long
}

#[test]
fn headers_and_lengths(rt: HostRuntime) {
    assert_eq!(rt;
        answer(&rt, &OTHER_VERSION),
        refused(CaptureReason::Version, 4)
    );
    assert_eq!(rt; answer(&rt, &GZIP), refused(CaptureReason::Magic, 0));
    assert_eq!(rt; answer(&rt, &long_record(&rt, 0)), Ok(1));
    assert_eq!(rt;
        answer(&rt, &long_record(&rt, 1)),
        refused(CaptureReason::LongRecord, 24)
    );
}

// The capture as it is written again.
fn written_again(rt: &(impl Abort + AllocGlobal), capture: &Capture) -> Vec<u8> {
    let mut out = Vec::new(rt.alloc());
    push_header(&mut out, capture).expect(rt, "memory");
    for i in 0..capture.len() {
        push_record(&mut out, capture, i).expect(rt, "memory");
    }
    out
}

#[test]
fn big_endian_written_again(rt: HostRuntime) {
    let bytes = Vec::from_slice(rt.alloc(), &BIG_ENDIAN).expect(&rt, "memory");
    let capture = read_capture(rt.alloc(), bytes)
        .ok()
        .expect(&rt, "a capture");
    assert_eq!(rt; (capture.len(), capture.link()), (1, 1));
    assert_eq!(rt; capture.frame(0), &BIG_ENDIAN[40..]);
    let out = written_again(&rt, &capture);
    assert_eq!(rt; out.as_slice(), &BIG_ENDIAN[..]);
}

#[test]
fn two_generated_packets(rt: HostRuntime) {
    let text = gen_capture(rt.alloc(), 1, 2).ok().expect(&rt, "memory");
    assert_eq!(rt; text.as_slice(), &GENERATED[..]);
    assert_eq!(rt; answer(&rt, &text), Ok(2));
}

const PLACES: [usize; 5] = [24, u32::MAX as usize, u32::MAX as usize + 1, 30, usize::MAX];

fn five_places(rt: &(impl Abort + AllocGlobal)) -> Places {
    let mut places = Places::new(rt.alloc());
    for &place in &PLACES {
        places.push(place).expect(rt, "memory");
    }
    places
}

#[test]
fn places_on_both_sides_of_4_gib(rt: HostRuntime) {
    let places = five_places(&rt);
    assert_eq!(rt; places.len(), 5);
    for i in 0..5usize {
        assert_eq!(rt; (i, places.at(i)), (i, PLACES[i]));
    }
}
