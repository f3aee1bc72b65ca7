//! When packets came, in both formats, and which options keep a capture from being read with its times.
ghost use Rattle.std.specs.Prelude.{◌≤◌, length};

use lq_pcap::Frames as _;
use lq_pcapng::{CaptureFile, CaptureReason, CaptureRefusal, read_either};
use std::process::Abort;

// Classic captures of one packet of no bytes, whose time is the numbers 5 and 10.
const MICROSECONDS: [u8; 40] = [
    0xd4, 0xc3, 0xb2, 0xa1, 2, 0, 4, 0, 0, 0, 0, 0, 0, 0, 0, 0, 0, 0, 4, 0, 1, 0, 0, 0, 5, 0, 0, 0,
    10, 0, 0, 0, 0, 0, 0, 0, 0, 0, 0, 0,
];

const NANOSECONDS: [u8; 40] = [
    0x4d, 0x3c, 0xb2, 0xa1, 2, 0, 4, 0, 0, 0, 0, 0, 0, 0, 0, 0, 0, 0, 4, 0, 1, 0, 0, 0, 5, 0, 0, 0,
    10, 0, 0, 0, 0, 0, 0, 0, 0, 0, 0, 0,
];

const MICROSECONDS_BIG_ENDIAN: [u8; 40] = [
    0xa1, 0xb2, 0xc3, 0xd4, 0, 2, 0, 4, 0, 0, 0, 0, 0, 0, 0, 0, 0, 4, 0, 0, 0, 0, 0, 1, 0, 0, 0, 5,
    0, 0, 0, 10, 0, 0, 0, 0, 0, 0, 0, 0,
];

const NANOSECONDS_BIG_ENDIAN: [u8; 40] = [
    0xa1, 0xb2, 0x3c, 0x4d, 0, 2, 0, 4, 0, 0, 0, 0, 0, 0, 0, 0, 0, 4, 0, 0, 0, 0, 0, 1, 0, 0, 0, 5,
    0, 0, 0, 10, 0, 0, 0, 0, 0, 0, 0, 0,
];

// Big-endian pcapng: an interface without options and one with times in nanoseconds, a simple packet, a packet of the second interface
// at 9, one of the first at 9, a simple one, and one of the second at 2^32. None has bytes.
const TWO_RESOLUTIONS: [u8; 204] = [
    0x0a, 0x0d, 0x0d, 0x0a, 0, 0, 0, 28, 0x1a, 0x2b, 0x3c, 0x4d, 0, 1, 0, 0, 255, 255, 255, 255,
    255, 255, 255, 255, 0, 0, 0, 28, 0, 0, 0, 1, 0, 0, 0, 20, 0, 1, 0, 0, 0, 0, 0, 0, 0, 0, 0, 20,
    0, 0, 0, 1, 0, 0, 0, 28, 0, 1, 0, 0, 0, 0, 0, 0, 0, 9, 0, 1, 9, 0, 0, 0, 0, 0, 0, 28, 0, 0, 0,
    3, 0, 0, 0, 16, 0, 0, 0, 0, 0, 0, 0, 16, 0, 0, 0, 6, 0, 0, 0, 32, 0, 0, 0, 1, 0, 0, 0, 0, 0, 0,
    0, 9, 0, 0, 0, 0, 0, 0, 0, 0, 0, 0, 0, 32, 0, 0, 0, 6, 0, 0, 0, 32, 0, 0, 0, 0, 0, 0, 0, 0, 0,
    0, 0, 9, 0, 0, 0, 0, 0, 0, 0, 0, 0, 0, 0, 32, 0, 0, 0, 3, 0, 0, 0, 16, 0, 0, 0, 0, 0, 0, 0, 16,
    0, 0, 0, 6, 0, 0, 0, 32, 0, 0, 0, 1, 0, 0, 0, 1, 0, 0, 0, 0, 0, 0, 0, 0, 0, 0, 0, 0, 0, 0, 0,
    32,
];

fn read(
    rt: &(impl Abort + AllocGlobal),
    bytes: &[u8],
    timed: bool,
) -> Result<CaptureFile, CaptureRefusal> {
    let bytes = Vec::from_slice(rt.alloc(), bytes).expect(rt, "memory");
    read_either(rt.alloc(), bytes, timed)
}

// The times of a capture's packets, in its order.
fn times_of(rt: &(impl Abort + AllocGlobal), bytes: &[u8]) -> Vec<u128> {
    let capture = read(rt, bytes, true).ok().expect(rt, "a capture");
    let mut times = Vec::new(rt.alloc());
    let mut before = 0;
    for i in 0..capture.len() {
        before = capture.time(i, before);
        times.push(before).expect(rt, "memory");
    }
    times
}

fn check_times(rt: &(impl Abort + AllocGlobal), bytes: &[u8], wanted: &[u128]) {
    let times = times_of(rt, bytes);
    assert_eq!(rt; times.as_slice(), wanted);
}

#[test]
fn classic_times_by_the_magic_number(rt: HostRuntime) {
    check_times(&rt, &MICROSECONDS, &[5_000_010_000]);
    check_times(&rt, &NANOSECONDS, &[5_000_000_010]);
    check_times(&rt, &MICROSECONDS_BIG_ENDIAN, &[5_000_010_000]);
    check_times(&rt, &NANOSECONDS_BIG_ENDIAN, &[5_000_000_010]);
}

#[test]
fn each_interface_has_its_resolution(rt: HostRuntime) {
    check_times(&rt, &TWO_RESOLUTIONS, &[0, 9, 9_000, 9_000, 4_294_967_296]);
}

const SECTION: [u8; 28] = [
    0x0a, 0x0d, 0x0d, 0x0a, 28, 0, 0, 0, 0x4d, 0x3c, 0x2b, 0x1a, 1, 0, 0, 0, 0xff, 0xff, 0xff,
    0xff, 0xff, 0xff, 0xff, 0xff, 28, 0, 0, 0,
];

// Little-endian: an interface with these options, and a packet of no bytes at this time, its upper and its lower half.
fn one_packet(rt: &(impl Abort + AllocGlobal), options: &[u8], upper: u32, lower: u32) -> Vec<u8>
    requires { length options.now ≤ 64 }
{
    let len = (20 + options.len() as u32).to_le_bytes();
    let mut bytes = Vec::from_slice(rt.alloc(), &SECTION).expect(rt, "memory");
    push(rt, &mut bytes, &[1, 0, 0, 0]);
    push(rt, &mut bytes, &len);
    push(rt, &mut bytes, &[1, 0, 0, 0, 0, 0, 0, 0]);
    push(rt, &mut bytes, options);
    push(rt, &mut bytes, &len);
    push(rt, &mut bytes, &[6, 0, 0, 0, 32, 0, 0, 0, 0, 0, 0, 0]);
    push(rt, &mut bytes, &upper.to_le_bytes());
    push(rt, &mut bytes, &lower.to_le_bytes());
    push(rt, &mut bytes, &[0, 0, 0, 0, 0, 0, 0, 0, 32, 0, 0, 0]);
    bytes
}

fn push(rt: &impl Abort, bytes: &mut Vec<u8>, more: &[u8]) {
    bytes.extend_from_slice(more).expect(rt, "memory");
}

fn check_time(rt: &(impl Abort + AllocGlobal), options: &[u8], time: (u32, u32), wanted: u128)
    requires { length options.now ≤ 64 }
{
    let (upper, lower) = time;
    check_times(rt, &one_packet(rt, options, upper, lower), &[wanted]);
}

// `if_tsresol` in powers of ten and of two, and without it. What isn't whole is rounded down.
#[test]
fn times_by_the_resolution(rt: HostRuntime) {
    check_time(&rt, &[], (0, 1_000_001), 1_000_001_000);
    check_time(&rt, &[], (1, 0), 4_294_967_296_000);
    check_time(&rt, &[9, 0, 1, 0, 0, 0, 0, 0], (0, 3), 3_000_000_000);
    check_time(&rt, &[9, 0, 1, 0, 3, 0, 0, 0], (0, 1_500), 1_500_000_000);
    check_time(&rt, &[9, 0, 1, 0, 9, 0, 0, 0], (0, 7), 7);
    check_time(&rt, &[9, 0, 1, 0, 12, 0, 0, 0], (0, 1_999), 1);
    check_time(&rt, &[9, 0, 1, 0, 28, 0, 0, 0], (u32::MAX, u32::MAX), 1);
    check_time(&rt, &[9, 0, 1, 0, 29, 0, 0, 0], (u32::MAX, u32::MAX), 0);
    check_time(&rt, &[9, 0, 1, 0, 127, 0, 0, 0], (u32::MAX, u32::MAX), 0);
    check_time(&rt, &[9, 0, 1, 0, 128, 0, 0, 0], (0, 3), 3_000_000_000);
    check_time(&rt, &[9, 0, 1, 0, 138, 0, 0, 0], (0, 1), 976_562);
    check_time(
        &rt,
        &[9, 0, 1, 0, 160, 0, 0, 0],
        (1, 0x8000_0000),
        1_500_000_000,
    );
    check_time(&rt, &[9, 0, 1, 0, 255, 0, 0, 0], (u32::MAX, u32::MAX), 0);
}

// `if_tsoffset` of 2 seconds, and of 2 seconds back: a time before 1970 is the start of 1970.
#[test]
fn times_with_an_offset(rt: HostRuntime) {
    check_time(
        &rt,
        &[14, 0, 8, 0, 2, 0, 0, 0, 0, 0, 0, 0],
        (0, 1_000_000),
        3_000_000_000,
    );
    let back = [14, 0, 8, 0, 0xfe, 0xff, 0xff, 0xff, 0xff, 0xff, 0xff, 0xff];
    check_time(&rt, &back, (0, 5_000_000), 3_000_000_000);
    check_time(&rt, &back, (0, 1_000_000), 0);
    let both = [9, 0, 1, 0, 9, 0, 0, 0, 14, 0, 8, 0, 2, 0, 0, 0, 0, 0, 0, 0];
    check_time(&rt, &both, (0, 5), 2_000_000_005);
}

// Other options are passed over, the first of two counts, and none counts behind the end of the options.
#[test]
fn which_option_counts(rt: HostRuntime) {
    let named = [2, 0, 3, 0, 97, 98, 99, 0, 9, 0, 1, 0, 9, 0, 0, 0];
    check_time(&rt, &named, (0, 7), 7);
    let twice = [9, 0, 1, 0, 0, 0, 0, 0, 9, 0, 1, 0, 9, 0, 0, 0];
    check_time(&rt, &twice, (0, 7), 7_000_000_000);
    let behind_the_end = [0, 0, 0, 0, 9, 0, 1, 0, 9, 0, 0, 0];
    check_time(&rt, &behind_the_end, (0, 7), 7_000);
}

// How many packets the bytes have, or why they are no capture.
fn answer(
    rt: &(impl Abort + AllocGlobal),
    bytes: &[u8],
    timed: bool,
) -> Result<usize, CaptureRefusal> {
    match read(rt, bytes, timed) {
        Ok(capture) => Ok(capture.len()),
        Err(refusal) => Err(refusal),
    }
}

// Options that keep a capture from being read with its times, and no other.
fn check_refused(rt: &(impl Abort + AllocGlobal), options: &[u8])
    requires { length options.now ≤ 64 }
{
    let bytes = one_packet(rt, options, 0, 0);
    assert_eq!(rt;
        (options.len(), answer(rt, &bytes, false)),
        (options.len(), Ok(1))
    );
    let refused = CaptureRefusal::Refused {
        reason: CaptureReason::BlockBody,
        place: 28,
    };
    assert_eq!(rt;
        (options.len(), answer(rt, &bytes, true)),
        (options.len(), Err(refused))
    );
}

#[test]
fn options_that_are_not_whole(rt: HostRuntime) {
    check_refused(&rt, &[9, 0, 1, 0]);
    check_refused(&rt, &[2, 0, 5, 0, 97, 98, 99, 100]);
    check_refused(&rt, &[2, 0, 0xff, 0xff]);
    check_refused(&rt, &[9, 0, 2, 0, 6, 6, 0, 0]);
    check_refused(&rt, &[9, 0, 0, 0]);
    check_refused(&rt, &[14, 0, 4, 0, 2, 0, 0, 0]);
    check_refused(
        &rt,
        &[9, 0, 1, 0, 9, 0, 0, 0, 14, 0, 7, 0, 2, 0, 0, 0, 0, 0, 0, 0],
    );
}

// Behind the end of the options any bytes may stand.
#[test]
fn bytes_behind_the_end_of_the_options(rt: HostRuntime) {
    let bytes = one_packet(&rt, &[0, 0, 0, 0, 9, 0, 0xff, 0xff], 0, 7);
    assert_eq!(rt; answer(&rt, &bytes, true), Ok(1));
}
