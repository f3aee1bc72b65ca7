//! Frames of each form, and their classes.
use lq_class::{Class, band, classify, priority, route_byte, source_byte};
use std::process::Abort;

const ETHERNET: u32 = 1;

const RAW_IP: u32 = 101;

/// A header from 10.0.0.7 to 10.0.1.9, on Ethernet.
fn ethernet_frame(tos: u8) -> [u8; 34] {
    let mut frame =
        *b"\x02\0\0\0\0\x02\x02\0\0\0\0\x01\x08\0\x45\0\0\x14\0\0\0\0\x40\xfd\0\0\x0a\0\0\x07\x0a\0\x01\x09";
    frame[15] = tos;
    frame
}

/// A header of type of service 0x10 behind one VLAN tag, and behind two.
const TAGGED: &[u8] =
    b"\x02\0\0\0\0\x02\x02\0\0\0\0\x01\x81\0\0\x05\x08\0\x45\x10\0\x14\0\0\0\0\x40\xfd\0\0\x0a\0\0\x01\x0a\0\x01\0";

const TWICE_TAGGED: &[u8] =
    b"\x02\0\0\0\0\x02\x02\0\0\0\0\x01\x81\0\0\x05\x81\0\0\x05\x08\0\x45\x10\0\x14\0\0\0\0\x40\xfd\0\0\x0a\0\0\x01\x0a\0\x01\0";

/// A type of service, and its priority and band.
const CLASSES_OF_SERVICE: [(u8, u8, u32); 6] = [
    (0x10, 6, 0),
    (0x08, 2, 2),
    (0x18, 4, 1),
    (0, 0, 1),
    (0x03, 0, 1),
    (0x1e, 4, 1),
];

#[test]
fn type_of_service_gives_priority_and_band(rt: HostRuntime) {
    for &(tos, wanted, its_band) in &CLASSES_OF_SERVICE {
        let found = priority(ETHERNET, &ethernet_frame(tos));
        assert_eq!(rt; (tos, found, band(found)), (tos, wanted, its_band));
    }
}

const ZERO: Class = Class {
    priority: 0,
    source_byte: 0,
    route_byte: 0,
};

#[test]
fn address_bytes_of_a_frame(rt: HostRuntime) {
    let frame = ethernet_frame(0x10);
    let class = Class {
        priority: 6,
        source_byte: 7,
        route_byte: 9,
    };
    let bytes = (source_byte(ETHERNET, &frame), route_byte(ETHERNET, &frame));
    assert_eq!(rt; bytes, (7, 9));
    let classes = (classify(ETHERNET, &frame), classify(RAW_IP, &frame[14..]));
    assert_eq!(rt; classes, (class, class));
}

/// A frame of another EtherType.
const ARP: &[u8] =
    b"\0\0\0\0\0\0\0\0\0\0\0\0\x08\x06\0\0\0\0\0\0\0\0\0\0\0\0\0\0\0\0\0\0\0\0\0\0\0\0\0\0\0\0\0\0\0\0\0\0\0\0\0\0\0\0\0\0\0\0\0\0";

fn expect_zero(rt: &impl Abort, link: u32, frame: &[u8]) {
    assert_eq!(rt; (link, classify(link, frame)), (link, ZERO));
}

#[test]
fn other_frames_have_class_zero(rt: HostRuntime) {
    let frame = ethernet_frame(0x10);
    expect_zero(&rt, ETHERNET, ARP);
    expect_zero(&rt, ETHERNET, &frame[..13]);
    expect_zero(&rt, ETHERNET, &[]);
    expect_zero(&rt, 113, &frame);
    assert_eq!(rt; band(0), 1);
}

#[test]
fn one_tag_is_stepped_over(rt: HostRuntime) {
    assert_eq!(rt; (priority(ETHERNET, TAGGED), band(6)), (6, 0));
    assert_eq!(rt; classify(ETHERNET, TWICE_TAGGED), ZERO);
}
