//! Frames and the hashes of their flows: the published vectors of receive-side scaling (NDIS, "Verifying the RSS Hash Calculation"), and
//! frames whose ports don't count.
use lq_class::flow;
use std::process::Abort;

const ETHERNET: u32 = 1;

const RAW_IP: u32 = 101;

const TCP: u8 = 6;

const UDP: u8 = 17;

/// A protocol without ports.
const ICMP: u8 = 1;

/// Source, destination, their ports, the hash of the addresses alone, and that with the ports.
const IPV4: [([u8; 4], [u8; 4], (u16, u16), u32, u32); 5] = [
    (
        [66, 9, 149, 187],
        [161, 142, 100, 80],
        (2794, 1766),
        0x323e8fc2,
        0x51ccc178,
    ),
    (
        [199, 92, 111, 2],
        [65, 69, 140, 83],
        (14230, 4739),
        0xd718262a,
        0xc626b0ea,
    ),
    (
        [24, 19, 198, 95],
        [12, 22, 207, 184],
        (12898, 38024),
        0xd2d0a5de,
        0x5c2b394a,
    ),
    (
        [38, 27, 205, 30],
        [209, 142, 163, 6],
        (48228, 2217),
        0x82989176,
        0xafc7327f,
    ),
    (
        [153, 39, 163, 191],
        [202, 188, 127, 2],
        (44251, 1303),
        0x5d1809c5,
        0x10e828a2,
    ),
];

/// The same of IPv6.
const IPV6: [([u8; 16], [u8; 16], (u16, u16), u32, u32); 3] = [
    (
        *b"\x3f\xfe\x25\x01\x02\0\x1f\xff\0\0\0\0\0\0\0\x07",
        *b"\x3f\xfe\x25\x01\x02\0\0\x03\0\0\0\0\0\0\0\x01",
        (2794, 1766),
        0x2cc18cd5,
        0x40207d3d,
    ),
    (
        *b"\x3f\xfe\x05\x01\0\x08\0\0\x02\x60\x97\xff\xfe\x40\xef\xab",
        *b"\xff\x02\0\0\0\0\0\0\0\0\0\0\0\0\0\x01",
        (14230, 4739),
        0x0f0c461c,
        0xdde51bbf,
    ),
    (
        *b"\x3f\xfe\x19\0\x45\x45\0\x03\x02\0\xf8\xff\xfe\x21\x67\xcf",
        *b"\xfe\x80\0\0\0\0\0\0\x02\0\xf8\xff\xfe\x21\x67\xcf",
        (44251, 38024),
        0x4b61e985,
        0x02d1feef,
    ),
];

fn joined(rt: &(impl Abort + AllocGlobal), parts: &[&[u8]]) -> Vec<u8> {
    let mut bytes = Vec::new(rt.alloc());
    for part in parts {
        bytes.extend_from_slice(part).expect(rt, "memory");
    }
    bytes
}

/// A packet of IPv4: a header of 20 bytes and two ports.
fn ipv4(
    rt: &(impl Abort + AllocGlobal),
    protocol: u8,
    source: &[u8],
    destination: &[u8],
    (from, to): (u16, u16),
) -> Vec<u8> {
    let front = [0x45, 0, 0, 24, 0, 0, 0, 0, 64, protocol, 0, 0];
    let (from, to) = (from.to_be_bytes(), to.to_be_bytes());
    joined(rt, &[&front, source, destination, &from, &to])
}

/// A packet of IPv6: a header of 40 bytes and two ports.
fn ipv6(
    rt: &(impl Abort + AllocGlobal),
    next: u8,
    source: &[u8],
    destination: &[u8],
    (from, to): (u16, u16),
) -> Vec<u8> {
    let front = [0x60, 0, 0, 0, 0, 4, next, 64];
    let (from, to) = (from.to_be_bytes(), to.to_be_bytes());
    joined(rt, &[&front, source, destination, &from, &to])
}

#[test]
fn published_vectors_of_ipv4(rt: HostRuntime) {
    for &(source, destination, ports, addresses, all) in &IPV4 {
        let with = flow(RAW_IP, &ipv4(&rt, TCP, &source, &destination, ports));
        let without = flow(RAW_IP, &ipv4(&rt, ICMP, &source, &destination, ports));
        assert_eq!(rt; (with, without), (Some(all), Some(addresses)));
    }
}

#[test]
fn published_vectors_of_ipv6(rt: HostRuntime) {
    for &(source, destination, ports, addresses, all) in &IPV6 {
        let with = flow(RAW_IP, &ipv6(&rt, UDP, &source, &destination, ports));
        let without = flow(RAW_IP, &ipv6(&rt, ICMP, &source, &destination, ports));
        assert_eq!(rt; (with, without), (Some(all), Some(addresses)));
    }
}

/// The first vector's packet, from 66.9.149.187:2794 to 161.142.100.80:1766.
const PACKET: [u8; 24] =
    *b"\x45\0\0\x18\0\0\0\0\x40\x11\0\0\x42\x09\x95\xbb\xa1\x8e\x64\x50\x0a\xea\x06\xe6";

const ADDRESSES: Option<u32> = Some(0x323e8fc2);

const WITH_PORTS: Option<u32> = Some(0x51ccc178);

/// That packet with another byte at a place.
fn with_byte(place: usize, byte: u8) -> [u8; 24] {
    let mut packet = PACKET;
    if place < 24 {
        packet[place] = byte;
    }
    packet
}

/// Its header has four bytes of options, before its ports.
const WITH_OPTIONS: &[u8] =
    b"\x46\0\0\x1c\0\0\0\0\x40\x11\0\0\x42\x09\x95\xbb\xa1\x8e\x64\x50\x01\x01\x01\0\x0a\xea\x06\xe6";

/// It stands behind one VLAN tag.
const TAGGED: &[u8] =
    b"\x02\0\0\0\0\x02\x02\0\0\0\0\x01\x81\0\0\x05\x08\0\x45\0\0\x18\0\0\0\0\x40\x11\0\0\x42\x09\x95\xbb\xa1\x8e\x64\x50\x0a\xea\x06\xe6";

fn expect_hash(rt: &impl Abort, link: u32, frame: &[u8], wanted: Option<u32>) {
    assert_eq!(rt; (link, flow(link, frame)), (link, wanted));
}

#[test]
fn ports_count_where_they_are_known(rt: HostRuntime) {
    expect_hash(&rt, RAW_IP, &PACKET, WITH_PORTS);
    expect_hash(&rt, RAW_IP, WITH_OPTIONS, WITH_PORTS);
    expect_hash(&rt, ETHERNET, TAGGED, WITH_PORTS);
    // don't fragment
    expect_hash(&rt, RAW_IP, &with_byte(6, 0x40), WITH_PORTS);
    // the first fragment, and a later one
    expect_hash(&rt, RAW_IP, &with_byte(6, 0x20), ADDRESSES);
    expect_hash(&rt, RAW_IP, &with_byte(7, 0x01), ADDRESSES);
    // a header of 16 bytes, and one that is longer than the frame
    expect_hash(&rt, RAW_IP, &with_byte(0, 0x44), ADDRESSES);
    expect_hash(&rt, RAW_IP, &with_byte(0, 0x4f), ADDRESSES);
    // cut before its ports, and within them
    expect_hash(&rt, RAW_IP, &PACKET[..20], ADDRESSES);
    expect_hash(&rt, RAW_IP, &PACKET[..23], ADDRESSES);
}

#[test]
fn ports_behind_an_extension_header_are_not_known(rt: HostRuntime) {
    let (source, destination, ports, addresses, all) = IPV6[0];
    let hop_by_hop = ipv6(&rt, 0, &source, &destination, ports);
    expect_hash(&rt, RAW_IP, &hop_by_hop, Some(addresses));
    let mut plain = ipv6(&rt, TCP, &source, &destination, ports);
    expect_hash(&rt, RAW_IP, &plain, Some(all));
    plain.truncate(43);
    expect_hash(&rt, RAW_IP, &plain, Some(addresses));
}

#[test]
fn other_frames_have_no_flow(rt: HostRuntime) {
    expect_hash(&rt, ETHERNET, &PACKET, None);
    expect_hash(&rt, 113, &PACKET, None);
    expect_hash(&rt, RAW_IP, &PACKET[..19], None);
    expect_hash(&rt, RAW_IP, &with_byte(0, 0x65), None);
    expect_hash(&rt, RAW_IP, &[], None);
}
