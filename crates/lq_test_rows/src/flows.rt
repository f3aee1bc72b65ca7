//! Stations, children and senders that are chosen by a flow's hash: the flows are among the vectors that are published for receive-side
//! scaling, with their hashes.
use crate::done::run;
use crate::gates::Recording;
use lq_test_fixture::{HEADER, unheld};
use lq_top::Resources;
use std::alloc::{AllocError, Global};
use std::test::Fail;

/// What a frame has behind the addresses of Ethernet. Ports stand behind each header.
#[derive(Clone, Copy)]
enum Packet {
    /// A protocol, the upper byte of the fragment's offset with its bits, the addresses, and the ports.
    Ipv4(u8, u8, [u8; 8], [u8; 4]),
    /// The header that is next, the addresses, and the ports.
    Ipv6(u8, [u8; 32], [u8; 4]),
    /// No packet of these, of 28 bytes.
    Other,
}

const ICMP: u8 = 1;

const TCP: u8 = 6;

const UDP: u8 = 17;

/// IPv6's options that each hop looks at.
const HOP_BY_HOP: u8 = 0;

/// The bit for more fragments.
const MORE: u8 = 0x20;

/// 66.9.149.187, port 2794, to 161.142.100.80, port 1766: 51cc c178, and without the ports 323e 8fc2.
const FIRST: [u8; 8] = [66, 9, 149, 187, 161, 142, 100, 80];

const FIRST_PORTS: [u8; 4] = [10, 234, 6, 230];

/// 199.92.111.2, port 14230, to 65.69.140.83, port 4739: c626 b0ea.
const SECOND: [u8; 8] = [199, 92, 111, 2, 65, 69, 140, 83];

const SECOND_PORTS: [u8; 4] = [55, 150, 18, 131];

/// 24.19.198.95, port 12898, to 12.22.207.184, port 38024: 5c2b 394a.
const THIRD: [u8; 8] = [24, 19, 198, 95, 12, 22, 207, 184];

const THIRD_PORTS: [u8; 4] = [50, 98, 148, 136];

/// 38.27.205.30, port 48228, to 209.142.163.6, port 2217: afc7 327f.
const FOURTH: [u8; 8] = [38, 27, 205, 30, 209, 142, 163, 6];

const FOURTH_PORTS: [u8; 4] = [188, 100, 8, 169];

/// 153.39.163.191, port 44251, to 202.188.127.2, port 1303: 10e8 28a2, and without the ports 5d18 09c5.
const FIFTH: [u8; 8] = [153, 39, 163, 191, 202, 188, 127, 2];

const FIFTH_PORTS: [u8; 4] = [172, 219, 5, 23];

/// 3ffe:501:8::260:97ff:fe40:efab, port 14230, to ff02::1, port 4739: dde5 1bbf, and without the ports 0f0c 461c.
const SIXTH: [u8; 32] = [
    0x3f, 0xfe, 5, 1, 0, 8, 0, 0, 2, 0x60, 0x97, 0xff, 0xfe, 0x40, 0xef, 0xab, 0xff, 2, 0, 0, 0, 0,
    0, 0, 0, 0, 0, 0, 0, 0, 0, 1,
];

const SIXTH_PORTS: [u8; 4] = [55, 150, 18, 131];

const PACKETS: [Packet; 10] = [
    Packet::Ipv4(TCP, 0, FIRST, FIRST_PORTS),
    Packet::Ipv4(UDP, 0, SECOND, SECOND_PORTS),
    Packet::Ipv4(TCP, 0, THIRD, THIRD_PORTS),
    Packet::Ipv4(TCP, 0, FOURTH, FOURTH_PORTS),
    Packet::Ipv4(UDP, 0, FIFTH, FIFTH_PORTS),
    // a fragment, and a protocol without ports: the addresses alone
    Packet::Ipv4(TCP, MORE, FIRST, FIRST_PORTS),
    Packet::Ipv4(ICMP, 0, FIFTH, FIFTH_PORTS),
    Packet::Ipv6(TCP, SIXTH, SIXTH_PORTS),
    // an extension header before the ports: the addresses alone
    Packet::Ipv6(HOP_BY_HOP, SIXTH, SIXTH_PORTS),
    // neither: its bytes, which are 0
    Packet::Other,
];

fn push_packet(bytes: &mut Vec<u8>, packet: &Packet) -> Result<(), AllocError> {
    match packet {
        Packet::Ipv4(protocol, fragment, addresses, ports) => {
            bytes.extend_from_slice(&[8, 0, 0x45, 0, 0, 24, 0, 0, *fragment, 0, 64, *protocol])?;
            bytes.extend_from_slice(&[0, 0])?;
            bytes.extend_from_slice(addresses)?;
            bytes.extend_from_slice(ports)
        }
        Packet::Ipv6(next, addresses, ports) => {
            bytes.extend_from_slice(&[0x86, 0xdd, 0x60, 0, 0, 0, 0, 4, *next, 64])?;
            bytes.extend_from_slice(addresses)?;
            bytes.extend_from_slice(ports)
        }
        Packet::Other => bytes.extend_from_slice(&[
            8, 6, 0, 0, 0, 0, 0, 0, 0, 0, 0, 0, 0, 0, 0, 0, 0, 0, 0, 0, 0, 0, 0, 0, 0, 0, 0, 0, 0,
            0,
        ]),
    }
}

/// How many bytes a packet's frame has.
fn frame_bytes(packet: &Packet) -> u8 {
    match packet {
        Packet::Ipv4(_, _, _, _) => 38,
        Packet::Ipv6(_, _, _) => 58,
        Packet::Other => 42,
    }
}

/// The capture of the packets, in Ethernet frames.
fn capture_of_packets(alloc: Global) -> Result<Vec<u8>, AllocError> {
    let mut bytes = HEADER.to_vec(alloc)?;
    for packet in &PACKETS {
        let len = frame_bytes(packet);
        bytes.extend_from_slice(&[0, 0, 0, 0, 0, 0, 0, 0, len, 0, 0, 0, len, 0, 0, 0])?;
        bytes.extend_from_slice(&[2, 0, 0, 0, 0, 2, 2, 0, 0, 0, 0, 1])?;
        push_packet(&mut bytes, packet)?;
    }
    Ok(bytes)
}

/// Plans, and the fates under each.
const ROWS: [(&str, &str); 3] = [
    // of eight stations the lower half of the hash chooses one
    (
        "version = 4\nspread = \"flow\"\n[[station]]\n[[station]]\n[[station]]\n[[station]]\n[[station]]\n[[station]]\n[[station]]\n[[station]]\n",
        "0 sent 0 0\n1 sent 2 0\n2 sent 2 1\n3 sent 7 0\n4 sent 2 2\n5 sent 2 3\n6 sent 5 0\n7 sent 7 1\n8 sent 4 0\n9 sent 0 1\n",
    ),
    // of eight children the upper half does
    (
        "version = 4\nspread = \"flow\"\n[[station]]\nmq = 8\n",
        "0 sent 4 0\n1 sent 6 0\n2 sent 3 0\n3 sent 7 0\n4 sent 0 0\n5 sent 6 1\n6 sent 0 1\n7 sent 5 0\n8 sent 4 1\n9 sent 0 2\n",
    ),
    // by the last bytes of IPv4's addresses, as before; others have none
    (
        "version = 4\n[[station]]\nmq = 8\n",
        "0 sent 3 0\n1 sent 2 0\n2 sent 7 0\n3 sent 6 0\n4 sent 7 1\n5 sent 3 1\n6 sent 7 2\n7 sent 0 0\n8 sent 0 1\n9 sent 0 2\n",
    ),
];

#[test]
fn spreads_flows_by_their_hashes(rt: HostRuntime) -> Result<(), Fail> {
    let alloc = rt.alloc();
    let on = unheld(&rt, alloc);
    let capture = capture_of_packets(alloc)?;
    for &(plan, fates) in &ROWS {
        run(&on, plan, &capture)?.has_file("o.fates", fates.as_bytes())?;
    }
    Ok(())
}

/// Modulo three the hashes are 1, 1, 2, 2 and 0; then 2 and 2 without ports; of IPv6 2 and 2; and the last packet's byte is 0. Each sender
/// passes the gate before each of its packets, and once after the last.
#[test]
fn splits_flows_by_their_hashes(rt: HostRuntime) -> Result<(), Fail> {
    let alloc = rt.alloc();
    let gate = Recording::new();
    let on = Resources {
        rt: &rt,
        alloc,
        gate: &gate,
    };
    let capture = capture_of_packets(alloc)?;
    let plan = "version = 4\nsenders = 3\nsplit = \"flow\"\n[[station]]\n";
    run(&on, plan, &capture)?;
    assert_eq!(rt; gate.passes(), [3, 3, 7]);
    Ok(())
}
