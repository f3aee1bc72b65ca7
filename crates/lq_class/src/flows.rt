//! The hash of a frame's flow, as receive-side scaling has it: Toeplitz's hash over the addresses and the ports, with the key of the
//! published vectors (Microsoft's NDIS, "Verifying the RSS Hash Calculation").

ghost use Rattle.std.specs.Prelude.{◌≡◌, ◌+◌, ◌*◌, ◌-◌, ◌/◌, ◌%◌, ◌^◌, ◌<◌, ◌≤◌, ◌∷◌, ◌&&◌, nat_le, [], length, slice_index};
ghost use Rattle.lq_model.specs.Flow.{flow_of, hash_key, has_ports, header_length, ipv4_flow, ipv6_flow, is_whole, ports_at, toeplitz};
ghost use Rattle.lq_class.specs.Hash.{ExtendsHash};

use crate::header::{ipv4_start, ipv6_start};

/// The key: 40 bytes.
const KEY: [u8; 40] = [
    0x6d, 0x5a, 0x56, 0xda, 0x25, 0x5b, 0x0e, 0xc2, 0x41, 0x67, 0x25, 0x3d, 0x43, 0xa3, 0x8f, 0xb0,
    0xd0, 0xca, 0x2b, 0xcb, 0xae, 0x7b, 0x30, 0xb4, 0x77, 0xcb, 0x2d, 0xa3, 0x80, 0x30, 0xf2, 0x0c,
    0x6a, 0x42, 0xb7, 0x3b, 0xbe, 0xac, 0x01, 0xfa,
];

/// Windows of the key are numbers below this: 32 bits.
const WINDOW: u64 = 1 << 32;

/// The bytes of two ports.
const PORTS: usize = 4;

/// `IPPROTO_TCP` and `IPPROTO_UDP` of include/uapi/linux/in.h.
const TCP: u8 = 6;

const UDP: u8 = 17;

/// The hash of a frame's flow; None of a frame that is neither IPv4 nor IPv6.
#[tactic(auto, unfolding(lq_model::specs::Flow::flow_of))]
pub fn flow(link: u32, frame: &[u8]) -> Option<u32>
    ensures { result ≡ flow_of link frame.now }
{
    match ipv4_start(link, frame) {
        Some(start) => Some(ipv4_hash(frame, start)),
        None => ipv6_start(link, frame).map(|start| ipv6_hash(frame, start)),
    }
}

/// The hash of the flow whose IPv4 header begins at the place.
fn ipv4_hash(frame: &[u8], start: usize) -> u32
    requires { start + 20 ≤ length frame.now }
    ensures { result ≡ toeplitz (ipv4_flow frame.now start) }
{
    let addresses = with_bytes(0, 0, &frame[start + 12..start + 20]);
    let place = start + header_length(frame[start]);
    with_ports(addresses, 8, frame, place, has_ipv4_ports(frame, start))
}

/// Whether ports follow the IPv4 header: of TCP or UDP, not in a fragment, and behind a header that is long enough.
fn has_ipv4_ports(frame: &[u8], start: usize) -> bool
    requires { start + 20 ≤ length frame.now }
    ensures { result ≡ (has_ports (slice_index frame.now (start + 9)) && is_whole frame.now start && nat_le 20 (header_length frame.now start)) }
{
    has_ports(frame[start + 9]) && is_whole(frame, start) && header_length(frame[start]) >= 20
}

/// The same of IPv6.
fn ipv6_hash(frame: &[u8], start: usize) -> u32
    requires { start + 40 ≤ length frame.now }
    ensures { result ≡ toeplitz (ipv6_flow frame.now start) }
{
    let addresses = with_bytes(0, 0, &frame[start + 8..start + 40]);
    let wanted = has_ports(frame[start + 6]);
    with_ports(addresses, 32, frame, start + 40, wanted)
}

/// Whether two ports follow the header of this protocol.
fn has_ports(protocol: u8) -> bool
    ensures { result ≡ has_ports protocol }
{
    protocol == TCP || protocol == UDP
}

/// Whether the packet isn't a fragment.
fn is_whole(frame: &[u8], start: usize) -> bool
    requires { start + 20 ≤ length frame.now }
    ensures { result ≡ is_whole frame.now start }
{
    u16::from_be_bytes([frame[start + 6], frame[start + 7]]) % 0x4000 == 0
}

/// How long an IPv4 header is, from its first byte.
fn header_length(first: u8) -> usize
    ensures { result ≡ first % 16 * 4 }
{
    usize::from(first % 16) * 4
}

/// A hash goes on over the two ports at a place, where they are there and wanted.
fn with_ports(hash: u32, hashed: usize, frame: &[u8], place: usize, wanted: bool) -> u32
    requires few { hashed ≤ 32 }
    requires near { place ≤ length frame.now + 60 }
    ensures { ExtendsHash hash hashed (ports_at frame.now place wanted) result }
{
    if wanted && place + PORTS <= frame.len() {
        with_bytes(hash, hashed, &frame[place..place + PORTS])
    } else {
        hash
    }
}

/// A hash of so many bytes goes on over these.
fn with_bytes(hash: u32, hashed: usize, bytes: &[u8]) -> u32
    requires { hashed + length bytes.now ≤ 36 }
    ensures { ExtendsHash hash hashed bytes.now result }
{
    let mut hash = hash;
    for (i, byte) in bytes.iter().enumerate() {
        hash = with_byte(hash, hashed + i, *byte);
    }
    hash
}

/// A hash of so many bytes goes on over one.
fn with_byte(hash: u32, hashed: usize, byte: u8) -> u32
    requires { hashed < 36 }
    ensures { ExtendsHash hash hashed (byte ∷ []) result }
{
    let key = key_from(hashed);
    let mut hash = hash;
    for bit in 0..8u32 {
        if (byte >> (7 - bit)) % 2 == 1 {
            hash ^= ((key >> (8 - bit)) % WINDOW) as u32;
        }
    }
    hash
}

/// The 40 bits of the key from a byte on.
fn key_from(place: usize) -> u64
    requires { place < 36 }
    ensures { result ≡ hash_key / 2 ^ (280 - 8 * place) % 2 ^ 40 }
{
    u64::from_be_bytes([
        0,
        0,
        0,
        KEY[place],
        KEY[place + 1],
        KEY[place + 2],
        KEY[place + 3],
        KEY[place + 4],
    ])
}
