//! Where the IPv4 header or the IPv6 header of a frame begins.

ghost use Rattle.std.specs.Prelude.{◌≡◌, ◌+◌, ◌^◌, ◌<◌, ◌≤◌, length, IfSome};
ghost use Rattle.lq_model.specs.Class.{has_type, ethernet_start, network_start, has_ipv4, ipv4_start, has_ipv6, ipv6_start};

/// libpcap's `LINKTYPE_ETHERNET`.
const ETHERNET: u32 = 1;

/// libpcap's `LINKTYPE_RAW`.
const RAW_IP: u32 = 101;

/// `ETH_P_IP` of include/uapi/linux/if_ether.h.
const IPV4: u16 = 0x0800;

/// `ETH_P_IPV6`.
const IPV6: u16 = 0x86dd;

/// `ETH_P_8021Q`.
const VLAN: u16 = 0x8100;

/// Where the EtherType of an Ethernet frame stands.
const ETHERTYPE: usize = 12;

/// The bytes of a VLAN tag, which stands before the EtherType.
const TAG: usize = 4;

/// The bytes of an IPv4 header without options.
const IPV4_HEADER: usize = 20;

/// The bytes of an IPv6 header without extension headers.
const IPV6_HEADER: usize = 40;

/// Where the IPv4 header of the frame begins; None of a frame that isn't IPv4.
#[tactic(auto, unfolding(lq_model::specs::Class::ipv4_start))]
pub fn ipv4_start(link: u32, frame: &[u8]) -> Option<usize>
    ensures start { result ≡ ipv4_start link frame.now }
    ensures whole { IfSome result (λ start. start + 20 ≤ length frame.now) }
{
    network_start(link, IPV4, frame).filter(|start| has_ipv4(frame, *start))
}

/// Where the IPv6 header of the frame begins; None of a frame that isn't IPv6.
#[tactic(auto, unfolding(lq_model::specs::Class::ipv6_start))]
pub fn ipv6_start(link: u32, frame: &[u8]) -> Option<usize>
    ensures start { result ≡ ipv6_start link frame.now }
    ensures whole { IfSome result (λ start. start + 40 ≤ length frame.now) }
{
    network_start(link, IPV6, frame).filter(|start| has_ipv6(frame, *start))
}

/// Where the header of the protocol with this EtherType begins if the frame is long enough and its version is the protocol's.
fn network_start(link: u32, ethertype: u16, frame: &[u8]) -> Option<usize>
    ensures { result ≡ network_start ethertype link frame.now }
{
    match link {
        ETHERNET => ethernet_start(ethertype, frame),
        RAW_IP => Some(0),
        _ => None,
    }
}

/// The same on Ethernet. One VLAN tag is stepped over, no more.
fn ethernet_start(ethertype: u16, frame: &[u8]) -> Option<usize>
    ensures { result ≡ ethernet_start ethertype frame.now }
{
    if has_type(frame, ETHERTYPE, ethertype) {
        Some(ETHERTYPE + 2)
    } else if has_type(frame, ETHERTYPE, VLAN) && has_type(frame, ETHERTYPE + TAG, ethertype) {
        Some(ETHERTYPE + TAG + 2)
    } else {
        None
    }
}

/// Whether this EtherType stands at the place.
fn has_type(frame: &[u8], place: usize, ethertype: u16) -> bool
    requires { place + 2 < 2 ^ 64 }
    ensures { result ≡ has_type frame.now place ethertype }
{
    place + 2 <= frame.len() && u16::from_be_bytes([frame[place], frame[place + 1]]) == ethertype
}

/// Whether the fixed part of a header of version 4 stands at the place.
fn has_ipv4(frame: &[u8], start: usize) -> bool
    requires { start + 20 < 2 ^ 64 }
    ensures { result ≡ has_ipv4 frame.now start }
{
    start + IPV4_HEADER <= frame.len() && frame[start] >> 4 == 4
}

/// Whether the fixed part of a header of version 6 stands at the place.
fn has_ipv6(frame: &[u8], start: usize) -> bool
    requires { start + 40 < 2 ^ 64 }
    ensures { result ≡ has_ipv6 frame.now start }
{
    start + IPV6_HEADER <= frame.len() && frame[start] >> 4 == 6
}
