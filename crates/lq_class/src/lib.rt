//! The class of a frame: its priority, the band of a priority, and the two address bytes by which an owner and
//! a station are chosen. The tables are the kernel's: `ip_tos2prio` of net/ipv4/route.c, with the index that
//! `rt_tos2priority` of include/net/route.h takes, and `prio2band` of net/sched/sch_generic.c.
//!
//! A frame that isn't IPv4 has priority 0, source byte 0 and route byte 0. No call refuses a frame or takes
//! memory. Where more than one byte of a frame is wanted, `classify` finds its header once.
#![tactic(auto)]

ghost use Rattle.std.specs.Prelude.{◌≡◌, ◌<◌};
ghost use Rattle.lq_model.specs.Class.{tos_priority, band_of, priority_of, source_byte_of, route_byte_of};

mod flows;
mod header;
pub mod laws;

pub use flows::flow;
use header::ipv4_start;

/// `ip_tos2prio`.
const PRIORITIES: [u8; 16] = [0, 0, 0, 0, 2, 2, 2, 2, 6, 6, 6, 6, 4, 4, 4, 4];

/// `IPTOS_TOS_MASK` of include/uapi/linux/ip.h.
const TOS_MASK: u8 = 0x1e;

/// `prio2band`.
const BANDS: [u32; 16] = [1, 2, 2, 2, 1, 2, 0, 0, 1, 1, 1, 1, 1, 1, 1, 1];

/// `TC_PRIO_MAX` of include/uapi/linux/pkt_sched.h.
const MAX_PRIORITY: u8 = 15;

/// Where the type of service stands in an IPv4 header.
const TOS: usize = 1;

/// Where the last byte of the source address stands.
const SOURCE_END: usize = 15;

/// Where the last byte of the destination address stands.
const DESTINATION_END: usize = 19;

/// What is read of a frame; all 0 where it isn't IPv4.
#[derive(Clone, Copy, Debug, PartialEq, Eq)]
pub struct Class {
    /// The kernel's `skb->priority`, from the type of service.
    pub priority: u8,
    /// The last byte of the source address.
    pub source_byte: u8,
    /// The last byte of the destination address.
    pub route_byte: u8,
}

/// The priority, the source byte and the route byte of a frame of this link type.
#[tactic(auto, unfolding(lq_model::specs::Class::priority_of, lq_model::specs::Class::source_byte_of, lq_model::specs::Class::route_byte_of))]
pub fn classify(link: u32, frame: &[u8]) -> Class
    ensures priority { result.priority ≡ priority_of link frame.now }
    ensures source_byte { result.source_byte ≡ source_byte_of link frame.now }
    ensures route_byte { result.route_byte ≡ route_byte_of link frame.now }
{
    match ipv4_start(link, frame) {
        Some(start) => Class {
            priority: tos_priority(frame[start + TOS]),
            source_byte: frame[start + SOURCE_END],
            route_byte: frame[start + DESTINATION_END],
        },
        None => Class {
            priority: 0,
            source_byte: 0,
            route_byte: 0,
        },
    }
}

/// The priority of a frame of this link type, by its type of service.
#[tactic(auto, unfolding(lq_model::specs::Class::priority_of))]
pub fn priority(link: u32, frame: &[u8]) -> u8
    ensures { result ≡ priority_of link frame.now }
{
    ipv4_start(link, frame).map_or(0, |start| tos_priority(frame[start + TOS]))
}

/// The band that packets of this priority are queued in; the lowest is served first.
#[tactic(auto, unfolding(lq_model::specs::Class::band_of))]
pub fn band(priority: u8) -> u32
    ensures band { result ≡ band_of priority }
    ensures one_of_three { result < 3 }
{
    BANDS[usize::from(priority & MAX_PRIORITY)]
}

/// The last byte of the source address of a frame of this link type.
#[tactic(auto, unfolding(lq_model::specs::Class::source_byte_of))]
pub fn source_byte(link: u32, frame: &[u8]) -> u8
    ensures { result ≡ source_byte_of link frame.now }
{
    ipv4_start(link, frame).map_or(0, |start| frame[start + SOURCE_END])
}

/// The last byte of the destination address of a frame of this link type.
#[tactic(auto, unfolding(lq_model::specs::Class::route_byte_of))]
pub fn route_byte(link: u32, frame: &[u8]) -> u8
    ensures { result ≡ route_byte_of link frame.now }
{
    ipv4_start(link, frame).map_or(0, |start| frame[start + DESTINATION_END])
}

/// `rt_tos2priority`.
#[tactic(auto, unfolding(lq_model::specs::Class::tos_priority))]
fn tos_priority(tos: u8) -> u8
    ensures { result ≡ tos_priority tos }
{
    PRIORITIES[usize::from((tos & TOS_MASK) >> 1)]
}
