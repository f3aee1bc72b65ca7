//! What a plan says of its stations and events, and why a text is refused as a plan.
use crate::device::Params;

/// How packets are split among the senders.
#[derive(Clone, Copy, Debug, PartialEq, Eq)]
pub enum Split {
    /// By their number, in turn.
    Round,
    /// By the last byte of their source address.
    Source,
    /// By the hash of their flow; a packet that has none by its source byte.
    Flow,
}

/// By what each packet's station, queue and child of a multi-queue root are chosen.
#[derive(Clone, Copy, Debug, PartialEq, Eq)]
pub enum Spread {
    /// By the last bytes of its addresses.
    Bytes,
    /// By the hash of its flow; a packet that has none by those bytes.
    Flow,
}

/// How a packet gets its priority, by which its band is chosen.
#[derive(Clone, Copy, Debug, PartialEq, Eq)]
pub enum Classify {
    /// By its type of service (`rt_tos2priority`), as `ip_forward` of net/ipv4/ip_forward.c does and the sockets of a host do.
    Tos,
    /// Not at all: it keeps priority 0, as a frame does that a bridge forwards.
    Never,
}

/// When the stopped queues are opened, as a driver's interrupt does it.
#[derive(Clone, Copy, Debug, PartialEq, Eq)]
pub enum Irq {
    /// After each so many packets of a sender.
    Every { packets: u32 },
    /// At each multiple of so many microseconds of the capture's own time.
    Period { microseconds: u32 },
}

/// A station: a queueing discipline with its queue and its first device. Each child of a multi-queue root is one.
#[derive(Clone, Copy, Debug, PartialEq, Eq)]
pub struct StationPlan {
    /// How many packets each of its three rings has slots for, at first.
    pub len: u32,
    /// How many slots a resize may give them.
    pub max_len: u32,
    /// Whether a packet may go past the rings to the device, as with `TCQ_F_CAN_BYPASS`.
    pub bypass: bool,
    /// What its first device is configured with.
    pub params: Params,
    /// How many transmit queues of its device share its rings.
    pub queues: u32,
    /// The card that opens its queue, if one does.
    pub card: Option<Card>,
}

/// A network card with its driver and the wire of its link.
#[derive(Clone, Copy, Debug, PartialEq, Eq)]
pub struct Card {
    /// How many thousand bits a second the wire carries.
    pub rate_kbit: u32,
    /// When the driver takes no packet more.
    pub limit: Limit,
    /// How many microseconds after a frame has left comes the interrupt that tells it.
    pub coalesce_us: u32,
    /// How many bytes come with each frame on the wire.
    pub overhead: u32,
    /// How many bytes of the wire a frame takes at least, with those.
    pub mpu: u32,
}

/// What a driver has room for. A packet that it accepted takes room until an interrupt tells that its frame has left.
#[derive(Clone, Copy, Debug, PartialEq, Eq)]
pub enum Limit {
    /// So many descriptors, one for a packet.
    Ring { descriptors: u32 },
    /// One packet more while no more than so many bytes are out (byte queue limits).
    Bql { bytes: u32 },
}

/// What an event does to its station.
#[derive(Clone, Copy, Debug, PartialEq, Eq)]
pub enum EventKind {
    /// Deactivates it, as `dev_deactivate`.
    Down,
    /// Activates it, as `dev_activate`.
    Up,
    /// Changes the length of its rings while senders run.
    Resize { len: u32 },
    /// Changes it while the station is deactivated, as `dev_qdisc_change_tx_queue_len`.
    TxQueueLen { len: u32 },
    /// Swaps its device for another one, configured with these parameters, while it is deactivated.
    Swap { params: Params },
}

/// An event: what is done to which stations, before which packet.
#[derive(Clone, Copy, Debug, PartialEq, Eq)]
pub struct EventPlan {
    /// The number of that packet.
    pub before: u32,
    /// The first of these stations.
    pub station: u32,
    /// How many they are: the children of one multi-queue root, or the one station that stands alone.
    pub mq: u32,
    pub kind: EventKind,
}

/// Why a text is refused as a plan. The numbers are those that the refusal's line shows; where several apply it is the
/// least.
#[derive(Clone, Copy, Debug, PartialEq, Eq)]
pub enum PlanReason {
    /// It isn't a TOML document.
    NotToml = 1,
    /// A key that plans don't have.
    UnknownKey,
    /// A key that isn't there and has no default.
    Missing,
    /// A value of another kind than its key has.
    Kind,
    /// A value outside its range.
    Range,
    /// An event that stands before an earlier one, or finds its station active or deactivated where it can't be.
    EventOrder,
    /// More than 65,536 bytes, whatever they are.
    TooLong = 8,
    /// A card with both limits, of descriptors and of bytes.
    TwoLimits,
    /// A card in a plan of several stations, or at a station with several queues or children.
    OneLink,
}
