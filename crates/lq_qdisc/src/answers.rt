//! What the calls answer.

/// What a dequeue took.
#[derive(Clone, Copy, Debug, PartialEq, Eq)]
pub enum Taken {
    /// The requeue slot and each band were empty.
    Empty,
    /// The queue is stopped, and nothing was taken.
    Stopped,
    /// This packet is in hand.
    Packet(u32),
}

/// Why the device doesn't have a packet that was handed to it.
#[derive(Clone, Copy, Debug, PartialEq, Eq)]
pub enum Why {
    /// The packet's queue is stopped.
    Stopped,
    /// The device answered that it is busy.
    Busy,
}

/// Whether the device accepted a packet.
#[derive(Clone, Copy, Debug, PartialEq, Eq)]
pub enum Through {
    Yes,
    /// The packet lies in the requeue slot.
    Back(Why),
}

/// How a run came to its end.
#[derive(Clone, Copy, Debug, PartialEq, Eq)]
pub enum RunEnd {
    /// The requeue slot and each band were empty.
    Empty,
    /// The device accepted as many packets as a run may send.
    Quota,
    /// The queue of the next packet is stopped.
    Stopped,
    /// The device answered that it is busy.
    Busy,
}

/// How a run came to its end, and how many packets the device accepted in it.
#[derive(Clone, Copy, Debug, PartialEq, Eq)]
pub struct Ran {
    /// Why it sent no more.
    pub end: RunEnd,
    /// How many packets the device accepted.
    pub sent: u32,
}

/// What became of a transmit.
#[derive(Clone, Copy, Debug, PartialEq, Eq)]
pub enum Sending {
    /// The packet went past the bands: to the device, or into the requeue slot.
    Direct,
    /// It was put into its band.
    Queued,
    /// Its band was full: the slot that it needed had this packet.
    FullSeen(u32),
    /// The station is deactivated by this event.
    Refused(u32),
    /// It isn't the packet's turn: the turn word of its owner is this. Nothing was done.
    OutOfTurn { found: u64 },
}
