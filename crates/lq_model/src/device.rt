//! What a device is configured with, and how it answers.

/// How a device answers, beside accepting each packet. Where a number is 0 its rule is off.
#[derive(Clone, Copy, Debug, PartialEq, Eq)]
pub struct Params {
    /// The queue stops each time this many packets were accepted.
    pub burst: u32,
    /// Each call whose number is a multiple of this may be answered Busy.
    pub busy_every: u32,
    /// No more than this many calls are answered Busy.
    pub busy_limit: u32,
    /// The device hangs once it has accepted this many packets.
    pub hang_after: u32,
}

/// What a device answers to a packet, as a driver does by its return code and its queue's state
/// (include/linux/netdevice.h, `netdev_tx` and `netif_tx_stop_queue`).
#[derive(Clone, Copy, Debug, PartialEq, Eq)]
pub enum Tx {
    /// The packet is accepted.
    Sent,
    /// The packet is accepted, and the queue is stopped until the device wakes it.
    SentStop,
    /// The packet is accepted, and the device hangs: its queue stays stopped.
    SentHang,
    /// The packet isn't accepted; the caller keeps it (`NETDEV_TX_BUSY`).
    Busy,
}
