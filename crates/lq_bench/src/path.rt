//! The paths of packets.

use crate::senders::Work;
use lq_device::{PLAIN, StationPlan};
use lq_model::Params;

/// The path of a packet.
#[derive(Clone, Copy, Drop)]
pub enum Path {
    /// The station is deactivated.
    Refused,
    /// The device hangs from the first packet on, and the one slot of the band is full from the second on.
    Full,
    /// Past the bands, where a sender finds the station empty.
    Past,
    /// Through its band.
    Through,
    /// Past the bands, to a device that stops its queue; the driver's interrupt opens it, and a soft interrupt follows.
    Stopped,
}

impl Path {
    /// Each of them.
    pub const ALL: [Path; 5] = [
        Path::Refused,
        Path::Full,
        Path::Past,
        Path::Through,
        Path::Stopped,
    ];

    /// What is printed of it, with the atomic steps that one seat alone makes of it: a step that a seat makes only within a
    /// call is timed as part of the call.
    pub fn name(self) -> &'static str {
        match self {
            Path::Refused =>
                "a refused transmit (a compare-and-exchange, an add and a subtract, a load, 2 stores)",
            Path::Full =>
                "a transmit into a full band of a hung station (3 compare-and-exchanges, 2 exchanges of the slot, an add and a subtract, an and and an or, 7 loads, 4 stores)",
            Path::Past =>
                "a transmit past the bands (2 compare-and-exchanges, 2 exchanges of the slot, an add and a subtract, 5 loads, 3 stores)",
            Path::Through =>
                "a transmit through a band (3 compare-and-exchanges, 2 exchanges of the slot, an add and a subtract, 19 loads, 6 stores)",
            Path::Stopped =>
                "a transmit that stops the queue, the driver's interrupt and the soft interrupt (4 compare-and-exchanges, 4 exchanges of the slot, 2 adds and 2 subtracts, an or and an and, 15 loads, 5 stores)",
        }
    }

    /// Whether the station is deactivated.
    pub fn deactivated(self) -> bool {
        match self {
            Path::Refused => true,
            Path::Past | Path::Through | Path::Stopped | Path::Full => false,
        }
    }

    fn wakes(self) -> bool {
        match self {
            Path::Stopped => true,
            Path::Refused | Path::Past | Path::Through | Path::Full => false,
        }
    }

    /// What a sender of so many such packets does.
    pub fn work(self, count: u32) -> Work {
        Work {
            count,
            wakes: self.wakes(),
        }
    }

    fn bypass(self) -> bool {
        match self {
            Path::Past | Path::Stopped => true,
            Path::Refused | Path::Through | Path::Full => false,
        }
    }

    fn len(self) -> u32 {
        match self {
            Path::Full => 1,
            Path::Refused | Path::Past | Path::Through | Path::Stopped => 1000,
        }
    }

    fn hang_after(self) -> u32 {
        match self {
            Path::Full => 1,
            Path::Refused | Path::Past | Path::Through | Path::Stopped => 0,
        }
    }

    /// The plan of a station of such packets.
    pub fn plan(self) -> StationPlan {
        StationPlan {
            len: self.len(),
            max_len: self.len(),
            bypass: self.bypass(),
            params: Params {
                burst: if self.wakes() { 1 } else { 0 },
                hang_after: self.hang_after(),
                ..PLAIN.params
            },
            ..PLAIN
        }
    }
}
