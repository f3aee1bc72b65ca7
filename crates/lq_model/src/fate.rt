//! Fates, and what a packet is to the rules.

/// What a packet is to the rules, in eight bytes: each of a capture's packets has one.
#[derive(Clone, Copy, Debug, PartialEq, Eq)]
pub struct Info {
    /// How many lower packets have the same owner and station.
    pub rank: u32,
    /// The sender that transmits it.
    pub owner: u8,
    pub station: u8,
    pub band: u8,
    pub queue: u8,
}

/// Why a packet was purged.
#[derive(Clone, Copy, Debug, PartialEq, Eq)]
pub enum Cause {
    /// An event of the plan, by its number.
    Event(u32),
    /// The device of this unit hung.
    Hung(u32),
}

/// What became of a packet.
#[derive(Clone, Copy, Debug, PartialEq, Eq)]
pub enum Fate {
    /// The unit's device accepted it, after `serial` others.
    Sent { unit: u32, serial: u32 },
    /// Its band's ring was full; `seen` is the packet in the slot that it would have had.
    Full { seen: u32 },
    /// A resize of the rings, an event of the plan, dropped it.
    Shrunk { event: u32 },
    /// It was held when its station was emptied.
    Purged { cause: Cause },
    /// Its station was deactivated, by an event of the plan.
    Refused { event: u32 },
}
