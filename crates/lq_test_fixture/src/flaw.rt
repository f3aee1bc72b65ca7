//! What may be wrong with the files of a run.
use std::alloc::{AllocError, AllocFailed};

/// What is wrong with the files of a run, the first thing that is found. Of a packet it is told by its number, and of a unit or
/// a multi-queue root too.
#[derive(Clone, Copy, Debug, PartialEq, Eq)]
pub enum Flaw {
    /// The plan or the capture is none.
    Input,
    /// The file of fates isn't there, or isn't text.
    Text,
    /// The packet's line isn't there, or tells no fate of it.
    Line(usize),
    /// There are more lines than packets.
    MoreLines,
    /// Sent by a unit that its station doesn't have; a packet of the first sender, by a unit that the station doesn't have then.
    Unit(usize),
    /// Full, but the packet seen isn't another one of its station and band that was let in.
    Seen(usize),
    /// Full, but fewer packets of its station and band were let in than fill a ring but for a batch.
    Room(usize),
    /// Shrunk by what isn't a resize of its station to a lower length; a packet of the first sender, by one that didn't find it.
    Shrunk(usize),
    /// Purged by what doesn't deactivate its station; a packet of the first sender, by another than the next such event.
    Purged(usize),
    /// Purged as hung, but the last unit of its station didn't hang, or the packet had been purged before.
    Hung(usize),
    /// Refused by what doesn't deactivate its station; a packet of the first sender, by another than the event that it comes behind.
    Refused(usize),
    /// A packet of the first sender was taken while its station was deactivated.
    Taken(usize),
    /// The unit sent more than it may before it hangs.
    TooMany(u32),
    /// The unit's serials aren't 0 up to the number sent, each once.
    Serials(u32),
    /// A sender's packets of one band don't ascend in what the unit sent, or went to a lower unit as well.
    Order(u32),
    /// The unit's capture isn't the records that it sent, or there is one of no unit.
    Capture(u32),
    /// The root's capture isn't the records that its children sent, or there is one of no root.
    Joint(u32),
    /// The counts aren't those of the fates.
    Counts,
    NoMemory,
}

impl From<AllocError> for Flaw {
    fn from(_error: AllocError) -> Flaw {
        Flaw::NoMemory
    }
}

impl<T: Drop> From<AllocFailed<T>> for Flaw {
    fn from(_error: AllocFailed<T>) -> Flaw {
        Flaw::NoMemory
    }
}

/// A refusal, where what is demanded doesn't hold.
pub fn demand(holds: bool, flaw: Flaw) -> Result<(), Flaw> {
    if holds { Ok(()) } else { Err(flaw) }
}
