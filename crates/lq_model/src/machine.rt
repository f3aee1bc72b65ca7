//! The types of the machine of the run lock.

/// A packet as the machine of the run lock sees it.
#[derive(Clone, Copy)]
pub struct Packet {
    pub number: u32,
    /// The sender that transmits it; of its packets one at a time is in a transmit.
    pub owner: u32,
    /// 0, 1 or 2; the lowest is served first.
    pub band: u32,
    /// The queue of the device whose stop word it obeys.
    pub queue: u32,
}

/// A call that the word of the calls inside counts.
#[derive(Clone, Copy)]
pub enum Call {
    Transmit(Packet),
    SoftInterrupt,
}

/// What a seat tries the run lock for (`qdisc_run_begin` of include/net/sch_generic.h).
#[derive(Clone, Copy)]
pub enum Attempt {
    /// To serve the bands, into which a transmit has put this packet (or found its band full).
    Queued(Packet),
    /// To hand this packet of a transmit to the device, past the bands (`TCQ_F_CAN_BYPASS`).
    Direct(Packet),
    /// To serve the bands, in a soft interrupt.
    Interrupt,
}

/// What the holder of the run lock has in hand where it found a queue stopped.
#[derive(Clone, Copy)]
pub enum Blocked {
    /// A packet of that queue; `direct` where it goes past the bands.
    InHand { packet: Packet, direct: bool },
    /// No packet: the queue was looked at before one was taken.
    NoneTaken { queue: u32 },
}

/// Where a seat stands: the step that it does next.
#[derive(Clone, Copy)]
pub enum Position {
    /// In no call.
    Idle,
    /// Adds 1 to the calls inside.
    Enter(Call),
    /// Loads the state as a transmit begins.
    Check(Packet),
    /// Puts the packet into its band; `holds` where the seat has the run lock.
    Put {
        packet: Packet,
        holds: bool,
    },
    /// Tries the run lock.
    Try1(Attempt),
    /// Sets MISSED after the first try failed.
    Miss(Attempt),
    /// Tries the run lock once more.
    Try2(Attempt),
    /// Loads the state under the run lock, before a packet goes past the bands.
    Recheck(Packet),
    /// Loads the stop word of the queue of the packet in hand.
    Gate {
        packet: Packet,
        direct: bool,
    },
    /// Hands the packet to the device.
    Xmit {
        packet: Packet,
        direct: bool,
    },
    /// Stores the stop word: 1 in the queue's, or where the device hung 2 in each from this one on.
    StoreXoff {
        queue: u32,
        hung: bool,
        direct: bool,
    },
    /// Loads the state after a packet went past the bands.
    Post,
    /// Begins a dequeue: loads the stop word.
    Deq,
    /// Looks at the list of this band, for the first time or (`second`) once more.
    Scan {
        band: u32,
        second: bool,
    },
    /// Loads the state after all bands were found empty.
    Test,
    /// Clears MISSED, and then DRAINING, before the bands are looked at once more.
    ClearMissed,
    ClearDraining,
    /// Clears MISSED where a queue is stopped, loads its stop word once more, and then sets MISSED or DRAINING
    /// (`qdisc_maybe_clear_missed` of net/sched/sch_generic.c).
    BlockedClear(Blocked),
    BlockedLoad(Blocked),
    BlockedMiss(Blocked),
    BlockedDrain(Blocked),
    /// Sets MISSED, since a packet was requeued.
    Again,
    /// Sets MISSED, since the run has sent its quota.
    Quota,
    /// Releases the run lock.
    Unlock,
    /// Loads the state after the run lock was released; `inside` in a transmit or a soft interrupt.
    Tail {
        inside: bool,
    },
    /// Sets SCHED.
    Sched {
        inside: bool,
    },
    /// Takes 1 from the calls inside.
    Leave,
    /// Loads the state as a soft interrupt begins.
    Soft,
    /// Clears SCHED, and remembers whether DEACTIVATED was loaded.
    SoftClear {
        deactivated: bool,
    },
    /// Loads the state once more where DEACTIVATED was.
    Late,
    /// Opens this queue where it is stopped.
    Wake {
        queue: u32,
    },
    /// In a call of control; `holds` where it has the run lock.
    Control {
        holds: bool,
    },
}

/// A sender's access to the machine: it plays the part of a processor of the kernel.
#[derive(Clone, Copy)]
pub struct Seat {
    pub position: Position,
    /// A soft interrupt was scheduled on it and hasn't begun.
    pub raised: bool,
    /// How many packets its run has sent.
    pub run: u32,
}

/// How a call of a seat begins.
#[derive(Clone, Copy)]
pub enum Beginning {
    Transmits(Packet),
    Interrupts,
    Wakes { queue: u32 },
    Controls,
}

/// What a step is answered by the ring or the device.
#[derive(Clone, Copy)]
pub enum Answer {
    /// There was room, the packet was sent, or nothing was asked.
    Plain,
    /// The slot at the producer isn't empty.
    FullSlot,
    /// The device accepted the packet, and stopped its queue.
    Stop,
    /// The device accepted the packet, and hung.
    Hang,
    /// The device didn't accept the packet.
    Busy,
}

/// How far a deactivation has come.
#[derive(Clone, Copy)]
pub enum Phase {
    /// DEACTIVATED is clear.
    Active,
    /// DEACTIVATED was set.
    Closing,
    /// The calls inside were then loaded as 0.
    Quiet,
    /// All packets were then purged, and MISSED and DRAINING cleared.
    Purged,
}

/// A step of control.
#[derive(Clone, Copy)]
pub enum ControlStep {
    /// Ends the call.
    Return,
    /// Takes the run lock.
    GetLock,
    /// Releases the run lock; then MISSED is looked at, as after a run.
    RunEnd,
    /// Releases the run lock, while DEACTIVATED is set.
    Release,
    SetDeactivated,
    ClearDeactivated,
    LoadInside,
    /// Begins a purge with the requeue slot.
    PurgeSlot,
    /// Looks at the next band of the purge: drops its first packet, or finds it empty.
    PurgeBand,
    /// Clears a bit after the purge's last packet.
    PurgeMissed,
    PurgeDraining,
    /// Gives the bands this length; what doesn't fit is dropped.
    Resize { len: u32 },
    /// Stores 0 in a stop word, with a new device.
    StoreOpen { queue: u32 },
    /// Opens a stopped queue and sets SCHED, in one step.
    OpenQueue { queue: u32 },
}
