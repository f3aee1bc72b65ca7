//! The bits of a station's state (`enum qdisc_state_t` of include/net/sch_generic.h), what a stop word holds, and the
//! quota of a run.

/// A soft interrupt is to come (`__QDISC_STATE_SCHED`).
pub const SCHED: u64 = 1;

/// The station refuses packets (`__QDISC_STATE_DEACTIVATED`).
pub const DEACTIVATED: u64 = 2;

/// A seat found the run lock held (`__QDISC_STATE_MISSED`).
pub const MISSED: u64 = 4;

/// A stopped queue left packets (`__QDISC_STATE_DRAINING`).
pub const DRAINING: u64 = 8;

/// All 64 bits but SCHED, to clear it.
pub const ALL_BUT_SCHED: u64 = 18446744073709551614;

/// All 64 bits but MISSED, to clear it.
pub const ALL_BUT_MISSED: u64 = 18446744073709551611;

/// All 64 bits but DRAINING, to clear it.
pub const ALL_BUT_DRAINING: u64 = 18446744073709551607;

/// The bits of an active station; the event of a deactivation, above them, goes with DEACTIVATED.
pub const ACTIVE_BITS: u64 = 13;

/// The stop word of a queue that takes packets.
pub const OPEN: u64 = 0;

/// The stop word of a queue whose device hangs.
pub const HUNG: u64 = 2;

/// How many packets a run may send: `dev_tx_weight` of net/core/dev.c.
pub const QUOTA: u32 = 64;
