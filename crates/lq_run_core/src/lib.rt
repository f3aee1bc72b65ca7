//! The machine of the run lock and its bits, as include/net/sch_generic.h and net/sched/sch_generic.c of Linux
//! have them: a try-lock and the bits SCHED, DEACTIVATED, MISSED and DRAINING decide who empties the bands.
//!
//! `Machine` runs it, one atomic step of one seat at a time, in any order. `laws` says that no order leaves a
//! packet behind: the invariant (`IsKept` of lq_model) holds at every moment, and where it holds an active
//! machine with no call inside, no run, none scheduled and no stopped queue holds no packet.
#![tactic(auto)]

pub mod laws;
mod machine;
mod qdisc;
mod schedule;
mod start;
mod steps;
mod trace_run;
mod trace_text;

pub use lq_model::{Answer, Position, Seat};
pub use machine::Machine;
pub use schedule::is_number;
pub use start::Start;
pub use trace_run::{TraceReason, TraceRefusal, trace};
