//! Several sender threads over the stations of a plan.
#![tactic(auto)]

mod all_senders;
mod countdown;
mod course;
mod ends;
mod laws;
mod read;
mod ready;
mod room;
mod send;
mod sender;
mod setup;
mod side_by_side;
mod spares;
mod swaps;
mod undo;

pub use all_senders::run;
pub use ends::end_run;
pub use laws::{
    each_so_many_packets_open_once, ends_make_fates, one_child_is_offered, runs_are_readable,
    runs_keep_boxes, runs_leave_devices, runs_leave_stations, runs_make_fates, runs_may_be_sent,
    same_openings_make_same_fates, stations_run_apart,
};
pub use lq_gate::{Free, Gate, Resources};
pub use read::RunFates;
pub use send::send_all;
pub use sender::{Job, Progress, Run, Sender, Senders};
pub use side_by_side::{all_send, send_loop};
pub use undo::undo_swaps;
