//! The words of the command line, the files that a command reads, and what it writes.
//!
//! Nothing here sends a packet: the top call reads with it, decides, and writes what became of the packets.
#![tactic(auto)]

mod answer;
mod command;
mod decide;
mod groups;
mod in_order;
mod outputs;
mod parts;
mod pieces;
mod read;
mod refusal;
mod report;
mod source;
mod tap_outputs;
mod times;
mod write;

pub use answer::{Status, Stop};
pub use command::{Command, GenOperands, RunOperands, TapOperands, read_words};
pub use decide::place_on;
pub use outputs::{write_counts, write_run};
pub use read::{read_capture_file, read_capture_for, read_plan_file, read_schedule_file};
pub use refusal::{Refusal, refuse};
pub use report::{RunInputs, RunReport, TapReport};
pub use tap_outputs::write_tap;
pub use write::{write_file, write_output};
