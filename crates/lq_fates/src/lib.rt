//! What became of the packets, as lists and texts: of a run, and of a tap.
#![tactic(auto)]

mod count_lines;
mod counts;
mod fates;
mod laws;
mod line;
mod sent;
mod tap_fate;
mod tap_lines;
mod text;

pub use count_lines::counts_text;
pub use counts::{Counts, counts_of};
pub use fates::{Fates, fates_text, push_fate_line};
pub use laws::sent_is_that_list;
pub use lq_model::{Cause, Fate, Info, NoMemory};
pub use sent::sent_by_units;
pub use tap_fate::TapFate;
pub use tap_lines::{push_tap_fate_line, tap_total_line};
pub use text::{push_bytes, push_counted, push_number};
