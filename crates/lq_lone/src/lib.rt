//! The station of the run of one sender, computed: one queue, and a device that accepts each packet and stops its queue at it.
#![tactic(auto)]

mod laws;
mod line;
mod lone;

pub use laws::served_again_is_the_same;
pub use line::Line;
pub use lone::Lone;
