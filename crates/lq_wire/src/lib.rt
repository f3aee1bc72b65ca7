//! How often the queue of a station is opened after each packet where a card on a wire opens it: whenever the driver has room again; and when each packet
//! was accepted and its frame ended.
//!
//! One pass over the packets runs the station beside the driver's ring and the wire. Times are scaled: nanoseconds times the rate in thousand bits a second, so
//! that a byte takes 8,000,000 and nothing is rounded.
#![tactic(auto)]

mod line;
mod opens;
mod page;
mod pass;
mod stamp;
mod times;
mod wire;
mod wired;

pub use opens::openings_of_plan;
pub use page::Page;
pub use pass::times_of_wire;
pub use times::Times;
