//! What a multi-queue root sent: the packets of its children in one list, and a line that counts them.
//!
//! [`joint`] merges the lists of packets that the children sent, in order of serial; `specs/Joint.antt` says which list that is.
#![tactic(auto)]

mod laws;
mod line;
mod merge;

pub use laws::joint_has_each_list;
pub use line::mq_text;
pub use lq_model::NoMemory;
pub use merge::joint;
