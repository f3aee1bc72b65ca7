//! Captures in the pcapng format, as draft-ietf-opsawg-pcapng describes it and Wireshark, tshark and dumpcap write it:
//! reading one of one section from bytes, and writing its packets again.
//!
//! [`read_pcapng`] answers exactly the definition `pcapng_of` of `lq_model`, for all bytes. To write some of the
//! packets of a capture again, here the first one:
//!
//! ```text
//! let capture = read_pcapng(alloc, bytes, false)?;
//! let mut out = Vec::new(alloc);
//! push_section(&mut out, &capture)?;
//! if capture.len() > 0 {
//!     push_block(&mut out, &capture, 0)?;
//! }
//! ```
#![tactic(auto)]

mod blocks;
mod capture;
mod file;
mod interfaces;
mod laws;
mod layout;
mod numbers;
mod options;
mod packets;
mod reader;
mod section;
mod times;
mod writer;

pub use capture::NgCapture;
pub use file::{CaptureFile, read_either};
pub use laws::{accepts_again, accepts_exactly, refuses_exactly};
pub use lq_model::{CaptureReason, NoMemory};
pub use lq_pcap::CaptureRefusal;
pub use reader::read_pcapng;
pub use writer::{push_block, push_section};
