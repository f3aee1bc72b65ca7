//! Laws of the definitions, each the contract of a function that does nothing.

ghost use Rattle.lq_pcap.specs.Laws.{AcceptsAgain, AcceptsExactly, GeneratesCaptures, RefusesExactly};

/// Bytes are a capture exactly where they are a file header and whole records, at most 1,000,000 of them.
pub fn accepts_exactly()
    ensures { AcceptsExactly }
{}

/// They are refused exactly for the first fault that they have, at the place where it stands.
pub fn refuses_exactly()
    ensures { RefusesExactly }
{}

/// The capture that is written for records of a capture, each once and in any order, is accepted again and gives
/// just those records, in that order, under the same file header.
pub fn accepts_again()
    ensures { AcceptsAgain }
{}

/// What [`gen_capture`](crate::gen_capture) generates is a capture, of just the records that it generates.
pub fn generates_captures()
    ensures { GeneratesCaptures }
{}
