//! Laws of the definitions, each the contract of a function that does nothing.

ghost use Rattle.lq_pcapng.specs.Laws.{AcceptsPcapngAgain, AcceptsPcapngExactly, RefusesPcapngExactly};

/// Bytes are a capture exactly where they are a section header block and other blocks, each of which fits behind those
/// before it; and the capture has the interfaces and the packets among these blocks.
pub fn accepts_exactly()
    ensures { AcceptsPcapngExactly }
{}

/// They are refused exactly for the first fault that they have, at the place that shows it.
pub fn refuses_exactly()
    ensures { RefusesPcapngExactly }
{}

/// The capture that is written for packets of a capture, each once and in any order, is accepted again: with all its
/// interfaces, and with just those packets, in that order.
pub fn accepts_again()
    ensures { AcceptsPcapngAgain }
{}
