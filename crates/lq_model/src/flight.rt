//! A packet on its way over a wire, as a type.

/// A packet that the device of a card accepted. Its times are scaled: nanoseconds times the rate of the wire in thousand bits a second, so that nothing is
/// rounded.
#[derive(Clone, Copy, Debug, PartialEq, Eq)]
pub struct Flight {
    /// The packet's number.
    pub number: u32,
    /// When the device accepted it.
    pub accepted: u128,
    /// When its frame begins on the wire: at once, or when the frame before it ends.
    pub begins: u128,
    /// When its frame ends.
    pub ends: u128,
    /// The length of its frame, in bytes.
    pub length: u64,
}
