//! What a seat keeps of its view in plain fields.

/// What a seat tells of its view at run time: whether it is the first, how many shares it has, whether it is raised, and
/// whether it has the turn of a packet, by which the start of a transmit is known from that of a soft interrupt.
#[derive(Clone, Copy)]
pub struct Marks {
    /// It is the first seat, which alone does control.
    pub(crate) first: bool,
    /// How many of the table's 1024 shares it has.
    pub(crate) shares: u32,
    /// It set SCHED and owes a soft interrupt.
    pub(crate) raised: bool,
    /// It has the turn of a packet.
    pub(crate) busy: bool,
}
