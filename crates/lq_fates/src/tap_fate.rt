//! What becomes of a packet of a tap.
ghost use Rattle.std.specs.Prelude.{◌≡◌};
ghost use Rattle.lq_fates.specs.Tap.{is_full_tap, is_lost, is_read};

/// What became of a packet that a sender brought to the ring.
#[derive(Clone, Copy, Debug, PartialEq, Eq)]
pub enum TapFate {
    /// The reader read it, after `place` others.
    Read { place: u32 },
    /// The ring was full; `seen` is the packet in the slot that it would have had.
    Full { seen: u32 },
    /// The reader gave it back, and the ring had no room left for it.
    Lost,
}

impl TapFate {
    pub fn is_read(&self) -> bool
        ensures { result ≡ is_read self.now }
    {
        matches!(self, TapFate::Read { place: _ })
    }

    pub fn is_full(&self) -> bool
        ensures { result ≡ is_full_tap self.now }
    {
        matches!(self, TapFate::Full { seen: _ })
    }

    pub fn is_lost(&self) -> bool
        ensures { result ≡ is_lost self.now }
    {
        matches!(self, TapFate::Lost)
    }
}
