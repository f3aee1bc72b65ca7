//! Why bytes are no capture.
ghost use Rattle.std.specs.Prelude.{◌≡◌};

use lq_model::CaptureReason;
use std::alloc::{AllocError, AllocFailed};

/// Why bytes were not read as a capture.
#[derive(Clone, Copy, Debug, PartialEq, Eq)]
pub enum CaptureRefusal {
    /// They are no capture: `reason` is the first test that they fail, and `place` the byte that shows it.
    Refused { reason: CaptureReason, place: u64 },
    /// There was no memory for the places of the records.
    NoMemory,
}

impl From<AllocError> for CaptureRefusal {
    ghost use Rattle.lq_pcap.specs.declared.refusal.CaptureRefusal.TheVariants.{NoMemory};

    ghost from_gives = { λ _ refusal. refusal ≡ NoMemory };

    fn from(_: AllocError) -> Self {
        CaptureRefusal::NoMemory
    }
}

impl<T: Drop> From<AllocFailed<T>> for CaptureRefusal {
    ghost use Rattle.lq_pcap.specs.declared.refusal.CaptureRefusal.TheVariants.{NoMemory};

    ghost from_gives = { λ _ refusal. refusal ≡ NoMemory };

    fn from(_: AllocFailed<T>) -> Self {
        CaptureRefusal::NoMemory
    }
}
