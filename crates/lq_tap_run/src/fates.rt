//! The fates, from what the senders and the reader kept.
ghost use Rattle.std.specs.Prelude.{◌<◌, ◌≤◌, ◌++◌, ◌^◌, ℕ, [], List, All, IfOk, length};
ghost use Rattle.lq_band_laws.specs.Times.{times};
ghost use Rattle.lq_tap_run.specs.Lanes.{numbers_of};
ghost use Rattle.lq_tap_run.specs.Marks.{AreMarked, AreMarkedFull};

use lq_fates::TapFate;
use lq_model::NoMemory;
use std::alloc::Global;

/// A fate for each packet, none of which is known.
pub fn unknown(alloc: Global, packets: u32) -> Result<Vec<TapFate>, NoMemory>
    ensures { IfOk result (λ fates. AreMarkedFull packets [] fates.items) }
{
    vec![in alloc; TapFate::Lost; packets as usize].map_err(|_| NoMemory)
}

/// Marks the packets that a sender found full.
pub fn mark_full(fates: &mut Vec<TapFate>, full: &[(u32, u32)])
    requires known { All (λ n. n < length fates.old.items) (numbers_of full.now) }
    ensures { (count : ℕ) (fulls : List (ℕ × ℕ)) → AreMarkedFull count fulls fates.old.items
        → AreMarkedFull count (fulls ++ full.now) fates.new.items }
{
    for (n, seen) in full {
        fates[*n as usize] = TapFate::Full { seen: *seen };
    }
}

/// Marks the packets that were read.
pub fn mark_read(fates: &mut Vec<TapFate>, read: &[u32])
    requires known { All (λ n. n < length fates.old.items) read.now }
    requires few { length read.now < 2 ^ 32 }
    requires once { (n : ℕ) → times n read.now ≤ 1 }
    ensures { (count : ℕ) (fulls : List (ℕ × ℕ)) → AreMarkedFull count fulls fates.old.items
        → AreMarked count fulls read.now fates.new.items }
{
    for (place, n) in read.iter().enumerate() {
        fates[*n as usize] = TapFate::Read {
            place: place as u32,
        };
    }
}
