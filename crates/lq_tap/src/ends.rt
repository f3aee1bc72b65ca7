//! The end of a sender, and what the reader sees of it.
ghost use Rattle.std.specs.Prelude.{◌≡◌, ℕ, true, ◌==◌};
ghost use Rattle.lq_tap.specs.Told.{having_ended};
ghost use Rattle.lq_tap.specs.Made.{◌⊳◌, did_end};
ghost use Rattle.lq_tap.specs.Sees.{view, steps, IsReaderOf, IsSenderOf, SeesEnded};

use crate::shared::{Tap, TapSeat};
use std::marker::Brand;

const ENDED: usize = 24;

/// The sender of this seat puts no more packets. It adds 1 to the number of senders that have ended.
pub fn end_sender(tap: &Tap, seat: &mut TapSeat)
    requires seat { IsSenderOf tap.now seat.old × ((view seat.old).sender.going ≡ true) }
    ensures seat { IsSenderOf tap.now seat.new }
    ensures view { view seat.new ≡ having_ended (view seat.old) }
    ensures steps { steps seat.new ≡ steps seat.old ⊳ did_end }
{
    tap.table
        .fetch_add::<Brand, _>(&mut seat.seat, ENDED, 1, &());
}

/// Whether all senders have ended: true exactly where this call's load found as many ended senders as there are.
pub fn ended(tap: &Tap, seat: &mut TapSeat) -> bool
    requires seat { IsReaderOf tap.now seat.old }
    ensures seat { IsReaderOf tap.now seat.new }
    ensures found { (found : ℕ) × (result ≡ (found == tap.now.senders)) × SeesEnded found seat.old seat.new }
{
    tap.table.load::<Brand, _>(&mut seat.seat, ENDED, &()) == tap.senders as u64
}
