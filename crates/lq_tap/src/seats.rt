//! Making a sender's seat, and taking one in.
ghost use Rattle.std.specs.Prelude.{◌≡◌, ◌<◌, ℕ, true, false};
ghost use Rattle.lq_band_laws.specs.Times.{times};
ghost use Rattle.lq_tap.specs.Views.{sender_view, spent_view};
ghost use Rattle.lq_tap.specs.Told.{having_split, having_joined};
ghost use Rattle.lq_tap.specs.Settled.{IsSettled};
ghost use Rattle.lq_tap.specs.Sees.{view, steps, setup, IsReaderOf, IsSenderOf, IsCutOff};
ghost use Rattle.lq_tap.specs.Made.{◌⊳◌, cut, with_join, did_load_base};

use crate::shared::{Tap, TapSeat};
use crate::view::Knowledge;
use atomic_table::Join;
use std::marker::Brand;

/// How a join puts two views together.
pub(crate) struct Together;

impl Join<Knowledge> for Together {
    ghost both = { λ v from. having_joined from v };

    ghost spent = { spent_view };
}

impl Tap {
    /// The seat of one sender, which has put nothing yet. No seat of that sender was made before.
    pub fn split(&self, seat: &mut TapSeat, sender: u32) -> TapSeat
        requires seat { IsReaderOf self.now seat.old }
        requires sender { (sender < self.now.senders) × (0 < times sender (view seat.old).reader.seatless) }
        ensures seat { IsReaderOf self.now seat.new }
        ensures view { view seat.new ≡ having_split sender (view seat.old) }
        ensures steps { steps seat.new ≡ steps seat.old ⊳ cut }
        ensures other { IsSenderOf self.now result × (view result ≡ sender_view (setup self.now) sender) × IsCutOff seat.old result }
    {
        TapSeat {
            seat: self.table.split_seat::<Brand, _>(&mut seat.seat, &sender),
        }
    }

    /// Takes in the seat of a sender that has ended. Once all seats are joined, and a batch was empty that was asked for after
    /// all senders were found to have ended, each packet that was put is one that the reader took, or one that was destroyed.
    pub fn join(&self, into: &mut TapSeat, from: TapSeat)
        requires seat { IsReaderOf self.now into.old }
        requires other { IsSenderOf self.now from × ((view from).sender.going ≡ false) }
        ensures seat { IsReaderOf self.now into.new }
        ensures view { view into.new ≡ having_joined (view from) (view into.old) }
        ensures steps { (found : ℕ) × (steps into.new ≡ with_join (steps from) (steps into.old) ⊳ did_load_base found) }
        ensures settled { (view into.new).reader.out ≡ 0 → (view into.new).reader.drained ≡ true → IsSettled (view into.new) }
    {
        let TapSeat { seat } = from;
        self.table.join_seat::<Together>(&mut into.seat, seat);
        self.table.load::<Brand, _>(&mut into.seat, 0, &());
    }
}
