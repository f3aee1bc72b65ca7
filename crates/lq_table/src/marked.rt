//! A seat of the table with its marks.
ghost use Rattle.std.specs.Prelude.{◌≡◌};
ghost use Rattle.lq_table.specs.Marks.{marks_of};

use crate::marks::Marks;
use crate::view::Knowledge;
use atomic_table::Seat;
use lq_log::Knows;

/// A seat of the table, and what can be told of its view at run time.
#[derive(Drop)]
pub struct Marked<S> {
    /// The seat of the kit's table. Its view and its steps are for contracts alone.
    pub(crate) seat: Seat<S, Knows<Knowledge>>,
    /// What of the view can be told at run time.
    pub(crate) marks: Marks,
    pub ghost told: { marks ≡ marks_of seat.me.0.view },
}
