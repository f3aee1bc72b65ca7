//! A resize of one band.
ghost use Rattle.std.specs.Prelude.{◌≡◌, ◌<◌, ◌≤◌, length, ℕ, List};
ghost use Rattle.lq_table.specs.Sees.{view, IsSeatOf};
ghost use Rattle.lq_table.specs.Views.{Work};
ghost use Rattle.lq_ring.specs.Seats.{ChangesView};
ghost use Rattle.lq_ring.specs.StepLists.{MakesStepsFrom, TurnRing};
ghost use Rattle.lq_ring.specs.Work.{having_turned, work_at, IsWorkDone, ArePacketsOf, IsTurner, IsWorkBegun, event_of_work};

use crate::moves::{clear_stale, count_filled, drop_rest, rotate};
use lq_device::TxDevice;
use lq_table::{Cpu, Shared};

/// A resize of the rings by an event of the plan: from so many slots to so many.
#[derive(Clone, Copy, Drop)]
pub(crate) struct Resize {
    /// How many slots each ring has.
    pub size: u32,
    /// How many it gets.
    pub len: u32,
    /// The plan's event.
    pub event: u32,
}

/// The consumer's ends of a band's ring.
#[derive(Clone, Copy, Drop)]
pub(crate) struct Ends {
    /// The first slot that isn't emptied yet.
    pub tail: u32,
    /// The slot that is consumed next.
    pub head: u32,
}

/// How many packets a band keeps, and how many it drops.
#[derive(Clone, Copy, Drop)]
pub(crate) struct Kept {
    /// How many packets it keeps.
    pub kept: u32,
    /// How many it drops.
    pub dropped: u32,
}

fn lesser(a: u32, b: u32) -> u32
    ensures less { (a < b → result ≡ a) × (b ≤ a → result ≡ b) }
{
    if a < b { a } else { b }
}

/// Puts the packets that the band keeps in order from slot 0 on, and stores the fates of the others. The seat turns the band, whose
/// work has not begun, and whose ends these are.
pub(crate) fn turn_band<'a, D: TxDevice>(
    shared: &Shared<'a, D>,
    cpu: &mut Cpu<D>,
    band: u32,
    ends: Ends,
    resize: Resize,
) -> Kept
    requires seat { IsSeatOf shared.now cpu.old }
    requires place { (band < 3) × (resize.len ≤ shared.now.max_len) }
    requires turner { IsTurner (view cpu.old) × (event_of_work (view cpu.old) ≡ resize.event) }
    requires whole { (held : List ℕ)
        × IsWorkBegun shared.now.max_len resize.size ends.tail ends.head resize.len held (work_at band (view cpu.old)) }
    requires packets { ArePacketsOf shared.now.infos.now band (work_at band (view cpu.old)).waiting }
    ensures makes { MakesStepsFrom (λ s. TurnRing band) cpu.old cpu.new }
    ensures stands { (w : Work) × ChangesView (having_turned band resize.event w) cpu.old cpu.new
        × IsWorkDone shared.now.max_len resize.len (work_at band (view cpu.old)) w }
    ensures few { result.dropped ≤ resize.size }
    ensures kept { (result.kept ≡ length (work_at band (view cpu.old)).kept)
        × (result.dropped ≡ length (work_at band (view cpu.old)).waiting) }
{
    clear_stale(shared, cpu, band, ends.tail, ends.head);
    rotate(shared, cpu, band, ends.head, resize.size);
    let limit = lesser(resize.len, resize.size);
    let kept = count_filled(shared, cpu, band, limit);
    let dropped = drop_rest(shared, cpu, band, limit, resize);
    Kept { kept, dropped }
}
