//! The steps on the count of calls inside.
ghost use Rattle.std.specs.Prelude.{◌≡◌, ◌<◌, true, ◌∷◌, []};
ghost use Rattle.lq_model.specs.declared.machine.Position.TheVariants.{Leave as AtLeave};
ghost use Rattle.lq_table.specs.Sees.{view, position, IsSeatOf};
ghost use Rattle.lq_table.specs.Moves.{at_rest};
ghost use Rattle.lq_table.specs.Inside.{MayEnter};
ghost use Rattle.lq_table.specs.Step.{Enter, Leave, MakesSteps};

use crate::marked::Marked;
use crate::places::INSIDE;
use crate::shared::{Cpu, Shared};
use lq_device::TxDevice;
use std::marker::Brand;

impl<'a, D: TxDevice> Shared<'a, D> {
    /// A call begins: a transmit of the packet that the seat brings, or else, where it has no packet's turn, a soft
    /// interrupt, which takes the raised mark down. The count of calls inside rises by one, as on entry to the read side of
    /// RCU in `__dev_queue_xmit` and in `net_tx_action` (net/core/dev.c).
    pub fn enter(&self, cpu: &mut Cpu<D>)
        requires seat { IsSeatOf self.now cpu.old }
        requires at { at_rest (position cpu.old) ≡ true }
        requires call { MayEnter (view cpu.old) }
        ensures makes { MakesSteps (Enter ∷ []) cpu.old cpu.new }
    {
        let Marked { seat, marks } = &mut cpu.known;
        self.fetch_add_word::<Brand, _>(seat, INSIDE, 1, &());
        marks.raised = marks.raised && marks.busy;
    }

    /// A call ends: the count of calls inside falls by one.
    pub fn leave(&self, cpu: &mut Cpu<D>)
        requires seat { IsSeatOf self.now cpu.old }
        requires at { position cpu.old ≡ AtLeave }
        ensures makes { MakesSteps (Leave ∷ []) cpu.old cpu.new }
    {
        self.fetch_sub_word::<Brand, _>(&mut cpu.known.seat, INSIDE, 1, &());
    }
}
