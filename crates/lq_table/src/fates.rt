//! The step on a fate word.
ghost use Rattle.std.specs.Prelude.{◌<◌, length, ◌∷◌, []};
ghost use Rattle.lq_model.specs.Words.{HasWord};
ghost use Rattle.lq_table.specs.Sees.{view, carried, IsSeatOf, packet_band};
ghost use Rattle.lq_table.specs.Fates.{MaySettle};
ghost use Rattle.lq_table.specs.Step.{MakesSteps, Settle};

use crate::shared::{Cpu, Shared};
use lq_device::TxDevice;
use lq_model::{Fate, fate_word};
use std::marker::Brand;

impl<'a, D: TxDevice> Shared<'a, D> {
    /// Stores the fate of the packet `n`, whose fate word was 0: what the kernel tells of a packet by
    /// `dev_hard_start_xmit`'s answer or by `kfree_skb`'s reason (net/sched/sch_generic.c, net/core/dev.c). Sent comes
    /// from the holder whose device has just accepted `n`; Full, Refused and Purged from the seat that owes the fate
    /// since the step that decided it; Shrunk from control, of the first of the packets that a resize dropped.
    pub fn settle(&self, cpu: &mut Cpu<D>, n: u32, fate: Fate)
        requires seat { IsSeatOf self.now cpu.old }
        requires packet { (n < length self.now.infos.now) × HasWord fate }
        requires may { MaySettle (packet_band self.now n) n fate (carried cpu.old) (view cpu.old) }
        ensures makes { MakesSteps (Settle n fate ∷ []) cpu.old cpu.new }
    {
        let word = self.fate_word_of(n);
        self.store_word::<Brand, _>(
            &mut cpu.known.seat,
            word,
            fate_word(fate),
            &(n, fate, &cpu.station),
        );
    }
}
