//! The steps of a purge by control: `qdisc_reset` of net/sched/sch_generic.c, with `pfifo_fast_reset`, on a station that
//! is deactivated or whose device hangs. It takes the packets out of the requeue slot and the rings, whose fate is Purged.
ghost use Rattle.std.specs.Prelude.{◌≡◌, ℕ, ◌-◌, ◌<◌, true, None, ◌∷◌, []};
ghost use Rattle.lq_model.specs.Control.{is_quiet};
ghost use Rattle.lq_model.specs.declared.machine.Position.TheVariants.{Control};
ghost use Rattle.lq_table.specs.Sees.{view, position, ends_at, IsSeatOf};
ghost use Rattle.lq_table.specs.Consumers.{CarriesHead, IsBetweenTakes};
ghost use Rattle.lq_table.specs.Purges.{IsPurgingBand, MayPurgeHung};
ghost use Rattle.lq_band_laws.specs.Three.{Three as Of};
ghost use Rattle.lq_model.specs.Band.{Band};
ghost use Rattle.lq_table.specs.Step.{BeginHungPurge, BeginPurge, MakesSteps, PurgeSlot};

use crate::places::STATE;
use crate::shared::{Cpu, Shared};
use lq_device::TxDevice;
use std::marker::Brand;

impl<'a, D: TxDevice> Shared<'a, D> {
    /// A purge begins, and answers the plan's event that deactivated the station, which is its cause. In the account it is
    /// done with this step: nothing is held any more, and each packet that was held has Purged as its fate, which is
    /// owed from here on of the packet in the requeue slot, and of each other once control takes it. A load of the state
    /// by control that has loaded the calls inside as 0 since the station was deactivated.
    pub fn begin_purge(&self, cpu: &mut Cpu<D>) -> u32
        requires seat { IsSeatOf self.now cpu.old }
        requires at { (position cpu.old ≡ Control true) × (is_quiet (view cpu.old).control.phase ≡ true) }
        requires calm { ((view cpu.old).control.purge ≡ None) × ((view cpu.old).holder.resizing ≡ None) }
        requires packets { ((view cpu.old).packets.owed ≡ None) × ((view cpu.old).packets.fresh ≡ None) }
        ensures makes { (bands : Of Band) × (found : ℕ) × MakesSteps (BeginPurge result bands found ∷ []) cpu.old cpu.new }
    {
        let word = self.load_word::<Brand, _>(&mut cpu.known.seat, STATE, &());
        (word / 256 - 1) as u32
    }

    /// A purge begins whose cause is the hung device, as `begin_purge` says it. A load of the state by control that is
    /// the only seat, while its device hangs.
    pub fn begin_hung_purge(&self, cpu: &mut Cpu<D>)
        requires seat { IsSeatOf self.now cpu.old }
        requires at { MayPurgeHung cpu.old }
        requires calm { ((view cpu.old).control.purge ≡ None) × ((view cpu.old).holder.resizing ≡ None) }
        requires packets { ((view cpu.old).packets.owed ≡ None) × ((view cpu.old).packets.fresh ≡ None) }
        ensures makes { (bands : Of Band) × (found : ℕ) × MakesSteps (BeginHungPurge bands found ∷ []) cpu.old cpu.new }
    {
        self.load_word::<Brand, _>(&mut cpu.known.seat, STATE, &());
    }

    /// What stands in the slot at the head of the band that the purge has come to. Where it isn't 0 its packet is taken,
    /// and its fate is owed; where it is 0 the purge goes on with the next band. A load of that slot by control in a
    /// purge, which owes no fate and has done the zeroing so far.
    pub fn purge_slot(&self, cpu: &mut Cpu<D>, band: u32) -> u64
        requires seat { IsSeatOf self.now cpu.old }
        requires band { band < 3 }
        requires at { IsPurgingBand band cpu.old }
        requires packets { ((view cpu.old).packets.owed ≡ None) × ((view cpu.old).packets.fresh ≡ None) }
        requires rests { IsBetweenTakes band cpu.old }
        requires station { CarriesHead band cpu.old }
        requires head { (ends_at band cpu.old).head < self.now.max_len }
        ensures makes { MakesSteps (PurgeSlot band result ∷ []) cpu.old cpu.new }
    {
        let head = cpu.station().head(band);
        let word = self.slot_word(band, head);
        self.load_word::<Brand, _>(&mut cpu.known.seat, word, &band)
    }
}
