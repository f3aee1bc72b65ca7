//! The steps of control, which the first seat alone does.
ghost use Rattle.std.specs.Prelude.{◌≡◌, ◌<◌, ℕ, Bool, true, false, Some, None, is_some, ◌∷◌, ◌+◌, []};
ghost use Rattle.lq_model.specs.declared.machine.Phase.TheVariants.{Purged};
ghost use Rattle.lq_model.specs.declared.machine.Position.TheVariants.{Idle as AtIdle, Control as AtControl};
ghost use Rattle.lq_table.specs.Sees.{view, position, carried, IsSeatOf};
ghost use Rattle.lq_table.specs.Purges.{HasPassedBands};
ghost use Rattle.lq_table.specs.Moves.{at_rest};
ghost use Rattle.lq_table.specs.Controls.{IsSwapFor, MayDeactivate};
ghost use Rattle.lq_table.specs.Step.{BeginControl, ClearDeactivated, EndControl, LoadInside, LoadLock, MakesSteps, OpenXoff, ResetDraining, ResetMissed, SetDeactivated, SwapDevice};

use crate::places::{BASE, INSIDE, LOCK, STATE, XOFF};
use crate::shared::{Cpu, Shared};
use lq_device::TxDevice;
use lq_model::state::{ACTIVE_BITS, ALL_BUT_DRAINING, ALL_BUT_MISSED};
use std::marker::Brand;

impl<'a, D: TxDevice> Shared<'a, D> {
    /// A call of control begins on the first seat.
    pub fn begin_control(&self, cpu: &mut Cpu<D>)
        requires seat { IsSeatOf self.now cpu.old }
        requires at { (position cpu.old ≡ AtIdle) × ((view cpu.old).control.first ≡ true) }
        ensures makes { (found : ℕ) × MakesSteps (BeginControl found ∷ []) cpu.old cpu.new }
    {
        self.load_word::<Brand, _>(&mut cpu.known.seat, BASE, &());
    }

    /// A call of control ends: the seat is idle.
    pub fn end_control(&self, cpu: &mut Cpu<D>)
        requires seat { IsSeatOf self.now cpu.old }
        requires at { position cpu.old ≡ AtControl false }
        ensures makes { (found : ℕ) × MakesSteps (EndControl found ∷ []) cpu.old cpu.new }
    {
        self.load_word::<Brand, _>(&mut cpu.known.seat, BASE, &());
    }

    /// Sets DEACTIVATED for this event of the plan, whose number stands above the bits from then on, as
    /// `dev_deactivate_queue` of net/sched/sch_generic.c sets the bit.
    pub fn set_deactivated(&self, cpu: &mut Cpu<D>, event: u32)
        requires seat { IsSeatOf self.now cpu.old }
        requires at { at_rest (position cpu.old) ≡ true }
        requires active { MayDeactivate (view cpu.old) }
        ensures makes { (was : Bool) × MakesSteps (SetDeactivated event was ∷ []) cpu.old cpu.new }
    {
        self.fetch_or_word::<Brand, _>(
            &mut cpu.known.seat,
            STATE,
            2 + 256 * (event as u64 + 1),
            &event,
        );
    }

    /// Loads the count of calls inside, for which `dev_deactivate_many` of net/sched/sch_generic.c has
    /// `synchronize_net` and `some_qdisc_is_busy`. Where it is 0 after a set of DEACTIVATED the station is quiet.
    pub fn load_inside(&self, cpu: &mut Cpu<D>) -> u64
        requires seat { IsSeatOf self.now cpu.old }
        requires at { (holds : Bool) × (position cpu.old ≡ AtControl holds) }
        ensures makes { MakesSteps (LoadInside result ∷ []) cpu.old cpu.new }
    {
        self.load_word::<Brand, _>(&mut cpu.known.seat, INSIDE, &())
    }

    /// Loads the run lock's word: 1 where it is held. A seat that has the table alone, and is in no call, learns what is left at
    /// the station.
    pub fn load_lock(&self, cpu: &mut Cpu<D>) -> u64
        requires seat { IsSeatOf self.now cpu.old }
        ensures makes { MakesSteps (LoadLock result ∷ []) cpu.old cpu.new }
    {
        self.load_word::<Brand, _>(&mut cpu.known.seat, LOCK, &())
    }

    /// Clears DEACTIVATED after a purge, as `transition_one_qdisc` of net/sched/sch_generic.c does.
    pub fn clear_deactivated(&self, cpu: &mut Cpu<D>)
        requires seat { IsSeatOf self.now cpu.old }
        requires at { position cpu.old ≡ AtControl false }
        requires purged { ((view cpu.old).control.phase ≡ Purged) × ((view cpu.old).control.purge ≡ None) }
        ensures makes { MakesSteps (ClearDeactivated ∷ []) cpu.old cpu.new }
    {
        self.fetch_and_word::<Brand, _>(&mut cpu.known.seat, STATE, ACTIVE_BITS, &());
    }

    /// Clears MISSED after the last packet of a purge, as `dev_reset_queue` of net/sched/sch_generic.c does. The purge
    /// ends where DRAINING was cleared before.
    pub fn reset_missed(&self, cpu: &mut Cpu<D>)
        requires seat { IsSeatOf self.now cpu.old }
        requires at { position cpu.old ≡ AtControl true }
        requires purge { HasPassedBands (view cpu.old) }
        ensures makes { MakesSteps (ResetMissed ∷ []) cpu.old cpu.new }
    {
        self.fetch_and_word::<Brand, _>(&mut cpu.known.seat, STATE, ALL_BUT_MISSED, &());
    }

    /// Clears DRAINING after the last packet of a purge, as `dev_reset_queue` of net/sched/sch_generic.c does. The purge
    /// ends where MISSED was cleared before.
    pub fn reset_draining(&self, cpu: &mut Cpu<D>)
        requires seat { IsSeatOf self.now cpu.old }
        requires at { position cpu.old ≡ AtControl true }
        requires purge { HasPassedBands (view cpu.old) }
        ensures makes { MakesSteps (ResetDraining ∷ []) cpu.old cpu.new }
    {
        self.fetch_and_word::<Brand, _>(&mut cpu.known.seat, STATE, ALL_BUT_DRAINING, &());
    }

    /// Stores 0 in the first queue's stop word of a station whose device was swapped, as a driver's open does with
    /// `netif_tx_start_all_queues` of include/linux/netdevice.h. The station that the seat carries has the new device, whose
    /// unit is below 256 and none of those before, and which was asked nothing. The device before it is the one that came with the
    /// latest unit, and has served the station. With several queues `open_xoff` goes on with the second.
    pub fn swap(&self, cpu: &mut Cpu<D>)
        requires seat { IsSeatOf self.now cpu.old }
        requires at { (position cpu.old ≡ AtControl true) × ((view cpu.old).holder.shut ≡ None) }
        requires purged { ((view cpu.old).control.phase ≡ Purged) × ((view cpu.old).control.purge ≡ None) }
        requires station { (is_some cpu.old.station ≡ true) × IsSwapFor (view cpu.old) (carried cpu.old) }
        ensures makes { MakesSteps (SwapDevice ∷ []) cpu.old cpu.new }
    {
        self.store_word::<Brand, _>(&mut cpu.known.seat, XOFF, 0, &cpu.station);
    }

    /// Stores 0 in the next queue's stop word after a swap of the device, in ascending order. Until the last one a word
    /// not yet stored may still be 1 or 2, though in the account each queue is open since the first store.
    pub fn open_xoff(&self, cpu: &mut Cpu<D>, queue: u32)
        requires queue { queue < self.now.queues }
        requires seat { IsSeatOf self.now cpu.old }
        requires at { (position cpu.old ≡ AtControl true) × ((view cpu.old).holder.shut ≡ Some queue) }
        requires purged { ((view cpu.old).control.phase ≡ Purged) × ((view cpu.old).control.purge ≡ None) }
        ensures makes { MakesSteps (OpenXoff queue ∷ []) cpu.old cpu.new }
    {
        let word = self.stop_word(queue);
        self.store_word::<Brand, _>(&mut cpu.known.seat, word, 0, &queue);
    }
}
