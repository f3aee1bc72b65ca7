//! The steps of a resize: `ptr_ring_resize_multiple` of include/linux/ptr_ring.h, which
//! `pfifo_fast_change_tx_queue_len` of net/sched/sch_generic.c calls. Control holds the run lock and the three producer
//! locks. There the kernel moves the packets into new arrays; here control moves them in place, one step a call.
ghost use Rattle.std.specs.Prelude.{◌≡◌, ℕ, ◌+◌, ◌*◌, ◌<◌, ◌≤◌, ◌∷◌, true, false, Some, [], List};
ghost use Rattle.lq_model.specs.Positions.{holds_lock};
ghost use Rattle.lq_model.specs.declared.machine.Position.TheVariants.{Control};
ghost use Rattle.lq_band_laws.specs.Three.{at};
ghost use Rattle.lq_table.specs.Views.{HalfResize};
ghost use Rattle.lq_table.specs.Sees.{view, position, lock_at, IsSeatOf};
ghost use Rattle.lq_table.specs.Resizes.{AreRefilled, may_resize, HasNothingHalfDone, HasHalfResize, MayFill};
ghost use Rattle.lq_band_laws.specs.Three.{Three as Of};
ghost use Rattle.lq_table.specs.Step.{BeginResize, ClearSlot, FillSlot, MakesSteps, SetProducer, StoreSize};

use crate::places::{SIZE, producer_word};
use crate::shared::{Cpu, Shared};
use lq_device::TxDevice;
use std::marker::Brand;

impl<'a, D: TxDevice> Shared<'a, D> {
    /// The resize to `len` begins, for the plan's event `event`. In the account it is done with this step: each band has
    /// the packets that it keeps, and the others have Shrunk as their fates, which control has still to store. Control
    /// learns all slots, in which each band's held packets stand from the head on. A load of the size word by control
    /// that has the three producer locks and no purge half done, of an active station or after the purge of a deactivated one,
    /// where nothing is held.
    pub fn begin_resize(&self, cpu: &mut Cpu<D>, len: u32, event: u32)
        requires seat { IsSeatOf self.now cpu.old }
        requires len { (0 < len) × (len ≤ self.now.max_len) }
        requires at { (position cpu.old ≡ Control true) × (may_resize (view cpu.old).control.phase ≡ true) }
        requires rests { HasNothingHalfDone (view cpu.old) }
        requires locks { (b : ℕ) → b < 3 → ((lock_at b cpu.old).holds ≡ true) × ((lock_at b cpu.old).stored ≡ false) }
        ensures makes { (held : ℕ → List ℕ) × (slots : Of (List ℕ)) × (found : ℕ)
            × MakesSteps (BeginResize len event held slots found ∷ []) cpu.old cpu.new }
    {
        self.load_word::<Brand, _>(&mut cpu.known.seat, SIZE, &(len, event));
    }

    /// Empties a slot, and answers what stood there. Its packet comes into control's hand where the band keeps it or has
    /// still to settle it. An exchange of that slot for 0, by control of a resize half done.
    pub fn clear_slot(&self, cpu: &mut Cpu<D>, band: u32, i: u32) -> u64
        requires seat { IsSeatOf self.now cpu.old }
        requires place { (band < 3) × (i < self.now.max_len) }
        requires holder { (holds_lock (position cpu.old) ≡ true) × HasHalfResize (view cpu.old) }
        ensures makes { MakesSteps (ClearSlot band i result ∷ []) cpu.old cpu.new }
    {
        let word = self.slot_word(band, i);
        self.swap_word::<Brand, _>(&mut cpu.known.seat, word, 0, &(band, i))
    }

    /// Puts the packet that came into control's hand last into an empty slot. A store of its number plus 1, by control
    /// of a resize half done.
    pub fn fill_slot(&self, cpu: &mut Cpu<D>, band: u32, i: u32, n: u32)
        requires seat { IsSeatOf self.now cpu.old }
        requires place { (band < 3) × (i < self.now.max_len) }
        requires holder { holds_lock (position cpu.old) ≡ true }
        requires hand { MayFill band i n (view cpu.old) }
        ensures makes { MakesSteps (FillSlot band i n ∷ []) cpu.old cpu.new }
    {
        let word = self.slot_word(band, i);
        self.store_word::<Brand, _>(&mut cpu.known.seat, word, n as u64 + 1, &(band, i, n));
    }

    /// Sets the index of the band's producer, whose lock control keeps. A store into the producer word, by control of a
    /// resize half done.
    pub fn set_producer(&self, cpu: &mut Cpu<D>, band: u32, index: u32)
        requires seat { IsSeatOf self.now cpu.old }
        requires band { band < 3 }
        requires holder { (holds_lock (position cpu.old) ≡ true) × HasHalfResize (view cpu.old) × ((lock_at band cpu.old).holds ≡ true) }
        ensures makes { MakesSteps (SetProducer band index ∷ []) cpu.old cpu.new }
    {
        let word = producer_word(band);
        self.store_word::<Brand, _>(
            &mut cpu.known.seat,
            word,
            2 * index as u64 + 1,
            &(band, index),
        );
    }

    /// Stores the new length, and ends the resize: the rings start again, with what each band keeps from slot 0 on. Each
    /// producer is set behind what its band keeps, and no fate is owed. A store into the size word, by control of a
    /// resize half done.
    pub fn store_size(&self, cpu: &mut Cpu<D>, len: u32)
        requires seat { IsSeatOf self.now cpu.old }
        requires holder { holds_lock (position cpu.old) ≡ true }
        requires ready { (t : HalfResize) × ((view cpu.old).holder.resizing ≡ Some t) × (len ≡ t.len) × AreRefilled t cpu.old }
        ensures makes { MakesSteps (StoreSize len ∷ []) cpu.old cpu.new }
    {
        self.store_word::<Brand, _>(&mut cpu.known.seat, SIZE, len as u64, &());
    }
}
