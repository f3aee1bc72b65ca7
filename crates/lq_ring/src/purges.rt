//! The takes of a purge: `pfifo_fast_reset` of net/sched/sch_generic.c empties each ring by `__skb_array_consume`, with
//! the zeroing that this does.
ghost use Rattle.std.specs.Prelude.{◌≡◌, ◌≤◌, Some, length, ◌<◌, None};
ghost use Rattle.lq_band_laws.specs.Three.{at};
ghost use Rattle.lq_model.specs.Band.{held_of};
ghost use Rattle.lq_model.specs.Machine.{Purge};
ghost use Rattle.lq_table.specs.Sees.{slot, view, IsSameSeat, IsSeatOf};
ghost use Rattle.lq_table.specs.Views.{Left};
ghost use Rattle.lq_ring.specs.Purged.{IsBandPurged};
ghost use Rattle.lq_ring.specs.StepLists.{MakesStepsFrom, PurgeBand, PurgeOne};
ghost use Rattle.lq_ring.specs.Take.{CarriesStation};
ghost use Rattle.lq_model.specs.declared.fate.Fate.TheVariants as fate;
ghost use Rattle.lq_model.specs.Words.{HasWord};
ghost use Rattle.lq_table.specs.Rule.{IsResting};
ghost use Rattle.lq_ring.specs.Put.{no_locks};
ghost use Rattle.lq_ring.specs.Seats.{HasRingToPurge};

use crate::takes::discard_one;
use lq_device::TxDevice;
use lq_model::{Cause, Fate};
use lq_table::{Cpu, Shared};

/// Takes the first packet of the band that a purge has come to, and stores its fate. Where the band is empty it answers
/// false, and the purge goes on with the next band. No fate is owed before.
fn purge_one<'a, D: TxDevice>(
    shared: &Shared<'a, D>,
    cpu: &mut Cpu<D>,
    band: u32,
    size: u32,
    cause: Cause,
) -> bool
    requires seat { IsSeatOf shared.now cpu.old }
    requires below { band < 3 }
    requires at { HasRingToPurge shared.now band cause cpu.old }
    requires word { HasWord (fate.Purged cause) }
    requires packets { ((view cpu.old).packets.owed ≡ None) × ((view cpu.old).packets.fresh ≡ None) }
    requires rests { IsResting (view cpu.old).holder.size (view cpu.old).holder.ends × ((view cpu.old).holder.resizing ≡ None)
        × ((view cpu.old).holder.size ≡ size) × (size ≤ shared.now.max_len) }
    requires station { CarriesStation cpu.old }
    ensures makes { MakesStepsFrom (λ s. PurgeOne band size cause s result) cpu.old cpu.new }
    ensures stands { (slot cpu.new ≡ slot cpu.old) × CarriesStation cpu.new }
{
    let found = shared.purge_slot(cpu, band);
    if found == 0 {
        return false;
    }
    shared.settle(cpu, (found - 1) as u32, Fate::Purged { cause });
    discard_one(shared, cpu, band, size);
    true
}

/// Takes all packets of the band that a purge has come to, in order, and stores their fates. It answers their number, and
/// the purge goes on with the next band. They are no more than the ring has slots. Before the call no fate is owed, and the seat
/// has no producer lock.
pub fn purge_band<'a, D: TxDevice>(
    shared: &Shared<'a, D>,
    cpu: &mut Cpu<D>,
    band: u32,
    cause: Cause,
) -> u32
    requires seat { IsSeatOf shared.now cpu.old }
    requires below { band < 3 }
    requires at { HasRingToPurge shared.now band cause cpu.old }
    requires word { HasWord (fate.Purged cause) }
    requires packets { ((view cpu.old).packets.owed ≡ None) × ((view cpu.old).packets.fresh ≡ None) }
    requires rests { IsResting (view cpu.old).holder.size (view cpu.old).holder.ends × ((view cpu.old).holder.resizing ≡ None) }
    requires station { CarriesStation cpu.old }
    requires idle { (view cpu.old).locks ≡ no_locks }
    ensures makes { MakesStepsFrom (λ s. PurgeBand band cause s result) cpu.old cpu.new }
    ensures same { IsSameSeat cpu.old cpu.new × (slot cpu.new ≡ slot cpu.old) }
    ensures few { result ≤ shared.now.max_len }
    ensures station { CarriesStation cpu.new }
    ensures knows { (u : Purge) (l : Left) → (view cpu.old).control.purge ≡ Some u → (view cpu.old).holder.left ≡ Some l
        → IsBandPurged band u l (view cpu.old) (view cpu.new) × (result ≡ length (held_of (at band l.bands))) }
{
    let size = shared.load_size(cpu) as u32;
    for n in 0..size + 1 {
        if !purge_one(shared, cpu, band, size, cause) {
            return n;
        }
    }
    unreachable!()
}
