//! A purge: `qdisc_reset` of net/sched/sch_generic.c, with `pfifo_fast_reset`, by control that has the run lock.
ghost use Rattle.std.specs.Prelude.{◌≡◌, ℕ, Option, Some, true, None, length};
ghost use Rattle.lq_account_laws.specs.Trail.{down_of};
ghost use Rattle.lq_model.specs.declared.fate.Cause.TheVariants as cause;
ghost use Rattle.lq_model.specs.declared.fate.Fate.TheVariants as fate;
ghost use Rattle.lq_table.specs.Sees.{slot, IsSeatOf, view, position, IsSameSeat};
ghost use Rattle.lq_table.specs.Step.{BeginPurge};
ghost use Rattle.lq_control.specs.Control.{OwesPurged, all_purged, IsPurgeDone, IsPurged};
ghost use Rattle.lq_control.specs.Seats.{HasSlotToPurge};
ghost use Rattle.lq_control.specs.Steps.{ResetSlot, QdiscReset, DevResetQueue};
ghost use Rattle.lq_model.specs.Account.{Event};
ghost use Rattle.lq_model.specs.declared.machine.Position.TheVariants.{Control};
ghost use Rattle.lq_run.specs.Runs.{Rests};
ghost use Rattle.lq_ring.specs.Put.{no_locks};
ghost use Rattle.lq_ring.specs.Fates.{fates_onto};
ghost use Rattle.lq_ring.specs.Take.{CarriesStation};
ghost use Rattle.lq_table.specs.Rule.{IsResting};
ghost use Rattle.lq_table.specs.Moves.{IsKnownSlot};
ghost use Rattle.lq_table.specs.Views.{no_packets, Left};
ghost use Rattle.lq_model.specs.Control.{is_quiet};
ghost use Rattle.lq_table.specs.Purges.{first_purge, HoldPackets, HoldsAtMost, AreKnown};
ghost use Rattle.std.specs.Option.{option_to_list};
ghost use Rattle.lq_model.specs.Band.{Band};
ghost use Rattle.lq_band_laws.specs.Three.{Three};
ghost use Rattle.lq_ring.specs.StepLists.{MakesStepsFrom};

use lq_device::TxDevice;
use lq_model::{Cause, Fate};
use lq_ring::purge_band;
use lq_table::{Cpu, Shared};

/// Takes the packet from the requeue slot, if there is one, and stores its fate, which the purge owes since its beginning. It
/// answers their number.
fn purge_slot<'a, D: TxDevice>(shared: &Shared<'a, D>, cpu: &mut Cpu<D>, cause: Cause) -> u32
    requires seat { IsSeatOf shared.now cpu.old }
    requires slot { HasSlotToPurge shared.now cause cpu.old }
    ensures makes { (s : Option ℕ) → OwesPurged cause s (view cpu.old) → MakesStepsFrom (ResetSlot cause s) cpu.old cpu.new }
    ensures same { IsSameSeat cpu.old cpu.new × (slot cpu.new ≡ slot cpu.old) }
    ensures purged { let v = view cpu.old in (s : Option ℕ) → OwesPurged cause s v → (result ≡ length (option_to_list s))
        × (view cpu.new ≡ record v {
          packets = record v.packets { owed = None };
          settled = fates_onto (fate.Purged cause) (option_to_list s) v.settled;
        }) }
    ensures station { CarriesStation cpu.new }
{
    let Some(n) = cpu.station_mut().take_slot() else {
        return 0;
    };
    shared.settle(cpu, n, Fate::Purged { cause });
    1
}

/// Takes all packets of a purge that has begun, stores their fates, and clears MISSED and DRAINING. It answers their number.
pub(crate) fn purge_held<'a, D: TxDevice>(
    shared: &Shared<'a, D>,
    cpu: &mut Cpu<D>,
    cause: Cause,
) -> u32
    requires seat { IsSeatOf shared.now cpu.old }
    requires at { (position cpu.old ≡ Control true) × ((view cpu.old).control.purge ≡ Some first_purge)
        × ((view cpu.old).packets.fresh ≡ None) }
    requires slot { HasSlotToPurge shared.now cause cpu.old }
    requires bands { (l : Left) × ((view cpu.old).holder.left ≡ Some l) × (l.cause ≡ cause)
        × HoldsAtMost (view cpu.old).holder.size l.bands × HoldPackets shared.now.infos.now l.bands }
    requires rests { IsResting (view cpu.old).holder.size (view cpu.old).holder.ends × ((view cpu.old).holder.resizing ≡ None)
        × ((view cpu.old).locks ≡ no_locks) }
    ensures makes { (s : Option ℕ) → OwesPurged cause s (view cpu.old) → MakesStepsFrom (QdiscReset cause s result) cpu.old cpu.new }
    ensures same { IsSameSeat cpu.old cpu.new × (slot cpu.new ≡ slot cpu.old) }
    ensures purged { (s : Option ℕ) (l : Left) → OwesPurged cause s (view cpu.old) → (view cpu.old).holder.left ≡ Some l
        → IsPurgeDone cause (all_purged s l.bands) (view cpu.old) (view cpu.new) × (result ≡ length (all_purged s l.bands)) }
    ensures station { CarriesStation cpu.new }
{
    let slot = purge_slot(shared, cpu, cause);
    let low = purge_band(shared, cpu, 0, cause);
    let mid = purge_band(shared, cpu, 1, cause);
    let high = purge_band(shared, cpu, 2, cause);
    shared.reset_missed(cpu);
    shared.reset_draining(cpu);
    slot + low + mid + high
}

/// Purges a deactivated station with no call inside: all packets that it holds get Purged as their fate, by the event that
/// deactivated it. It answers their number.
pub(crate) fn purge_all<'a, D: TxDevice>(shared: &Shared<'a, D>, cpu: &mut Cpu<D>) -> u32
    requires seat { IsSeatOf shared.now cpu.old }
    requires at { (position cpu.old ≡ Control true) × (is_quiet (view cpu.old).control.phase ≡ true)
        × ((view cpu.old).control.purge ≡ None) }
    requires bare { ((view cpu.old).packets ≡ no_packets) × ((view cpu.old).locks ≡ no_locks) }
    requires rests { Rests cpu.old × IsKnownSlot (view cpu.old).share.about (view cpu.old).holder.slot }
    requires station { CarriesStation cpu.old }
    ensures makes { (event : ℕ) × (down_of (view cpu.old).trail ≡ Some event)
        × MakesStepsFrom (DevResetQueue (BeginPurge event) (cause.Event event) result) cpu.old cpu.new }
    ensures same { IsSameSeat cpu.old cpu.new × (slot cpu.new ≡ slot cpu.old) }
    ensures purged { let held = (view cpu.old).holder.slot in (event : ℕ) × (bands : Three Band)
        × (down_of (view cpu.old).trail ≡ Some event)
        × IsPurged (cause.Event event) (all_purged held bands) (view cpu.old) (view cpu.new)
        × (result ≡ length (all_purged held bands)) × AreKnown (view cpu.old) bands }
    ensures station { CarriesStation cpu.new }
{
    let event = shared.begin_purge(cpu);
    purge_held(shared, cpu, Cause::Event(event))
}
