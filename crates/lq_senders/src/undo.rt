//! The devices go back to where they came from.
ghost use Rattle.std.specs.Prelude.{◌≡◌, ◌<◌, ◌≤◌, ◌+◌, ◌++◌, [], drop, length, map, count_by, slice_get, vec_capacity, vec_len};
ghost use Rattle.lq_senders.specs.Ends.{closed_state, home_device};
ghost use Rattle.lq_table.specs.Ended.{ended_state};
ghost use Rattle.lq_senders.specs.Setup.{AreAtHome};
ghost use Rattle.lq_senders.specs.Units.{by_unit, undone, undone_event};
ghost use Rattle.lq_model.specs.Plan.{is_swap, unit_count};

use crate::spares::lay_back;
use crate::swaps::{brought_unit, is_swap_kind};
use lq_device::TxDevice;
use lq_model::EventPlan;
use lq_plan::Plan;
use lq_table::{Closed, Ended};
use std::mem;

/// Takes closed stations apart: their devices, in their order, and what stays of them. Takes no memory.
pub fn take_apart<D: TxDevice>(
    mut closed: Vec<Closed<D>>,
    homes: &mut Vec<D>,
    ended: &mut Vec<Ended<D>>,
)
    requires home { AreAtHome (map closed_state closed.items) }
    requires none_yet { (homes.old.items ≡ []) × (ended.old.items ≡ []) }
    requires room { (vec_len closed ≤ vec_capacity homes.old) × (vec_len closed ≤ vec_capacity ended.old) }
    ensures homes { map D.state homes.new.items ≡ map home_device (map closed_state closed.items) }
    ensures ended { map ended_state ended.new.items ≡ map (λ x. x.ended) (map closed_state closed.items) }
{
    while let Some(station) = closed.pop() {
        let (stays, device) = station.into_device();
        let _taken_out = homes.insert(0, device);
        let _laid_out = ended.insert(0, stays);
    }
}

/// Undoes event `e`, if it swapped a device.
fn undo_event<D: TxDevice>(plan: &Plan, homes: &mut Vec<D>, spares: &mut Vec<D>, e: u32)
    requires event { e < length plan.now.events }
    requires homes { length homes.old.items ≡ length plan.now.stations }
    requires spares { length spares.old.items ≡ count_by is_swap plan.now.events }
    ensures undone { (map D.state homes.new.items, map D.state spares.new.items)
        ≡ undone_event plan.now e (slice_get plan.now.events e) (map D.state homes.old.items) (map D.state spares.old.items) }
    ensures homes { length homes.new.items ≡ length homes.old.items }
    ensures spares { length spares.new.items ≡ length spares.old.items }
{
    plan.stays_within_limits();
    let EventPlan {
        before: _,
        station,
        mq: _,
        kind,
    } = plan.event(e);
    if is_swap_kind(kind) {
        let place = brought_unit(plan, e) - plan.stations();
        mem::swap(&mut homes[station as usize], &mut spares[place as usize]);
    }
}

/// Undoes the plan's swaps, the latest first: each device that one took away comes back to its station, and the device that it
/// brought comes to its place. Then the stations have the units that they began with, and the others are in order.
pub fn undo_swaps<D: TxDevice>(plan: &Plan, homes: &mut Vec<D>, spares: &mut Vec<D>)
    requires homes { length homes.old.items ≡ length plan.now.stations }
    requires spares { length spares.old.items ≡ count_by is_swap plan.now.events }
    ensures undone { (map D.state homes.new.items, map D.state spares.new.items)
        ≡ undone plan.now (length plan.now.events) (map D.state homes.old.items, map D.state spares.old.items) }
    ensures homes { length homes.new.items ≡ length homes.old.items }
    ensures spares { length spares.new.items ≡ length spares.old.items }
{
    let mut e = plan.events();
    while e > 0 {
        e -= 1;
        undo_event(plan, homes, spares, e);
    }
}

/// Lays the devices of the stations and the spare ones into the bench, in the order of units before those that stand there. Takes
/// no memory.
pub fn hand_back<D: TxDevice>(
    plan: &Plan,
    mut homes: Vec<D>,
    mut spares: Vec<D>,
    bench: &mut Vec<D>,
)
    requires homes { length homes.items ≡ length plan.now.stations }
    requires spares { length spares.items ≡ count_by is_swap plan.now.events }
    requires room { vec_len bench.old + unit_count plan.now ≤ vec_capacity bench.old }
    ensures states { map D.state bench.new.items
        ≡ by_unit plan.now (map D.state homes.items) (map D.state spares.items) ++ map D.state bench.old.items }
    ensures rest { drop (unit_count plan.now) bench.new.items ≡ bench.old.items }
    ensures len { vec_len bench.new ≡ unit_count plan.now + vec_len bench.old }
{
    undo_swaps(plan, &mut homes, &mut spares);
    lay_back(spares, bench);
    lay_back(homes, bench);
}
