//! The plan's events, swaps of a device among them.
ghost use Rattle.std.specs.Prelude.{◌≡◌, ℕ, ◌+◌, ◌<◌, ◌≤◌, List, true, false, length, slice_get};
ghost use Rattle.lq_seat.specs.Calls.{MayChange};
ghost use Rattle.lq_seat.specs.State.{IsHere};
ghost use Rattle.lq_senders.specs.Senders.{AllDid, DoesEventAt, KeepAll};
ghost use Rattle.lq_senders.specs.Runs.{DevicesGoOn, HasDevices, RunsAs, SeatsGoOn, SeatsRunAs, SeatsStand};
ghost use Rattle.lq_senders.specs.Woken.{PlanCalls};
ghost use Rattle.lq_model.specs.Alone.{with_event};
ghost use Rattle.lq_model.specs.Device.{DeviceState};
ghost use Rattle.lq_model.specs.Plan.{is_at, is_swap, is_swap_kind, unit_of_swap};
ghost use Rattle.lq_model.specs.declared.plan.EventPlan.{EventPlan as AnEvent};

use crate::sender::{Run, Sender};
use lq_device::TxDevice;
use lq_gate::Gate;
use lq_model::{EventKind, EventPlan};
use lq_plan::{Plan, is_at};
use lq_seat::{Brought, Seat, Table};
use std::sync::Wait;

/// Whether an event swaps a device.
pub fn is_swap_kind(kind: EventKind) -> bool
    ensures { result ≡ is_swap_kind kind }
{
    matches!(kind, EventKind::Swap { .. })
}

/// The unit that a swap brings, as the plan's event `e`.
pub fn brought_unit(plan: &Plan, e: u32) -> u32
    requires { e ≤ length plan.now.events }
    ensures { result ≡ unit_of_swap plan.now e }
{
    plan.stays_within_limits();
    let mut unit = plan.stations();
    for k in 0..e {
        if is_swap_kind(plan.event(k).kind) {
            unit += 1;
        }
    }
    unit
}

/// Does event `e` of the plan at this station and drains its seat, if it is an event of the station.
fn event_at<'a, R: Wait, D: TxDevice>(
    rt: &R,
    table: &Table<'a, D>,
    seat: &mut Seat<D>,
    e: u32,
    event: EventPlan,
)
    requires here { IsHere table.now seat.old }
    requires no_swap { is_swap event ≡ false }
    requires may { is_at seat.old.made.station event ≡ true → MayChange event.kind seat.old }
    ensures does { DoesEventAt e event seat.old seat.new }
{
    if is_at(&event, table.number()) {
        seat.do_event(rt, table, e, event.kind);
    }
}

/// Does event `e`, the plan's next, which isn't a swap of a device: at each of its stations, the children of one group.
fn do_next_event<'r, 't, 'a, R: Wait, D: TxDevice, G: Gate>(
    rt: &R,
    run: &Run<'r, 't, 'a, D, G>,
    seats: &mut Vec<Seat<D>>,
    e: u32,
)
    requires event { e < length run.now.job.plan.now.events }
    requires no_swap { (event : AnEvent) → slice_get run.now.job.plan.now.events e ≡ Some event → is_swap event ≡ false }
    requires stands { (n : ℕ) × SeatsStand run.now 0 e n seats.old.items }
    ensures stands { SeatsGoOn run.now 0 e (e + 1) seats.old.items seats.new.items }
    ensures keeps { KeepAll seats.old.items seats.new.items }
    ensures calls { AllDid PlanCalls seats.old.items seats.new.items }
    ensures runs { SeatsRunAs run.now (with_event run.now.job.plan.now run.now.job.infos.now e) seats.old.items seats.new.items }
{
    run.job.plan.stays_within_limits();
    let event = run.job.plan.event(e);
    for j in 0..run.tables.len() {
        event_at(rt, &run.tables[j], &mut seats[j], e, event);
    }
}

/// Does event `e`, the plan's next, which swaps a device: the first of the spare ones comes, and the one that goes is the last
/// of them.
fn swap_next<'r, 't, 'a, R: Wait, D: TxDevice, G: Gate>(
    rt: &R,
    run: &Run<'r, 't, 'a, D, G>,
    sender: &mut Sender<D>,
    e: u32,
)
    requires event { e < length run.now.job.plan.now.events }
    requires swap { (event : AnEvent) → slice_get run.now.job.plan.now.events e ≡ Some event → is_swap event ≡ true }
    requires stands { (n : ℕ) × SeatsStand run.now 0 e n sender.old.seats.items }
    requires devices { (units : List DeviceState) × HasDevices D.state run.now units e sender.old }
    ensures owner { sender.new.owner ≡ sender.old.owner }
    ensures stands { SeatsGoOn run.now 0 e (e + 1) sender.old.seats.items sender.new.seats.items }
    ensures calls { AllDid PlanCalls sender.old.seats.items sender.new.seats.items }
    ensures devices { DevicesGoOn D.state run.now e (e + 1) sender.old sender.new }
    ensures runs { RunsAs D.state run.now e (with_event run.now.job.plan.now run.now.job.infos.now e) sender.old sender.new }
{
    run.job.plan.stays_within_limits();
    let station = run.job.plan.event(e).station;
    let unit = brought_unit(run.job.plan, e);
    let device = sender.spares.remove(0);
    let brought = Brought { event: e, unit };
    let table = &run.tables[station as usize];
    let old = sender.seats[station as usize].swap(rt, table, brought, device);
    sender.spares.push_reserved(old);
}

/// Does event `e`, the plan's next.
pub fn do_any_event<'r, 't, 'a, R: Wait, D: TxDevice, G: Gate>(
    rt: &R,
    run: &Run<'r, 't, 'a, D, G>,
    sender: &mut Sender<D>,
    e: u32,
)
    requires event { e < length run.now.job.plan.now.events }
    requires stands { (n : ℕ) × SeatsStand run.now 0 e n sender.old.seats.items }
    requires devices { (units : List DeviceState) × HasDevices D.state run.now units e sender.old }
    ensures owner { sender.new.owner ≡ sender.old.owner }
    ensures stands { SeatsGoOn run.now 0 e (e + 1) sender.old.seats.items sender.new.seats.items }
    ensures calls { AllDid PlanCalls sender.old.seats.items sender.new.seats.items }
    ensures devices { DevicesGoOn D.state run.now e (e + 1) sender.old sender.new }
    ensures runs { RunsAs D.state run.now e (with_event run.now.job.plan.now run.now.job.infos.now e) sender.old sender.new }
{
    if is_swap_kind(run.job.plan.event(e).kind) {
        swap_next(rt, run, sender, e);
    } else {
        do_next_event(rt, run, &mut sender.seats, e);
    }
}
