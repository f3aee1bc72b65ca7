//! What a sender does at its seats.
ghost use Rattle.std.specs.Prelude.{◌≡◌, ℕ, ◌+◌, ◌<◌, ◌≤◌, ◌-◌, true, false, List, length, slice_get};
ghost use Rattle.lq_plan.specs.Openings.{opens_while_stopped};
ghost use Rattle.lq_seat.specs.Calls.{Drains};
ghost use Rattle.lq_seat.specs.State.{SeatState};
ghost use Rattle.lq_senders.specs.Senders.{AllDid, AreSeats, IsWoken, KeepAll, OpenedAfter, AllOpened, WasOpened};
ghost use Rattle.lq_senders.specs.Runs.{ComesTo, DevicesGoOn, HasDevices, RunsAs, SeatsDone, SeatsGoOn, SeatsRunAs, SeatsStand, events_on};
ghost use Rattle.lq_senders.specs.Way.{IsSplitAt, StandAfter};
ghost use Rattle.lq_senders.specs.Woken.{CountsDown, PlanCalls, count_sent};
ghost use Rattle.lq_model.specs.Alone.{opened_and_served};
ghost use Rattle.lq_model.specs.Device.{DeviceState};
ghost use Rattle.lq_model.specs.Plan.{owner_in};
ghost use Rattle.lq_model.specs.declared.plan.EventPlan.{EventPlan as AnEvent};

use crate::countdown::{left_after_packet, opened_after};
use crate::sender::{Progress, Run, Sender};
use crate::swaps::do_any_event;
use lq_device::TxDevice;
use lq_gate::Gate;
use lq_plan::Plan;
use lq_seat::{Seat, Table};
use std::sync::Wait;

/// Wakes the queues of each station. Whether one was opened.
fn wake_all<'a, D: TxDevice>(tables: &[Table<'a, D>], seats: &mut Vec<Seat<D>>) -> bool
    requires seats { AreSeats tables.now seats.old.items }
    ensures wakes { AllDid IsWoken seats.old.items seats.new.items }
    ensures was { WasOpened result seats.old.items seats.new.items }
{
    let mut opened = false;
    for j in 0..tables.len() {
        let here = seats[j].wake(&tables[j]);
        opened = opened || here;
    }
    opened
}

/// Does the soft interrupts of each seat.
fn drain_all<'a, R: Wait, D: TxDevice>(rt: &R, tables: &[Table<'a, D>], seats: &mut Vec<Seat<D>>)
    requires seats { AreSeats tables.now seats.old.items }
    ensures { AllDid Drains seats.old.items seats.new.items }
{
    for j in 0..tables.len() {
        seats[j].drain(rt, &tables[j]);
    }
}

/// Opens the stopped queues of all stations, and does the soft interrupts of each seat. Whether a queue was opened.
fn open_once<'a, R: Wait, D: TxDevice>(
    rt: &R,
    tables: &[Table<'a, D>],
    seats: &mut Vec<Seat<D>>,
) -> bool
    requires seats { AreSeats tables.now seats.old.items }
    ensures { AllOpened result seats.old.items seats.new.items }
{
    let opened = wake_all(tables, seats);
    drain_all(rt, tables, seats);
    opened
}

/// Opens the stopped queues of all stations so many times, and does the soft interrupts of each seat after each of them. Where the plan
/// has that only while a queue is stopped, the first opening that opens none is the last. For a seat that has its table alone, those that
/// are left would change nothing.
fn open_times<'r, 't, 'a, R: Wait, D: TxDevice, G: Gate>(
    rt: &R,
    run: &Run<'r, 't, 'a, D, G>,
    seats: &mut Vec<Seat<D>>,
    times: u32,
)
    requires stands { (sender : ℕ) × (count : ℕ) × (n : ℕ) × SeatsStand run.now sender count n seats.old.items }
    ensures stands { (sender count : ℕ) → SeatsGoOn run.now sender count count seats.old.items seats.new.items }
    ensures keeps { KeepAll seats.old.items seats.new.items }
    ensures runs { SeatsRunAs run.now (opened_and_served run.now.job.infos.now times) seats.old.items seats.new.items }
    ensures opened { OpenedAfter (opens_while_stopped run.now.job.plan.now) times seats.old.items seats.new.items }
{
    let only_while_stopped = run.job.plan.opens_while_stopped();
    for _time in 0..times {
        let opened = open_once(rt, run.tables, seats);
        if only_while_stopped && !opened {
            return;
        }
    }
}

/// Does the plan's events from `next` on that stand before packet `n`: the event that is next then.
#[inline(never)]
pub fn events_before<'r, 't, 'a, R: Wait, D: TxDevice, G: Gate>(
    rt: &R,
    run: &Run<'r, 't, 'a, D, G>,
    sender: &mut Sender<D>,
    next: u32,
    n: u32,
) -> u32
    requires next { next ≤ length run.now.job.plan.now.events }
    requires stands { (m : ℕ) × SeatsStand run.now 0 next m sender.old.seats.items }
    requires devices { (units : List DeviceState) × HasDevices D.state run.now units next sender.old }
    ensures owner { sender.new.owner ≡ sender.old.owner }
    ensures within { (next ≤ result) × (result ≤ length run.now.job.plan.now.events) }
    ensures done { (k : ℕ) (event : AnEvent) → next ≤ k → k < result
        → slice_get run.now.job.plan.now.events k ≡ Some event → event.before ≤ n }
    ensures left { StandAfter run.now.job.plan.now result n }
    ensures stands { SeatsGoOn run.now 0 next result sender.old.seats.items sender.new.seats.items }
    ensures calls { AllDid PlanCalls sender.old.seats.items sender.new.seats.items }
    ensures devices { DevicesGoOn D.state run.now next result sender.old sender.new }
    ensures runs { RunsAs D.state run.now next (events_on run.now next (result - next)) sender.old sender.new }
{
    run.job.plan.stays_within_limits();
    for e in next..run.job.plan.events() {
        if run.job.plan.event(e).before > n {
            return e;
        }
        do_any_event(rt, run, sender, e);
    }
    run.job.plan.events()
}

/// Whether a sender does events before packet `n`: it is the first one, and event `next` stands before that packet.
fn has_events_before(plan: &Plan, owner: u32, next: u32, n: u32) -> bool
    requires { next ≤ length plan.now.events }
    ensures first { result ≡ true → owner ≡ 0 }
    ensures left { result ≡ false → owner ≡ 0 → StandAfter plan.now next n }
{
    plan.stays_within_limits();
    if owner != 0 {
        return false;
    }
    if next >= plan.events() {
        return false;
    }
    plan.event(next).before <= n
}

/// Passes the gate before packet `n`, with the sender's own number and the packet's among the sender's. The plan's events that
/// stand before the packet were done, and it isn't sent yet.
fn pass_before<'r, 't, 'a, D: TxDevice, G: Gate>(
    run: &Run<'r, 't, 'a, D, G>,
    sender: &Sender<D>,
    at: Progress,
    n: u32,
)
    requires own { owner_in run.now.job.infos.now n ≡ sender.now.owner }
    requires number { at.sent ≡ count_sent run.now.job.infos.now sender.now.owner n }
    requires events { sender.now.owner ≡ 0 → IsSplitAt run.now.job.plan.now at.next n }
    requires stands { SeatsStand run.now sender.now.owner at.next n sender.now.seats.items }
{
    run.job.gate.pass(sender.owner, at.sent);
}

/// Passes the gate after a sender's last packet, with how many it sent. All of the plan's events were done.
pub fn pass_last<'r, 't, 'a, D: TxDevice, G: Gate>(
    run: &Run<'r, 't, 'a, D, G>,
    sender: &Sender<D>,
    k: u32,
)
    requires number { k ≡ count_sent run.now.job.infos.now sender.now.owner (length run.now.job.infos.now) }
    requires done { SeatsDone run.now sender.now.owner sender.now.seats.items }
{
    run.job.gate.pass(sender.owner, k);
}

/// Comes to packet `n`. If it is the sender's, it does the plan's events before it, passes the gate, sends it, and opens the queues as
/// often as the run has it. This is one function, because a test follows each call that may wait, inlined or not.
pub fn come_to<'r, 't, 'a, R: Wait, D: TxDevice, G: Gate>(
    rt: &R,
    run: &Run<'r, 't, 'a, D, G>,
    sender: &mut Sender<D>,
    at: Progress,
    n: u32,
) -> Progress
    requires packet { n < length run.now.job.infos.now }
    requires counted { CountsDown run.now.job.openings.now at.sent at.left }
    requires sending { (start : List SeatState) × (brought : List DeviceState)
        × ComesTo D.state run.now sender.old.owner n at start brought sender.old }
    requires devices { sender.old.owner ≡ 0 → (units : List DeviceState) × HasDevices D.state run.now units at.next sender.old }
    ensures owner { sender.new.owner ≡ sender.old.owner }
    ensures sending { (start : List SeatState) (brought : List DeviceState)
        → ComesTo D.state run.now sender.old.owner n at start brought sender.old
        → ComesTo D.state run.now sender.old.owner (n + 1) result start brought sender.new }
    ensures counted { CountsDown run.now.job.openings.now result.sent result.left }
{
    let info = &run.job.infos[n as usize];
    if info.owner as u32 != sender.owner {
        return at;
    }
    let next = if has_events_before(run.job.plan, sender.owner, at.next, n) {
        events_before(rt, run, sender, at.next, n)
    } else {
        at.next
    };
    let at = Progress { next, ..at };
    pass_before(run, sender, at, n);
    let station = info.station as usize;
    let table = &run.tables[station];
    sender.seats[station].send(rt, table, n);
    let times = opened_after(run.job.openings, n, at);
    if times > 0 {
        open_times(rt, run, &mut sender.seats, times);
    }
    Progress {
        sent: at.sent + 1,
        next,
        left: left_after_packet(run.job.openings, at.left),
    }
}
