//! Senders side by side.
ghost use Rattle.std.specs.Prelude.{◌≡◌, ℕ, ◌≤◌, ◌-◌, List, length};
ghost use Rattle.lq_senders.specs.Senders.{DidEvents, KeepSeats};
ghost use Rattle.lq_senders.specs.Runs.{DevicesGoOn, HasDevices, SenderIsDone, SenderIsReady, SendersAreDone, SendersAreReady, SendersSendAll, RunsAs, SeatsDone, SeatsGoOn, SeatsStand, SeatsSendAll, SendsAllAlone, events_on};
ghost use Rattle.lq_model.specs.Device.{DeviceState};

use crate::countdown::left_at_start;
use crate::course::{come_to, events_before, pass_last};
use crate::sender::{Progress, Run, Sender};
use lq_device::TxDevice;
use lq_gate::Gate;
use std::sync::Wait;
use std::thread;
use std::thread::Threads;

/// Does the plan's events from `next` on, if this is the first sender.
fn events_left<'r, 't, 'a, R: Wait, D: TxDevice, G: Gate>(
    rt: &R,
    run: &Run<'r, 't, 'a, D, G>,
    sender: &mut Sender<D>,
    next: u32,
)
    requires next { next ≤ length run.now.job.plan.now.events }
    requires stands { (m : ℕ) × SeatsStand run.now sender.old.owner next m sender.old.seats.items }
    requires devices { sender.old.owner ≡ 0 → (units : List DeviceState) × HasDevices D.state run.now units next sender.old }
    ensures owner { sender.new.owner ≡ sender.old.owner }
    ensures stands { SeatsGoOn run.now sender.old.owner next (length run.now.job.plan.now.events)
        sender.old.seats.items sender.new.seats.items }
    ensures calls { DidEvents sender.old.owner sender.old.seats.items sender.new.seats.items }
    ensures devices { sender.old.owner ≡ 0 → DevicesGoOn D.state run.now next (length run.now.job.plan.now.events) sender.old sender.new }
    ensures runs { sender.old.owner ≡ 0
        → RunsAs D.state run.now next (events_on run.now next (length run.now.job.plan.now.events - next)) sender.old sender.new }
{
    run.job.plan.stays_within_limits();
    if sender.owner == 0 {
        let _last = events_before(rt, run, sender, next, u32::MAX);
    }
}

/// Sends a sender's packets. The first sender does the plan's events, each before its packets with that number or a higher one.
/// After each of its packets the sender opens the stopped queues of all stations as often as the run has it.
pub fn send_loop<'r, 't, 'a, R: Wait, D: TxDevice, G: Gate>(
    rt: &R,
    run: &Run<'r, 't, 'a, D, G>,
    sender: &mut Sender<D>,
)
    requires stands { SeatsStand run.now sender.old.owner 0 0 sender.old.seats.items }
    requires devices { sender.old.owner ≡ 0 → (units : List DeviceState) × HasDevices D.state run.now units 0 sender.old }
    ensures owner { sender.new.owner ≡ sender.old.owner }
    ensures stands { SeatsDone run.now sender.new.owner sender.new.seats.items }
    ensures keeps { KeepSeats sender.old.seats.items sender.new.seats.items }
    ensures devices { sender.old.owner ≡ 0 → DevicesGoOn D.state run.now 0 (length run.now.job.plan.now.events) sender.old sender.new }
    ensures runs { sender.old.owner ≡ 0 → SendsAllAlone D.state run.now sender.old sender.new }
    ensures course { SeatsSendAll run.now sender.old.owner sender.old.seats.items sender.new.seats.items }
{
    run.job.plan.stays_within_limits();
    let mut at = Progress {
        sent: 0,
        next: 0,
        left: left_at_start(run.job.openings),
    };
    for n in 0..run.job.infos.len() as u32 {
        at = come_to(rt, run, sender, at, n);
    }
    events_left(rt, run, sender, at.next);
    pass_last(run, sender, at.sent);
}

/// Sends the packets of a sender that isn't the first.
fn send_other<'r, 't, 'a, R: Wait, D: TxDevice, G: Gate>(
    rt: &R,
    run: &Run<'r, 't, 'a, D, G>,
    sender: &mut Sender<D>,
)
    requires ready { (place : ℕ) × SenderIsReady run.now place sender.old }
    ensures done { (place : ℕ) → SenderIsReady run.now place sender.old → SenderIsDone run.now place sender.new }
    ensures course { SeatsSendAll run.now sender.old.owner sender.old.seats.items sender.new.seats.items }
{
    send_loop(rt, run, sender);
}

/// The other senders, side by side.
fn send_side_by_side<'r, 't, 'a, R: Threads + Wait + Sync, D: TxDevice, G: Gate>(
    rt: &R,
    run: &Run<'r, 't, 'a, D, G>,
    senders: &mut [Sender<D>],
)
    requires ready { SendersAreReady run.now senders.old }
    ensures done { SendersAreDone run.now senders.new }
    ensures course { SendersSendAll run.now senders.old senders.new }
{
    let threads = senders.len();
    if threads > 0 {
        thread::for_each_mut(
            rt,
            senders,
            threads,
            &|i, sender: &mut Sender<D>|
                requires { SenderIsReady run.now i sender.old }
                ensures { SenderIsDone run.entry.now i sender.new
                    × SeatsSendAll run.entry.now sender.old.owner sender.old.seats.items sender.new.seats.items }
            { send_other(rt, run, sender) },
        );
    }
}

fn send_first<'r, 't, 'a, R: Wait, D: TxDevice, G: Gate>(
    rt: &R,
    run: &Run<'r, 't, 'a, D, G>,
    mut sender: Sender<D>,
) -> Sender<D>
    requires owner { sender.owner ≡ 0 }
    requires stands { SeatsStand run.now 0 0 0 sender.seats.items }
    requires devices { (units : List DeviceState) × HasDevices D.state run.now units 0 sender }
    ensures owner { result.owner ≡ 0 }
    ensures stands { SeatsDone run.now 0 result.seats.items }
    ensures keeps { KeepSeats sender.seats.items result.seats.items }
    ensures course { SeatsSendAll run.now 0 sender.seats.items result.seats.items }
    ensures devices { DevicesGoOn D.state run.now 0 (length run.now.job.plan.now.events) sender result }
    ensures runs { SendsAllAlone D.state run.now sender result }
{
    send_loop(rt, run, &mut sender);
    sender
}

fn send_others<'r, 't, 'a, R: Threads + Wait + Sync, D: TxDevice, G: Gate>(
    rt: &R,
    run: &Run<'r, 't, 'a, D, G>,
    mut senders: Vec<Sender<D>>,
) -> Vec<Sender<D>>
    requires ready { SendersAreReady run.now senders.items }
    ensures done { SendersAreDone run.now result.items }
    ensures course { SendersSendAll run.now senders.items result.items }
    ensures long { length result.items ≡ length senders.items }
{
    send_side_by_side(rt, run, senders.as_mut_slice());
    senders
}

/// All senders side by side: the first sender's seats and the others', after the last packet.
pub fn all_send<'r, 't, 'a, R: Threads + Wait + Sync, D: TxDevice, G: Gate>(
    rt: &R,
    run: &Run<'r, 't, 'a, D, G>,
    first: Sender<D>,
    others: Vec<Sender<D>>,
) -> (Sender<D>, Vec<Sender<D>>)
    requires owner { first.owner ≡ 0 }
    requires first { SeatsStand run.now 0 0 0 first.seats.items }
    requires devices { (units : List DeviceState) × HasDevices D.state run.now units 0 first }
    requires others { SendersAreReady run.now others.items }
    ensures first { SeatsDone run.now 0 result.0.seats.items }
    ensures keeps { KeepSeats first.seats.items result.0.seats.items }
    ensures first_course { SeatsSendAll run.now 0 first.seats.items result.0.seats.items }
    ensures devices { DevicesGoOn D.state run.now 0 (length run.now.job.plan.now.events) first result.0 }
    ensures runs { SendsAllAlone D.state run.now first result.0 }
    ensures others { SendersAreDone run.now result.1.items }
    ensures others_course { SendersSendAll run.now others.items result.1.items }
    ensures long { length result.1.items ≡ length others.items }
{
    thread::join(
        rt,
        move || -> Sender<D>
            requires { (first.owner ≡ 0) × SeatsStand run.now 0 0 0 first.seats.items
                × ((units : List DeviceState) × HasDevices D.state run.now units 0 first) }
            ensures { SeatsDone run.entry.now 0 result.seats.items × KeepSeats first.seats.items result.seats.items
                × SeatsSendAll run.entry.now 0 first.seats.items result.seats.items
                × DevicesGoOn D.state run.entry.now 0 (length run.entry.now.job.plan.now.events) first result
                × SendsAllAlone D.state run.entry.now first result }
        { send_first(rt, run, first) },
        move || -> Vec<Sender<D>>
            requires { SendersAreReady run.now others.items }
            ensures { SendersAreDone run.entry.now result.items × (length result.items ≡ length others.items)
                × SendersSendAll run.entry.now others.items result.items }
        { send_others(rt, run, others) },
    )
}
