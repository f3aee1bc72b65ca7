//! Three senders beside control, each on a thread of its own.
ghost use Rattle.std.specs.Prelude.{◌≡◌, ℕ, ◌<◌, ◌≤◌, List, [], length};
ghost use Rattle.lq_model.specs.declared.machine.Phase.TheVariants.{Active};
ghost use Rattle.lq_table.specs.Rule.{times};
ghost use Rattle.lq_table.specs.Sees.{view};
ghost use Rattle.lq_table.specs.Seats.{split_view};
ghost use Rattle.lq_test_below.specs.Recorder.{IsFreshWithRoom};
ghost use Rattle.lq_test_below.specs.Seats.{IsDone, IsFirst, IsFirstAfterSwaps, IsSender};

use crate::recorder::Recorder;
use crate::seats::Sender;
use crate::tables::{fates, packets, send, table, wake};
use lq_control::{down, drain, resize, swap, tx_queue_len, up};
use lq_device::TxDevice;
use lq_model::{Cause, Fate, Info, Params};
use lq_qdisc::Sending;
use lq_table::{Cpu, Shared};
use std::alloc::Global;
use std::marker::Sync;
use std::process::Abort;
use std::sync::Wait;
use std::thread;
use std::thread::Threads;

/// How many calls of control there are. Each is an event of its own number, and the last swap is one more.
const ROUNDS: u32 = 1000;

const PACKETS: u32 = 12000;

/// The length of the rings at first, which is the longest.
const LEN: u32 = 4;

/// A device stops its queue after so many packets.
const BURST: u32 = 7;

/// So many devices, none of which is configured.
fn devices<A: Abort>(rt: &A, alloc: Global, count: u32) -> Vec<Recorder> {
    let mut all = Vec::new(alloc);
    for _ in 0..count {
        let one = Recorder::new(alloc, 0, 0).expect(rt, "memory");
        all.push(one).expect(rt, "memory");
    }
    all
}

/// The device, begun anew with room for all packets.
fn begun<A: Abort, D: TxDevice>(rt: &A, device: D, infos: &[Info]) -> D
    ensures { IsFreshWithRoom (length infos.now) (D.state result) }
{
    let mut device = device;
    let params = Params {
        burst: BURST,
        busy_every: 0,
        busy_limit: 0,
        hang_after: 0,
    };
    device.configure(&params, infos.len()).expect(rt, "memory");
    device
}

/// Control: the first seat, and the devices that it swaps.
#[derive(Drop)]
struct Control<D: TxDevice> {
    cpu: Cpu<D>,
    /// The devices that came back, by unit.
    back: Vec<D>,
    /// The devices that are left.
    fresh: Vec<D>,
}

/// The device of the station is swapped, for one of the next unit.
fn swap_device<'a, A: Abort + Wait, D: TxDevice>(
    rt: &A,
    shared: &Shared<'a, D>,
    control: &mut Control<D>,
    event: u32,
)
    requires first { IsFirstAfterSwaps (length control.old.back.items) shared.now control.old.cpu }
    ensures first { IsFirstAfterSwaps (length control.new.back.items) shared.now control.new.cpu }
{
    assert!(rt; shared.number() == 0);
    assert!(rt; control.back.len() < 255);
    let unit = control.back.len() as u32 + 1;
    let next = control.fresh.pop().expect(rt, "a device");
    let new = begun(rt, next, shared.infos());
    let back = swap(rt, shared, &mut control.cpu, unit, new, event);
    control.back.push(back).expect(rt, "memory");
}

/// One call of control: a resize, a deactivation and an activation, a change of the queue length, and a swap in turn. It
/// answers how many packets that dropped, where this is told.
fn control_once<'a, A: Abort + Wait, D: TxDevice>(
    rt: &A,
    shared: &Shared<'a, D>,
    control: &mut Control<D>,
    event: u32,
) -> Option<u32>
    requires first { IsFirstAfterSwaps (length control.old.back.items) shared.now control.old.cpu }
    ensures first { IsFirstAfterSwaps (length control.new.back.items) shared.now control.new.cpu }
{
    let len = 1 + event / 4 % LEN;
    assert!(rt; len <= shared.max_len());
    match event % 4 {
        0 => Some(resize(rt, shared, &mut control.cpu, len, event)),
        1 => {
            let purged = down(rt, shared, &mut control.cpu, event);
            up(shared, &mut control.cpu);
            Some(purged)
        }
        2 => Some(tx_queue_len(rt, shared, &mut control.cpu, len, event)),
        _ => {
            swap_device(rt, shared, control, event);
            None
        }
    }
}

/// What control did: where it ended, and what each round answered.
#[derive(Drop)]
struct Done<D: TxDevice> {
    control: Control<D>,
    lost: Vec<Option<u32>>,
}

/// All rounds of control, with an interrupt of the driver after each.
fn all_rounds<'a, A: Abort + Wait, D: TxDevice>(
    rt: &A,
    alloc: Global,
    shared: &Shared<'a, D>,
    mut control: Control<D>,
) -> Done<D>
    requires first { IsFirstAfterSwaps (length control.back.items) shared.now control.cpu }
    ensures first { IsFirstAfterSwaps (length result.control.back.items) shared.now result.control.cpu }
{
    let mut lost = Vec::new(alloc);
    for event in 0..ROUNDS {
        let count = control_once(rt, shared, &mut control, event);
        lost.push(count).expect(rt, "memory");
        wake(rt, shared, &mut control.cpu);
    }
    Done { control, lost }
}

/// A sender sends its packets, and wakes the queue from time to time.
fn send_own<'a, A: Abort + Wait, D: TxDevice>(
    rt: &A,
    shared: &Shared<'a, D>,
    cpu: &mut Cpu<D>,
    owner: u32,
)
    requires sender { IsSender shared.now owner cpu.old }
    ensures sender { IsSender shared.now owner cpu.new }
{
    let infos = shared.infos();
    for n in 0..infos.len() {
        if infos[n].owner as u32 == owner {
            let sending = send(rt, shared, cpu, owner, n as u32);
            assert!(rt; !matches!(sending, Sending::OutOfTurn { .. }));
        }
        if n % 16 == 0 {
            wake(rt, shared, cpu);
        }
    }
}

/// The same by its seat, which is not raised afterwards.
fn send_to_end<'a, A: Abort + Wait, D: TxDevice>(
    rt: &A,
    shared: &Shared<'a, D>,
    mut sender: Sender<D>,
) -> Sender<D>
    requires sender { IsSender shared.now sender.owner sender.cpu }
    ensures done { IsDone shared.now result.cpu }
{
    send_own(rt, shared, &mut sender.cpu, sender.owner);
    drain(rt, shared, &mut sender.cpu);
    sender
}

/// Two senders side by side.
fn two_send<'a, R: Abort + Threads + Wait + Sync, D: TxDevice>(
    rt: &R,
    shared: &Shared<'a, D>,
    one: Sender<D>,
    other: Sender<D>,
) -> (Sender<D>, Sender<D>)
    requires one { IsSender shared.now one.owner one.cpu }
    requires other { IsSender shared.now other.owner other.cpu }
    ensures done { IsDone shared.now result.0.cpu × IsDone shared.now result.1.cpu }
{
    thread::join(
        rt,
        move || -> Sender<D>
            requires { IsSender shared.now one.owner one.cpu }
            ensures { IsDone shared.entry.now result.cpu }
        { send_to_end(rt, shared, one) },
        move || -> Sender<D>
            requires { IsSender shared.now other.owner other.cpu }
            ensures { IsDone shared.entry.now result.cpu }
        { send_to_end(rt, shared, other) },
    )
}

/// Control and a sender side by side.
fn control_and_send<'a, R: Abort + Threads + Wait + Sync, D: TxDevice>(
    rt: &R,
    alloc: Global,
    shared: &Shared<'a, D>,
    control: Control<D>,
    sender: Sender<D>,
) -> (Done<D>, Sender<D>)
    requires first { IsFirstAfterSwaps (length control.back.items) shared.now control.cpu }
    requires sender { IsSender shared.now sender.owner sender.cpu }
    ensures first { IsFirstAfterSwaps (length result.0.control.back.items) shared.now result.0.control.cpu }
    ensures done { IsDone shared.now result.1.cpu }
{
    thread::join(
        rt,
        move || -> Done<D>
            requires { IsFirstAfterSwaps (length control.back.items) shared.now control.cpu }
            ensures { IsFirstAfterSwaps (length result.control.back.items) shared.entry.now result.control.cpu }
        { all_rounds(rt, alloc, shared, control) },
        move || -> Sender<D>
            requires { IsSender shared.now sender.owner sender.cpu }
            ensures { IsDone shared.entry.now result.cpu }
        { send_to_end(rt, shared, sender) },
    )
}

/// The seats of the three senders.
#[derive(Drop)]
struct Senders<D: TxDevice> {
    low: Sender<D>,
    mid: Sender<D>,
    high: Sender<D>,
}

/// All four side by side.
fn run<'a, R: Abort + Threads + Wait + Sync, D: TxDevice>(
    rt: &R,
    alloc: Global,
    shared: &Shared<'a, D>,
    control: Control<D>,
    senders: Senders<D>,
) -> (Done<D>, Senders<D>)
    requires first { IsFirstAfterSwaps (length control.back.items) shared.now control.cpu }
    requires low { IsSender shared.now senders.low.owner senders.low.cpu }
    requires mid { IsSender shared.now senders.mid.owner senders.mid.cpu }
    requires high { IsSender shared.now senders.high.owner senders.high.cpu }
    ensures first { IsFirstAfterSwaps (length result.0.control.back.items) shared.now result.0.control.cpu }
    ensures low { IsDone shared.now result.1.low.cpu }
    ensures others { IsDone shared.now result.1.mid.cpu × IsDone shared.now result.1.high.cpu }
{
    let Senders { low, mid, high } = senders;
    let ((done, low), (mid, high)) = thread::join(
        rt,
        move || -> (Done<D>, Sender<D>)
            requires { IsFirstAfterSwaps (length control.back.items) shared.now control.cpu × IsSender shared.now low.owner low.cpu }
            ensures { IsFirstAfterSwaps (length result.0.control.back.items) shared.entry.now result.0.control.cpu × IsDone shared.entry.now result.1.cpu }
        { control_and_send(rt, alloc, shared, control, low) },
        move || -> (Sender<D>, Sender<D>)
            requires { IsSender shared.now mid.owner mid.cpu × IsSender shared.now high.owner high.cpu }
            ensures { IsDone shared.entry.now result.0.cpu × IsDone shared.entry.now result.1.cpu }
        { two_send(rt, shared, mid, high) },
    );
    (done, Senders { low, mid, high })
}

/// A seat is split off for a sender.
fn split_sender<'a, D: TxDevice>(
    shared: &Shared<'a, D>,
    first: &mut Cpu<D>,
    owner: u32,
) -> Sender<D>
    requires first { IsFirst Active [] shared.now first.old }
    requires owner { (2 ≤ (view first.old).share.shares) × (0 < times owner (view first.old).share.owners) × (0 < owner) }
    ensures first { IsFirst Active [] shared.now first.new }
    ensures left { view first.new ≡ split_view owner (view first.old) }
    ensures sender { IsSender shared.now result.owner result.cpu }
{
    let cpu = shared.split(first, owner);
    Sender { owner, cpu }
}

/// The seat of a sender is joined into the first.
fn join_sender<'a, D: TxDevice>(shared: &Shared<'a, D>, first: &mut Cpu<D>, sender: Sender<D>)
    requires sender { IsDone shared.now sender.cpu }
    requires first { (units : List ℕ) × IsFirst Active units shared.now first.old }
    ensures first { (units : List ℕ) → IsFirst Active units shared.now first.old → IsFirst Active units shared.now first.new }
{
    let Sender { owner: _, cpu } = sender;
    shared.join(first, cpu);
}

/// Each packet's fate is settled: where it was sent, its device accepted it at just that place. It answers how many were sent.
fn check_fates<A: Abort>(rt: &A, fates: &[Fate], old: &[Recorder]) -> usize {
    assert!(rt; fates.len() <= 100000);
    let mut sent = 0usize;
    for n in 0..fates.len() {
        if let Fate::Sent { unit, serial } = fates[n] {
            let device = old.get(unit as usize).expect(rt, "a unit");
            assert_eq!(rt;
                device.accepted().get(serial as usize).copied(),
                Some(n as u32)
            );
            sent = sent.saturating_add(1);
        }
    }
    sent
}

/// Each sender's packets of one band ascend in the list of each device. It answers how many packets all accepted.
fn check_order<A: Abort>(rt: &A, infos: &[Info], old: &[Recorder]) -> usize {
    let mut sent = 0usize;
    for device in old {
        sent = sent.saturating_add(device.accepted().len());
        check_device(rt, infos, device.accepted());
    }
    sent
}

fn check_device<A: Abort>(rt: &A, infos: &[Info], accepted: &[u32]) {
    let mut next = [0u32; 12];
    for packet in accepted {
        let info = infos.get(*packet as usize).expect(rt, "a packet");
        assert!(rt; info.owner < 4);
        assert!(rt; info.band < 3);
        let lane = (info.owner * 3 + info.band) as usize;
        assert!(rt; next[lane] <= info.rank);
        assert!(rt; info.rank < 100000);
        next[lane] = info.rank + 1;
    }
}

/// The event by which a packet was dropped from what the station held.
fn dropped_by(fate: Fate) -> Option<u32> {
    match fate {
        Fate::Shrunk { event } => Some(event),
        Fate::Purged {
            cause: Cause::Event(event),
        } => Some(event),
        _ => None,
    }
}

/// How many packets this event dropped.
fn count_dropped(fates: &[Fate], event: u32) -> u32 {
    let mut dropped = 0u32;
    for fate in fates {
        if dropped_by(*fate) == Some(event) {
            dropped = dropped.saturating_add(1);
        }
    }
    dropped
}

/// Each round of control dropped as many packets as it answered.
fn check_lost<A: Abort>(rt: &A, fates: &[Fate], lost: &[Option<u32>]) {
    assert!(rt; lost.len() <= 1000);
    for event in 0..lost.len() {
        if let Some(told) = lost[event] {
            let dropped = count_dropped(fates, event as u32);
            assert_eq!(rt; dropped, told, "event {event}");
        }
    }
}

#[test]
fn control_beside_three_senders(rt: HostRuntime) {
    let infos = packets(&rt, rt.alloc(), PACKETS, true);
    let (shared, mut first) = table(&rt, rt.alloc(), &infos, LEN, BURST);
    let senders = Senders {
        low: split_sender(&shared, &mut first, 1),
        mid: split_sender(&shared, &mut first, 2),
        high: split_sender(&shared, &mut first, 3),
    };
    let control = Control {
        cpu: first,
        back: Vec::new(rt.alloc()),
        fresh: devices(&rt, rt.alloc(), ROUNDS / 4 + 1),
    };
    let (done, senders) = run(&rt, rt.alloc(), &shared, control, senders);
    let Done { mut control, lost } = done;
    let Senders { low, mid, high } = senders;
    join_sender(&shared, &mut control.cpu, low);
    join_sender(&shared, &mut control.cpu, mid);
    join_sender(&shared, &mut control.cpu, high);
    swap_device(&rt, &shared, &mut control, ROUNDS);
    wake(&rt, &shared, &mut control.cpu);
    let Control {
        cpu,
        back,
        fresh: _,
    } = control;
    let fates = fates(&rt, rt.alloc(), shared, cpu);
    let sent = check_fates(&rt, &fates, &back);
    assert_eq!(rt; check_order(&rt, &infos, &back), sent);
    check_lost(&rt, &fates, &lost);
}
