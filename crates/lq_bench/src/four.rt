//! Four senders at once, each on a thread of its own.
ghost use Rattle.std.specs.Prelude.{◌≡◌, ◌<◌, ◌≤◌};
ghost use Rattle.lq_table.specs.Rule.{times};
ghost use Rattle.lq_table.specs.Sees.{view};
ghost use Rattle.lq_table.specs.Seats.{split_view};
ghost use Rattle.lq_bench.specs.Senders.{IsBenchSeatAtRest, IsFirstSender, IsBenchSender};

use crate::senders::{Losses, Work, send_own};
use lq_device::TxDevice;
use lq_table::{Cpu, Shared};
use std::marker::Sync;
use std::rt::Clock;
use std::sync::Wait;
use std::thread::Threads;
use std::time::{Duration, Instant};
use std::{io, thread};

/// A sender: its seat, and the owner whose packets it sends.
#[derive(Drop)]
struct Sender<D: TxDevice> {
    owner: u32,
    cpu: Cpu<D>,
}

/// A seat is split off for a sender.
fn split_sender<'a, D: TxDevice>(
    shared: &Shared<'a, D>,
    first: &mut Cpu<D>,
    owner: u32,
) -> Sender<D>
    requires first { IsBenchSeatAtRest shared.now first.old }
    requires owner { (2 ≤ (view first.old).share.shares) × (0 < times owner (view first.old).share.owners)
        × (0 < owner) × (owner < 4) }
    ensures first { IsBenchSeatAtRest shared.now first.new }
    ensures left { view first.new ≡ split_view owner (view first.old) }
    ensures sender { IsBenchSender shared.now result.owner result.cpu }
{
    let cpu = shared.split(first, owner);
    Sender { owner, cpu }
}

/// A sender sends its packets.
fn send_all<'a, W: Wait, D: TxDevice>(
    rt: &W,
    shared: &Shared<'a, D>,
    sender: Sender<D>,
    work: Work,
) -> Losses
    requires sender { IsBenchSender shared.now sender.owner sender.cpu }
{
    let Sender { owner, mut cpu } = sender;
    send_own(rt, shared, &mut cpu, owner, work)
}

/// Two senders side by side.
fn two_send<'a, R: Threads + Wait + Sync, D: TxDevice>(
    rt: &R,
    shared: &Shared<'a, D>,
    one: Sender<D>,
    other: Sender<D>,
    work: Work,
) -> Losses
    requires one { IsBenchSender shared.now one.owner one.cpu }
    requires other { IsBenchSender shared.now other.owner other.cpu }
{
    let (ones, others) = thread::join(
        rt,
        move || -> Losses
            requires { IsBenchSender shared.now one.owner one.cpu }
        { send_all(rt, shared, one, work) },
        move || -> Losses
            requires { IsBenchSender shared.now other.owner other.cpu }
        { send_all(rt, shared, other, work) },
    );
    ones.and(others)
}

/// Four senders side by side.
fn four_send<'a, R: Threads + Wait + Sync, D: TxDevice>(
    rt: &R,
    shared: &Shared<'a, D>,
    low: (Sender<D>, Sender<D>),
    high: (Sender<D>, Sender<D>),
    work: Work,
) -> Losses
    requires low { IsBenchSender shared.now low.0.owner low.0.cpu × IsBenchSender shared.now low.1.owner low.1.cpu }
    requires high { IsBenchSender shared.now high.0.owner high.0.cpu × IsBenchSender shared.now high.1.owner high.1.cpu }
{
    let (lows, highs) = thread::join(
        rt,
        move || -> Losses
            requires { IsBenchSender shared.now low.0.owner low.0.cpu × IsBenchSender shared.now low.1.owner low.1.cpu }
        { two_send(rt, shared, low.0, low.1, work) },
        move || -> Losses
            requires { IsBenchSender shared.now high.0.owner high.0.cpu × IsBenchSender shared.now high.1.owner high.1.cpu }
        { two_send(rt, shared, high.0, high.1, work) },
    );
    lows.and(highs)
}

/// How long it takes four senders, one for each owner, to send their packets, and what was lost of these.
pub fn timed_four<'a, R: Threads + Wait + Sync + Clock, D: TxDevice>(
    rt: &R,
    shared: &Shared<'a, D>,
    first: Cpu<D>,
    work: Work,
) -> io::Result<(Duration, Losses)>
    requires first { IsFirstSender shared.now first }
{
    let mut first = first;
    let second = split_sender(shared, &mut first, 1);
    let third = split_sender(shared, &mut first, 2);
    let fourth = split_sender(shared, &mut first, 3);
    let first = Sender {
        owner: 0,
        cpu: first,
    };
    let start = Instant::now(rt)?;
    let losses = four_send(rt, shared, (first, second), (third, fourth), work);
    let time = start.elapsed(rt)?;
    Ok((time, losses))
}
