//! Senders, and what each does with its packets.
ghost use Rattle.std.specs.Prelude.{◌≤◌};
ghost use Rattle.lq_bench.specs.Senders.{IsBenchSender};

use lq_device::TxDevice;
use lq_qdisc::{Sending, irq, softirq, transmit};
use lq_table::{Cpu, Shared};
use std::sync::Wait;

/// How many owners the packets have in turn.
pub const OWNERS: u32 = 4;

/// The most packets of one owner.
const MOST: u32 = 250_000;

/// So many, but not more than an owner may have.
pub fn at_most(count: u32) -> u32
    ensures { result ≤ 250000 }
{
    if count < MOST { count } else { MOST }
}

/// Sends packet `n`, where it is this owner's.
fn send<'a, W: Wait, D: TxDevice>(
    rt: &W,
    shared: &Shared<'a, D>,
    cpu: &mut Cpu<D>,
    owner: u32,
    n: u32,
) -> Option<Sending>
    requires sender { IsBenchSender shared.now owner cpu.old }
    ensures sender { IsBenchSender shared.now owner cpu.new }
{
    let infos = shared.infos();
    if n as usize >= infos.len() {
        return None;
    }
    let info = infos[n as usize];
    if info.owner as u32 != owner || owner >= shared.senders() {
        return None;
    }
    if info.station as u32 != shared.number() {
        return None;
    }
    if info.band >= 3 || info.queue as u32 >= shared.queues() {
        return None;
    }
    Some(transmit(rt, shared, cpu, n))
}

/// The interrupt of the driver where it is due, and the soft interrupt of a seat that is raised.
fn interrupt<'a, D: TxDevice>(shared: &Shared<'a, D>, cpu: &mut Cpu<D>, owner: u32, wakes: bool)
    requires sender { IsBenchSender shared.now owner cpu.old }
    ensures sender { IsBenchSender shared.now owner cpu.new }
{
    if wakes {
        irq(shared, cpu);
    }
    if cpu.raised() {
        softirq(shared, cpu);
    }
}

/// How many packets weren't taken.
#[derive(Clone, Copy, Drop)]
pub struct Losses {
    /// Dropped as full, or refused.
    pub dropped: u32,
    /// Not sent, since it wasn't their turn.
    pub unsent: u32,
}

impl Losses {
    /// None yet.
    pub const NONE: Losses = Losses {
        dropped: 0,
        unsent: 0,
    };

    /// These and others.
    pub fn and(self, other: Losses) -> Losses {
        Losses {
            dropped: self.dropped.saturating_add(other.dropped),
            unsent: self.unsent.saturating_add(other.unsent),
        }
    }

    /// What is lost of one packet that was answered so.
    fn of(sending: Option<Sending>) -> Losses {
        match sending {
            Some(Sending::Direct | Sending::Queued) => Losses::NONE,
            Some(Sending::FullSeen(_) | Sending::Refused(_)) => Losses {
                dropped: 1,
                unsent: 0,
            },
            Some(Sending::OutOfTurn { .. }) | None => Losses {
                dropped: 0,
                unsent: 1,
            },
        }
    }
}

/// What a sender does.
#[derive(Clone, Copy, Drop)]
pub struct Work {
    /// How many packets it sends.
    pub count: u32,
    /// Whether the driver's interrupt comes after each.
    pub wakes: bool,
}

/// Sends the first packets of this owner, with the interrupts after each. It answers how many weren't taken.
pub fn send_own<'a, W: Wait, D: TxDevice>(
    rt: &W,
    shared: &Shared<'a, D>,
    cpu: &mut Cpu<D>,
    owner: u32,
    work: Work,
) -> Losses
    requires sender { IsBenchSender shared.now owner cpu.old }
    ensures sender { IsBenchSender shared.now owner cpu.new }
{
    let mut losses = Losses::NONE;
    for k in 0..at_most(work.count) {
        let sending = send(rt, shared, cpu, owner, k * OWNERS + owner);
        losses = losses.and(Losses::of(sending));
        interrupt(shared, cpu, owner, work.wakes);
    }
    losses
}
