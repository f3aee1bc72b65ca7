//! Rounds of steps that lead a seat back to where it stood.
ghost use Rattle.lq_bench.specs.Ready.{IsReady};

use crate::kind::Kind;
use lq_device::TxDevice;
use lq_table::{Cpu, Shared};

/// Tries to wake an open queue: an exchange that changes nothing.
fn try_wake<'a, D: TxDevice>(shared: &Shared<'a, D>, cpu: &mut Cpu<D>)
    requires ready { IsReady shared.now cpu.old }
    ensures ready { IsReady shared.now cpu.new }
{
    if shared.wake(cpu, 0) {
        shared.set_sched(cpu);
    }
}

/// Takes the producer lock of the first band and gives it back, where it is free.
fn take_lock<'a, D: TxDevice>(shared: &Shared<'a, D>, cpu: &mut Cpu<D>)
    requires ready { IsReady shared.now cpu.old }
    ensures ready { IsReady shared.now cpu.new }
{
    let seen = shared.load_producer(cpu, 0);
    if seen % 2 != 0 {
        return;
    }
    if shared.take_producer(cpu, 0, seen) {
        shared.load_size(cpu);
        shared.give_producer(cpu, 0, (seen / 2) as u32);
    }
}

/// One round.
fn round<'a, D: TxDevice>(kind: Kind, shared: &Shared<'a, D>, cpu: &mut Cpu<D>)
    requires ready { IsReady shared.now cpu.old }
    ensures ready { IsReady shared.now cpu.new }
{
    match kind {
        Kind::Load => {
            shared.load_turn(cpu, 0);
        }
        Kind::Wake => try_wake(shared, cpu),
        Kind::Produce => take_lock(shared, cpu),
    }
}

/// So many rounds of this kind.
pub fn rounds<'a, D: TxDevice>(kind: Kind, shared: &Shared<'a, D>, cpu: &mut Cpu<D>, count: u32)
    requires ready { IsReady shared.now cpu.old }
    ensures ready { IsReady shared.now cpu.new }
{
    for _ in 0..count {
        round(kind, shared, cpu);
    }
}
