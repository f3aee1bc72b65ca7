//! How long rounds take.
ghost use Rattle.std.specs.Prelude.{All};
ghost use Rattle.lq_bench.specs.Ready.{IsReady, IsFirstReady};

use crate::holding::hold;
use crate::kind::{Holding, Kind};
use crate::rounds::rounds;
use lq_device::TxDevice;
use lq_table::{Cpu, Shared};
use std::marker::Sync;
use std::rt::Clock;
use std::thread::Threads;
use std::time::{Duration, Instant};
use std::{io, thread};

/// Each seat makes so many rounds, on a thread of its own.
fn side_by_side<'a, R: Threads + Sync, D: TxDevice>(
    rt: &R,
    kind: Kind,
    shared: &Shared<'a, D>,
    cpus: &mut [Cpu<D>],
    count: u32,
)
    requires ready { All (λ c. IsReady shared.now c) cpus.old }
    ensures ready { All (λ c. IsReady shared.now c) cpus.new }
{
    let threads = cpus.len();
    if threads > 0 {
        thread::for_each_mut(
            rt,
            cpus,
            threads,
            &|_, cpu: &mut Cpu<D>|
                requires { IsReady shared.now cpu.old }
                ensures { IsReady shared.entry.now cpu.new }
            { rounds(kind, shared, cpu, count) },
        );
    }
}

/// How long that takes.
pub fn timed<'a, R: Threads + Sync + Clock, D: TxDevice>(
    rt: &R,
    kind: Kind,
    shared: &Shared<'a, D>,
    cpus: &mut [Cpu<D>],
    count: u32,
) -> io::Result<Duration>
    requires ready { All (λ c. IsReady shared.now c) cpus.old }
    ensures ready { All (λ c. IsReady shared.now c) cpus.new }
{
    let start = Instant::now(rt)?;
    side_by_side(rt, kind, shared, cpus, count);
    start.elapsed(rt)
}

/// How long it takes one seat alone.
pub fn timed_alone<'a, R: Clock, D: TxDevice>(
    rt: &R,
    kind: Kind,
    shared: &Shared<'a, D>,
    cpu: &mut Cpu<D>,
    count: u32,
) -> io::Result<Duration>
    requires ready { IsReady shared.now cpu.old }
    ensures ready { IsReady shared.now cpu.new }
{
    let start = Instant::now(rt)?;
    rounds(kind, shared, cpu, count);
    start.elapsed(rt)
}

/// How long it takes control.
pub fn timed_control<'a, R: Clock, D: TxDevice>(
    rt: &R,
    kind: Holding,
    shared: &Shared<'a, D>,
    cpu: &mut Cpu<D>,
    count: u32,
) -> io::Result<Duration>
    requires ready { IsFirstReady shared.now cpu.old }
    ensures ready { IsFirstReady shared.now cpu.new }
{
    let start = Instant::now(rt)?;
    hold(kind, shared, cpu, count);
    start.elapsed(rt)
}
