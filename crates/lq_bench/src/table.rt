//! A table with four seats, and what is measured on it.
ghost use Rattle.std.specs.Prelude.{All, IfOk, OnOk};
ghost use Rattle.lq_bench.specs.Ready.{IsReady, IsFirstReady, IsWhole};

use crate::kind::{Holding, Kind};
use crate::timing::{timed, timed_alone, timed_control};
use lq_device::{BenchDevice, PLAIN, Station, TxDevice};
use lq_model::NoMemory;
use lq_table::{Cpu, Shared};
use std::alloc::Global;
use std::io;
use std::marker::Sync;
use std::rt::Runtime;
use std::thread::Threads;
use std::time::Duration;

/// How many seats there are, each on a thread of its own.
const SEATS: u32 = 4;

/// What was measured: rounds, by so many threads at once.
#[derive(Clone, Copy, Drop)]
pub struct Measured {
    pub threads: usize,
    /// How many rounds each thread made.
    pub count: u32,
    /// How long they took.
    pub time: Duration,
}

impl Measured {
    /// Tenths of a nanosecond that a round took.
    fn tenths_a_round(self) -> u128 {
        if self.count == 0 {
            0
        } else {
            self.time.as_nanos() * 10 / self.count as u128
        }
    }
}

/// A line on what was measured: its name, and the time where it is asked for.
pub fn show<R: Runtime>(rt: &R, name: &str, measured: Measured, shows: bool) -> io::Result<()> {
    let threads = measured.threads;
    if shows {
        let tenths = measured.tenths_a_round();
        println!(rt;
            "{name}, {threads} at once: {}.{} ns",
            tenths / 10,
            tenths % 10
        )
    } else {
        println!(rt; "{name}, {threads} at once")
    }
}

/// A table without packets, and its first seat.
fn empty_table<'a>(alloc: Global) -> Result<(Shared<'a, BenchDevice>, Cpu<BenchDevice>), NoMemory>
    ensures { IfOk result (λ t. IsFirstReady t.0 t.1 × IsWhole t.1) }
{
    let Ok(station) = Station::new(alloc, 0, BenchDevice::new(alloc)) else {
        return Err(NoMemory);
    };
    match Shared::make(alloc, &[], 0, PLAIN, SEATS, station) {
        Ok(made) => Ok(made),
        Err(_) => Err(NoMemory),
    }
}

/// One seat more.
fn add_seat<'a, D: TxDevice>(
    cpus: &mut Vec<Cpu<D>>,
    shared: &Shared<'a, D>,
    cpu: Cpu<D>,
) -> Result<(), NoMemory>
    requires seats { All (λ c. IsReady shared.now c) cpus.old.items }
    requires seat { IsReady shared.now cpu }
    ensures { OnOk result (All (λ c. IsReady shared.now c) cpus.new.items) }
{
    match cpus.push(cpu) {
        Ok(()) => Ok(()),
        Err(_) => Err(NoMemory),
    }
}

/// A seat for each of the four owners.
fn four_seats<'a, D: TxDevice>(
    alloc: Global,
    shared: &Shared<'a, D>,
    first: Cpu<D>,
) -> Result<Vec<Cpu<D>>, NoMemory>
    requires ready { IsReady shared.now first × IsWhole first }
    ensures { IfOk result (λ cpus. All (λ c. IsReady shared.now c) cpus.items) }
{
    let mut first = first;
    let second = shared.split(&mut first, 1);
    let third = shared.split(&mut first, 2);
    let fourth = shared.split(&mut first, 3);
    let mut cpus = Vec::new(alloc);
    add_seat(&mut cpus, shared, first)?;
    add_seat(&mut cpus, shared, second)?;
    add_seat(&mut cpus, shared, third)?;
    add_seat(&mut cpus, shared, fourth)?;
    Ok(cpus)
}

/// Control, with nobody else at the table.
fn measure_control<'a, R: Runtime, D: TxDevice>(
    rt: &R,
    shared: &Shared<'a, D>,
    cpu: &mut Cpu<D>,
    count: u32,
    shows: bool,
) -> io::Result<()>
    requires ready { IsFirstReady shared.now cpu.old }
    ensures { OnOk result (IsFirstReady shared.now cpu.new) }
{
    for &kind in &[Holding::Lock, Holding::Station] {
        let time = timed_control(rt, kind, shared, cpu, count)?;
        let measured = Measured {
            threads: 1,
            count,
            time,
        };
        show(rt, kind.name(), measured, shows)?;
    }
    Ok(())
}

/// One seat, with nobody else at the table.
fn measure_alone<'a, R: Runtime, D: TxDevice>(
    rt: &R,
    shared: &Shared<'a, D>,
    cpu: &mut Cpu<D>,
    count: u32,
    shows: bool,
) -> io::Result<()>
    requires ready { IsReady shared.now cpu.old }
{
    for &kind in &[Kind::Load, Kind::Wake, Kind::Produce] {
        let time = timed_alone(rt, kind, shared, cpu, count)?;
        let measured = Measured {
            threads: 1,
            count,
            time,
        };
        show(rt, kind.name(), measured, shows)?;
    }
    Ok(())
}

/// Four seats at once.
fn measure_four<'a, R: Runtime + Threads + Sync, D: TxDevice>(
    rt: &R,
    shared: &Shared<'a, D>,
    cpus: &mut [Cpu<D>],
    count: u32,
    shows: bool,
) -> io::Result<()>
    requires ready { All (λ c. IsReady shared.now c) cpus.old }
{
    for &kind in &[Kind::Load, Kind::Wake, Kind::Produce] {
        let time = timed(rt, kind, shared, cpus, count)?;
        let measured = Measured {
            threads: cpus.len(),
            count,
            time,
        };
        show(rt, kind.name(), measured, shows)?;
    }
    Ok(())
}

/// All that is measured, each on a table of its own.
pub fn measure_all<R: Runtime + AllocGlobal + Threads + Sync>(
    rt: &R,
    count: u32,
    shows: bool,
) -> io::Result<()> {
    let Ok((shared, mut cpu)) = empty_table(rt.alloc()) else {
        return Err(io::ErrorKind::OutOfMemory.into());
    };
    measure_control(rt, &shared, &mut cpu, count, shows)?;
    measure_alone(rt, &shared, &mut cpu, count, shows)?;
    let Ok((shared, first)) = empty_table(rt.alloc()) else {
        return Err(io::ErrorKind::OutOfMemory.into());
    };
    let Ok(mut cpus) = four_seats(rt.alloc(), &shared, first) else {
        return Err(io::ErrorKind::OutOfMemory.into());
    };
    measure_four(rt, &shared, cpus.as_mut_slice(), count, shows)
}
