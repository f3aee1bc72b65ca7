//! What the transmit of a packet costs, by the path that it takes.
ghost use Rattle.lq_bench.specs.Senders.{IsActive, IsFirstSender};

use crate::four::timed_four;
use crate::packets::{packets, table};
use crate::path::Path;
use crate::senders::{Losses, OWNERS, Work, at_most, send_own};
use crate::table::{Measured, show};
use lq_device::TxDevice;
use lq_model::Info;
use lq_table::{Cpu, Shared};
use std::io;
use std::marker::Sync;
use std::rt::{Clock, Runtime};
use std::sync::Wait;
use std::thread::Threads;
use std::time::{Duration, Instant};

/// Makes the station as the packets of this path are to find it.
fn prepare<'a, D: TxDevice>(path: Path, shared: &Shared<'a, D>, cpu: &mut Cpu<D>)
    requires active { IsActive shared.now cpu.old }
    ensures first { IsFirstSender shared.now cpu.new }
{
    if path.deactivated() {
        shared.set_deactivated(cpu, 0);
        shared.end_control(cpu);
    }
}

/// How long one seat takes to send so many packets of owner 0, with nobody else at the table, and what was lost of them.
fn timed<'a, R: Wait + Clock, D: TxDevice>(
    rt: &R,
    shared: &Shared<'a, D>,
    cpu: &mut Cpu<D>,
    work: Work,
) -> io::Result<(Duration, Losses)>
    requires first { IsFirstSender shared.now cpu.old }
{
    let start = Instant::now(rt)?;
    let losses = send_own(rt, shared, cpu, 0, work);
    let time = start.elapsed(rt)?;
    Ok((time, losses))
}

/// Lines on what was measured. An error where a packet wasn't sent.
fn show_sent<R: Runtime>(
    rt: &R,
    path: Path,
    measured: Measured,
    losses: Losses,
    shows: bool,
) -> io::Result<()> {
    if losses.unsent != 0 {
        return Err(io::ErrorKind::Other.into());
    }
    show(rt, path.name(), measured, shows)?;
    if shows {
        println!(rt; "    dropped: {}", losses.dropped)?;
    }
    Ok(())
}

/// So many packets of one owner, on a table of their own.
fn measure_alone<R: Runtime + AllocGlobal + Wait>(
    rt: &R,
    infos: &[Info],
    path: Path,
    count: u32,
    shows: bool,
) -> io::Result<()> {
    let Some((shared, mut cpu)) = table(rt.alloc(), infos, path.plan()) else {
        return Err(io::ErrorKind::OutOfMemory.into());
    };
    prepare(path, &shared, &mut cpu);
    let (time, losses) = timed(rt, &shared, &mut cpu, path.work(count))?;
    let measured = Measured {
        threads: 1,
        count,
        time,
    };
    show_sent(rt, path, measured, losses, shows)
}

/// So many packets of each owner, on a table of their own, by four senders at once.
fn measure_four<R: Runtime + AllocGlobal + Wait + Threads + Sync>(
    rt: &R,
    infos: &[Info],
    path: Path,
    count: u32,
    shows: bool,
) -> io::Result<()> {
    let Some((shared, mut first)) = table(rt.alloc(), infos, path.plan()) else {
        return Err(io::ErrorKind::OutOfMemory.into());
    };
    prepare(path, &shared, &mut first);
    let (time, losses) = timed_four(rt, &shared, first, path.work(count))?;
    let measured = Measured {
        threads: OWNERS as usize,
        count,
        time,
    };
    show_sent(rt, path, measured, losses, shows)
}

/// The cost of each path, with so many packets of an owner but 250,000 at most: by one seat alone, and by four at once.
pub fn measure_paths<R: Runtime + AllocGlobal + Wait + Threads + Sync>(
    rt: &R,
    count: u32,
    shows: bool,
) -> io::Result<()> {
    let count = at_most(count);
    let Ok(infos) = packets(rt.alloc(), count * OWNERS) else {
        return Err(io::ErrorKind::OutOfMemory.into());
    };
    for &path in &Path::ALL {
        measure_alone(rt, infos.as_slice(), path, count, shows)?;
    }
    for &path in &Path::ALL {
        measure_four(rt, infos.as_slice(), path, count, shows)?;
    }
    Ok(())
}
