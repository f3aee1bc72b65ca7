//! Many runs of eight senders over stations that stop, are busy, hang, are shortened, deactivated and activated, and whose devices
//! are swapped, and over taps; each of them is checked. `lq_test_stress ROUNDS PACKETS` makes so many rounds of each plan and each tap, of
//! so many packets, and `lq_test_stress ROUNDS PACKETS taps` of the taps alone; with no words a few short ones.
#![tactic(auto)]

mod plans;
mod taps;

use crate::plans::PLANS;
use crate::taps::{TapSum, tap_round};
use lq_pcap::gen_capture;
use lq_test_fixture::{RUN, call, check_run, host_of, unheld};
use lq_top::Status;
use std::io::Write;
use std::marker::Sync;
use std::rt::Runtime;
use std::sync::Wait;
use std::test::Fail;
use std::thread::Threads;
use std::{env, io};

/// How many rounds there are where no word says so, and of how many packets.
const FEW: Size = Size {
    rounds: 1,
    packets: 400,
    taps_alone: false,
};

/// How many rounds, how many packets in each run, and whether there are taps alone.
#[derive(Clone, Copy)]
struct Size {
    rounds: u32,
    packets: u32,
    taps_alone: bool,
}

/// The size that the words name.
fn size_of(rt: &HostRuntime) -> Option<Size> {
    let mut words = env::args(rt).ok()?;
    let rounds = words.nth(1)?.parse::<u32>().ok()?;
    let packets = words.next()?.parse::<u32>().ok()?.min(1_000_000);
    let taps_alone = words.next().is_some();
    Some(Size {
        rounds,
        packets,
        taps_alone,
    })
}

/// One run, which is checked: how many packets were sent.
fn run_once<R: Runtime + AllocGlobal + Wait + Threads + Sync>(
    rt: &R,
    plan: &str,
    number: u32,
    packets: u32,
) -> Result<usize, Fail> {
    let alloc = rt.alloc();
    let capture = gen_capture(alloc, number, packets.min(1_000_000))?;
    let mut host = host_of(alloc, plan.as_bytes(), &capture)?;
    let status = call(&unheld(rt, alloc), &RUN, &mut host)?;
    if status != Status::Done {
        return Err("a run that isn't done".into());
    }
    Ok(check_run(rt, alloc, &host, plan.as_bytes(), &capture)?)
}

/// A round: a run of each plan. It answers how many packets were sent.
fn round<R: Runtime + AllocGlobal + Wait + Threads + Sync>(
    rt: &R,
    number: u32,
    packets: u32,
) -> Result<u64, Fail> {
    let mut sent = 0u64;
    for &plan in &PLANS {
        sent = sent.saturating_add(run_once(rt, plan, number, packets)? as u64);
    }
    Ok(sent)
}

/// All rounds of the plans. It answers how many packets were sent.
fn rounds<R: Runtime + AllocGlobal + Wait + Threads + Sync>(
    rt: &R,
    size: Size,
) -> Result<u64, Fail> {
    let mut sent = 0u64;
    for number in 0..size.rounds {
        sent = sent.saturating_add(round(rt, number, size.packets)?);
    }
    Ok(sent)
}

/// All rounds of the taps.
fn tap_rounds<R: Runtime + AllocGlobal + Wait + Threads + Sync>(
    rt: &R,
    size: Size,
) -> Result<TapSum, Fail> {
    let mut sum = TapSum::none();
    for number in 0..size.rounds {
        sum = tap_round(rt, number, size.packets, sum)?;
    }
    Ok(sum)
}

/// Prints how many runs were made.
fn show<R: Runtime>(rt: &R, size: Size, sent: u64) -> io::Result<()> {
    let mut out = io::writer(rt);
    let runs = (size.rounds as u64).saturating_mul(PLANS.len() as u64);
    writeln!(
        out,
        "{runs} runs of {} packets, {sent} sent: each checked",
        size.packets
    )
}

/// Prints how many taps there were.
fn show_taps<R: Runtime>(rt: &R, size: Size, sum: TapSum) -> io::Result<()> {
    let mut out = io::writer(rt);
    let TapSum {
        taps,
        read,
        full,
        lost,
    } = sum;
    writeln!(
        out,
        "{taps} taps of {} packets, read {read} full {full} lost {lost}: each checked",
        size.packets
    )
}

fn main(rt: HostRuntime) -> Result<(), Fail> {
    let told = size_of(&rt);
    let size = told.unwrap_or(FEW);
    if !size.taps_alone {
        let sent = rounds(&rt, size)?;
        if told.is_some() {
            show(&rt, size, sent)?;
        }
    }
    let sum = tap_rounds(&rt, size)?;
    if told.is_some() {
        show_taps(&rt, size, sum)?;
    }
    Ok(())
}
