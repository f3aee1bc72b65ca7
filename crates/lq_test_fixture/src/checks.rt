//! What holds of a run's files whatever order its senders' steps took: each packet has one fate, and it is one that the plan
//! allows; each unit's capture is the records of its sent packets in order of serial, and that of a multi-queue root those of its
//! children; each sender's packets of one station and band are there in that sender's order, those of a lower unit first; and the
//! counts are the fates'.
use crate::allowed::{Run, Tally, check_fates, sent_lists};
use crate::fates::{Told, fates_told};
use crate::flaw::{Flaw, demand};
use lq_host::MemHost;
use lq_pcap::{Capture, Frames as _, read_capture};
use lq_plan::{Plan, infos, read_plan};
use std::alloc::{AllocError, Global};
use std::marker::Sync;
use std::thread::Threads;

/// How many packets came to each end.
#[derive(Clone, Copy)]
struct Counts {
    sent: usize,
    full: usize,
    shrunk: usize,
    purged: usize,
    refused: usize,
}

impl Counts {
    fn count(&mut self, fate: Told) {
        let count = match fate {
            Told::Sent { unit: _, serial: _ } => &mut self.sent,
            Told::Full { seen: _ } => &mut self.full,
            Told::Shrunk { event: _ } => &mut self.shrunk,
            Told::Purged { event: _ } | Told::PurgedHung => &mut self.purged,
            Told::Refused { event: _ } => &mut self.refused,
        };
        *count = count.saturating_add(1);
    }
}

/// The counts of a station, or of all stations.
fn counts_of(run: &Run<'_>, station: Option<u32>) -> Counts {
    let mut counts = Counts {
        sent: 0,
        full: 0,
        shrunk: 0,
        purged: 0,
        refused: 0,
    };
    for (packet, fate) in run.packets.iter().zip(run.fates) {
        if station.is_none_or(|j| u32::from(packet.station) == j) {
            counts.count(*fate);
        }
    }
    counts
}

fn push_units(
    alloc: Global,
    text: &mut String,
    run: &Run<'_>,
    tally: &Tally,
) -> Result<(), AllocError> {
    for unit in 0..run.plan.units() {
        let sent = tally.sent_by(unit);
        text.push_str(&format!(in alloc; "unit {unit} sent {sent}\n")?)?;
    }
    Ok(())
}

fn push_stations(alloc: Global, text: &mut String, run: &Run<'_>) -> Result<(), AllocError> {
    for station in 0..run.plan.stations() {
        let Counts {
            sent: _,
            full,
            shrunk,
            purged,
            refused,
        } = counts_of(run, Some(station));
        text.push_str(&format!(in alloc;
            "station {station} full {full} shrunk {shrunk} purged {purged} refused {refused}\n"
        )?)?;
    }
    Ok(())
}

fn push_total(alloc: Global, text: &mut String, run: &Run<'_>) -> Result<(), AllocError> {
    let Counts {
        sent,
        full,
        shrunk,
        purged,
        refused,
    } = counts_of(run, None);
    let packets = run.packets.len();
    text.push_str(&format!(in alloc;
        "total {packets} sent {sent} full {full} shrunk {shrunk} purged {purged} refused {refused}\n"
    )?)
}

/// A line for each root with several children.
fn push_roots(
    alloc: Global,
    text: &mut String,
    plan: &Plan,
    tally: &Tally,
) -> Result<(), AllocError> {
    for j in 0..plan.groups() {
        let queues = plan.mq(j);
        if queues > 1 {
            let first = plan.first(j);
            let sent = (first..first + queues)
                .map(|unit| tally.sent_by(unit))
                .fold(0usize, |all, sent| all.saturating_add(sent));
            text.push_str(&format!(in alloc; "mq {j} queues {queues} sent {sent}\n")?)?;
        }
    }
    Ok(())
}

/// The text of the counts.
fn counts_text(alloc: Global, run: &Run<'_>, tally: &Tally) -> Result<String, AllocError> {
    let mut text = String::new(alloc);
    push_units(alloc, &mut text, run, tally)?;
    push_stations(alloc, &mut text, run)?;
    push_total(alloc, &mut text, run)?;
    push_roots(alloc, &mut text, run.plan, tally)?;
    Ok(text)
}

/// Whether a file is the capture of these packets.
fn is_capture_of(
    alloc: Global,
    file: Option<&[u8]>,
    capture: &Capture,
    packets: &[usize],
) -> Result<bool, AllocError> {
    let mut bytes = capture.header().to_vec(alloc)?;
    for n in packets {
        if *n < capture.len() {
            bytes.extend_from_slice(capture.whole(*n))?;
        }
    }
    Ok(file == Some(bytes.as_slice()))
}

/// Checks the captures of the units.
fn check_units(
    alloc: Global,
    host: &MemHost,
    capture: &Capture,
    lists: &[Vec<usize>],
) -> Result<(), Flaw> {
    let mut unit = 0u32;
    for sent in lists {
        let name = format!(in alloc; "o.{unit}.pcap")?;
        let is_its = is_capture_of(alloc, host.file(name.as_str()), capture, sent)?;
        demand(is_its, Flaw::Capture(unit))?;
        unit = unit.saturating_add(1);
    }
    let name = format!(in alloc; "o.{unit}.pcap")?;
    demand(host.file(name.as_str()).is_none(), Flaw::Capture(unit))
}

/// The packets of several lists: by place, and at one place list by list.
fn joint_of(alloc: Global, lists: &[Vec<usize>]) -> Result<Vec<usize>, AllocError> {
    let longest = lists.iter().map(|list| list.len()).max().unwrap_or(0);
    let mut joint = Vec::new(alloc);
    for serial in 0..longest {
        for list in lists {
            if let Some(n) = list.get(serial) {
                joint.push(*n)?;
            }
        }
    }
    Ok(joint)
}

/// Checks the captures of the roots with several children. A child's unit has the child's number.
fn check_roots(
    alloc: Global,
    host: &MemHost,
    capture: &Capture,
    plan: &Plan,
    lists: &[Vec<usize>],
) -> Result<(), Flaw> {
    for j in 0..plan.groups() {
        let name = format!(in alloc; "o.mq{j}.pcap")?;
        let file = host.file(name.as_str());
        let first = plan.first(j) as usize;
        let queues = plan.mq(j) as usize;
        let is_right = if queues > 1 {
            let children = lists.get(first..first + queues).unwrap_or(&[]);
            let joint = joint_of(alloc, children)?;
            is_capture_of(alloc, file, capture, &joint)?
        } else {
            file.is_none()
        };
        demand(is_right, Flaw::Joint(j))?;
    }
    Ok(())
}

/// Checks the files of a run with these fates, and its counts: how many packets were sent.
fn check_files(
    alloc: Global,
    host: &MemHost,
    capture: &Capture,
    run: &Run<'_>,
) -> Result<usize, Flaw> {
    let tally = Tally::of(run);
    check_fates(run, &tally)?;
    let lists = sent_lists(alloc, run, &tally)?;
    check_units(alloc, host, capture, &lists)?;
    check_roots(alloc, host, capture, run.plan, &lists)?;
    let counts = counts_text(alloc, run, &tally)?;
    demand(host.output() == counts.as_bytes(), Flaw::Counts)?;
    Ok(counts_of(run, None).sent)
}

/// Checks all files of a run with the output name `o` of this plan and this capture, and its counts: how many packets were sent.
pub fn check_run<R: Threads + Sync>(
    rt: &R,
    alloc: Global,
    host: &MemHost,
    plan: &[u8],
    capture: &[u8],
) -> Result<usize, Flaw> {
    let Ok(plan) = read_plan(alloc, plan) else {
        return Err(Flaw::Input);
    };
    let Ok(capture) = read_capture(alloc, capture.to_vec(alloc)?) else {
        return Err(Flaw::Input);
    };
    let Ok(packets) = infos(rt, alloc, &plan, &capture) else {
        return Err(Flaw::NoMemory);
    };
    let text = host.file("o.fates").ok_or(Flaw::Text)?;
    let fates = fates_told(alloc, text, packets.len())?;
    let run = Run {
        plan: &plan,
        packets: &packets,
        fates: &fates,
    };
    check_files(alloc, host, &capture, &run)
}
