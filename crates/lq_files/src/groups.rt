//! What the children of a multi-queue root sent together: the file of each root, and the line that counts it.
ghost use Rattle.std.specs.Prelude.{◌≡◌, ◌++◌, ◌<◌, ◌≤◌, ◌^◌, ℕ, IfOk, List, OnErr, OnOk, count_by, length, map, nat_lt, string_bytes};
ghost use Rattle.lq_host.specs.Host.{filed};
ghost use Rattle.lq_model.specs.Plan.{mq_at};
ghost use Rattle.lq_model.specs.Settled.{AreSerials};
ghost use Rattle.lq_model.specs.declared.fate.Fate.{Fate};
ghost use Rattle.lq_fates.specs.Sent.{sent_by_units};
ghost use Rattle.lq_pcapng.specs.File.{packets_of_file, text_of};
ghost use Rattle.lq_plan.specs.Limits.{max_stations};
ghost use Rattle.lq_files.specs.Reports.{group_files_of};
ghost use Rattle.lq_files.specs.Groups.{group_capture_name, is_sent_between, mq_lines, sent_by_group};
ghost use Rattle.lq_files.specs.Stop.{StopsFor};
ghost use Rattle.lq_files.specs.Written.{FileIsCut, FilesAreCut, files_written};

use crate::answer::Stop;
use crate::report::RunReport;
use crate::source::Packets;
use crate::write::write_packets_file;
use lq_fates::{Fates, push_bytes};
use lq_host::Host;
use lq_model::{Fate, NoMemory};
use lq_mq::{joint, mq_text};
use lq_plan::Plan;
use std::alloc::{AllocError, Global};
use std::marker::Sync;
use std::thread::Threads;

/// The name of the capture that the packets of a group's children go to.
fn name_of_group_capture(alloc: Global, out: &str, j: u32) -> Result<String, AllocError>
    ensures { IfOk result (λ name. string_bytes name ≡ group_capture_name out.now j) }
{
    format!(in alloc; "{out}.mq{j}.pcap")
}

/// The packets that the children of group `j` sent, by serial, and at one serial by child. List u of `sent` has those that unit u sent.
fn sent_by_group(
    alloc: Global,
    plan: &Plan,
    sent: &[Vec<u32>],
    j: u32,
) -> Result<Vec<u32>, NoMemory>
    requires group { j < length plan.now.groups }
    requires units { length plan.now.stations ≤ length sent.now }
    ensures { (fates : List Fate) → map (λ list. list.items) sent.now ≡ sent_by_units fates (length sent.now)
        → IfOk result (λ all. all.items ≡ sent_by_group plan.now fates j) }
{
    let first = plan.first(j) as usize;
    joint(alloc, &sent[first..first + plan.mq(j) as usize])
}

/// Makes the file of group `j`: the capture of the packets that its children sent.
fn write_group<R: Threads + Sync, H: Host, F: Fates>(
    rt: &R,
    alloc: Global,
    host: &mut H,
    report: &RunReport<'_, F>,
    sent: &[Vec<u32>],
    j: u32,
) -> Result<(), Stop>
    requires may { H.may_create (group_capture_name report.now.run.out.now j) }
    requires group { j < length report.now.run.plan.now.groups }
    requires serials { (unit : ℕ) → AreSerials (F.fates report.now.fates.now) unit }
    requires known { length (F.fates report.now.fates.now) ≤ (packets_of_file report.now.run.capture.now).count }
    requires units { length report.now.run.plan.now.stations ≤ length sent.now }
    requires sent { map (λ list. list.items) sent.now ≡ sent_by_units (F.fates report.now.fates.now) (length sent.now) }
    ensures handles { (H.state host.new).handles ≡ (H.state host.old).handles }
    ensures ok { OnOk result (H.state host.new ≡ filed (H.state host.old) (group_capture_name report.now.run.out.now j)
        (text_of report.now.run.capture.now (sent_by_group report.now.run.plan.now (F.fates report.now.fates.now) j))) }
    ensures err { OnErr result (FileIsCut (group_capture_name report.now.run.out.now j)
        (text_of report.now.run.capture.now (sent_by_group report.now.run.plan.now (F.fates report.now.fates.now) j)) (H.state host.old) (H.state host.new)) }
    ensures cause { StopsFor (H.fault_count host.old) (H.fault_count host.new) result }
{
    let all = sent_by_group(alloc, report.run.plan, sent, j)?;
    let name = name_of_group_capture(alloc, report.run.out, j)?;
    let packets = Packets {
        capture: report.run.capture,
        numbers: &all,
    };
    write_packets_file(rt, alloc, host, name.as_str(), &packets)
}

/// Whether group `j` is a multi-queue root: it has more than one child.
fn is_root(plan: &Plan, j: u32) -> bool
    requires { j < length plan.now.groups }
    ensures { result ≡ nat_lt 1 (mq_at plan.now.groups j) }
{
    plan.mq(j) > 1
}

/// Makes the files of the multi-queue roots, in ascending order.
pub fn write_groups<R: Threads + Sync, H: Host, F: Fates>(
    rt: &R,
    alloc: Global,
    host: &mut H,
    report: &RunReport<'_, F>,
    sent: &[Vec<u32>],
) -> Result<(), Stop>
    requires may { (j : ℕ) → j < max_stations → H.may_create (group_capture_name report.now.run.out.now j) }
    requires serials { (unit : ℕ) → AreSerials (F.fates report.now.fates.now) unit }
    requires known { length (F.fates report.now.fates.now) ≤ (packets_of_file report.now.run.capture.now).count }
    requires units { length report.now.run.plan.now.stations ≤ length sent.now }
    requires sent { map (λ list. list.items) sent.now ≡ sent_by_units (F.fates report.now.fates.now) (length sent.now) }
    ensures handles { (H.state host.new).handles ≡ (H.state host.old).handles }
    ensures ok { OnOk result (H.state host.new
        ≡ files_written (H.state host.old) (group_files_of report.now.run (F.fates report.now.fates.now))) }
    ensures err { OnErr result (FilesAreCut (group_files_of report.now.run (F.fates report.now.fates.now))
        (H.state host.old) (H.state host.new)) }
    ensures cause { StopsFor (H.fault_count host.old) (H.fault_count host.new) result }
{
    for j in 0..report.run.plan.groups() {
        if is_root(report.run.plan, j) {
            write_group(rt, alloc, host, report, sent, j)?;
        }
    }
    Ok(())
}

/// Whether a unit from `low` on and below `high` sent the packet.
fn is_sent_between(fate: &Fate, low: u32, high: u32) -> bool
    ensures { result ≡ is_sent_between low high fate.now }
{
    matches!(*fate, Fate::Sent { unit, .. } if low <= unit && unit < high)
}

/// How many packets such units sent.
fn count_sent_between<F: Fates>(fates: &F, low: u32, high: u32) -> usize
    ensures { result ≡ count_by (is_sent_between low high) (F.fates fates.now) }
{
    let mut count = 0;
    for n in 0..fates.len() {
        if is_sent_between(&fates.fate(n), low, high) {
            count += 1;
        }
    }
    count
}

/// How many packets the children of group `j` sent.
fn count_sent<F: Fates>(plan: &Plan, fates: &F, j: u32) -> usize
    requires { j < length plan.now.groups }
    ensures sent { result ≡ length (sent_by_group plan.now (F.fates fates.now) j) }
    ensures few { result ≤ length (F.fates fates.now) }
{
    let first = plan.first(j);
    count_sent_between(fates, first, first + plan.mq(j))
}

/// Writes a line for each multi-queue root to the end of a text: how many children it has, and how many packets they sent.
pub fn push_mq_lines<F: Fates>(
    alloc: Global,
    text: &mut Vec<u8>,
    plan: &Plan,
    fates: &F,
) -> Result<(), NoMemory>
    requires { length (F.fates fates.now) < 2 ^ 32 }
    ensures { OnOk result (text.new.items ≡ text.old.items ++ mq_lines plan.now (F.fates fates.now)) }
{
    for j in 0..plan.groups() {
        if is_root(plan, j) {
            let line = mq_text(alloc, j, plan.mq(j), count_sent(plan, fates, j) as u32)?;
            push_bytes(text, &line)?;
        }
    }
    Ok(())
}
