//! All that a run writes: its files, and its lines to standard output.
ghost use Rattle.std.specs.Prelude.{◌≡◌, ◌⊎◌, ◌<◌, ◌^◌, All, List, length, OnOk, OnErr};
ghost use Rattle.lq_host.specs.Host.{wrote};
ghost use Rattle.lq_model.specs.Plan.{infos_of, unit_count};
ghost use Rattle.lq_model.specs.Settled.{IsSettled};
ghost use Rattle.lq_model.specs.declared.fate.Info.{Info};
ghost use Rattle.lq_fates.specs.Counts.{AreCounts};
ghost use Rattle.lq_pcapng.specs.File.{packets_of_file};
ghost use Rattle.lq_plan.specs.Packets.{IsInfoWithin};
ghost use Rattle.lq_files.specs.Reports.{run_texts};
ghost use Rattle.lq_files.specs.RunFiles.{counts_output};
ghost use Rattle.lq_files.specs.RunFiles.{MayWrite};
ghost use Rattle.lq_files.specs.Stop.{StopsFor};
ghost use Rattle.lq_files.specs.Written.{OutputHasPrefix, IsCut, written};

use crate::answer::Stop;
use crate::groups::{push_mq_lines, write_groups};
use crate::report::RunReport;
use crate::source::FateLines;
use crate::times::write_times;
use crate::write::{write_fates, write_output, write_units};
use lq_fates::{Counts, Fates, counts_of, counts_text, sent_by_units};
use lq_host::Host;
use lq_model::Info;
use lq_plan::Plan;
use std::alloc::Global;
use std::marker::Sync;
use std::thread::Threads;

/// Writes these counts of the fates to standard output, and a line for each multi-queue root.
fn write_counted<H: Host, F: Fates>(
    alloc: Global,
    host: &mut H,
    plan: &Plan,
    fates: &F,
    counts: &Counts,
) -> Result<(), Stop>
    requires few { length (F.fates fates.now) < 2 ^ 32 }
    ensures handles { (H.state host.new).handles ≡ (H.state host.old).handles }
    ensures ok { (infos : List Info) → AreCounts (F.fates fates.now) infos (length plan.now.stations) (unit_count plan.now) counts.now
        → OnOk result (H.state host.new ≡ wrote (H.state host.old) 0 (counts_output plan.now infos (F.fates fates.now))) }
    ensures err { (infos : List Info) → AreCounts (F.fates fates.now) infos (length plan.now.stations) (unit_count plan.now) counts.now
        → OnErr result ((H.state host.new ≡ H.state host.old)
        ⊎ OutputHasPrefix (counts_output plan.now infos (F.fates fates.now)) (H.state host.old) (H.state host.new)) }
    ensures cause { StopsFor (H.fault_count host.old) (H.fault_count host.new) result }
{
    let mut text = counts_text(alloc, counts, fates.len())?;
    push_mq_lines(alloc, &mut text, plan, fates)?;
    write_output(host, &text)
}

/// Writes the counts of the fates to standard output, and a line for each multi-queue root.
pub fn write_counts<H: Host, F: Fates>(
    alloc: Global,
    host: &mut H,
    plan: &Plan,
    infos: &[Info],
    fates: &F,
) -> Result<(), Stop>
    requires same { length (F.fates fates.now) ≡ length infos.now }
    requires few { length (F.fates fates.now) < 2 ^ 32 }
    ensures handles { (H.state host.new).handles ≡ (H.state host.old).handles }
    ensures ok { OnOk result (H.state host.new
        ≡ wrote (H.state host.old) 0 (counts_output plan.now infos.now (F.fates fates.now))) }
    ensures err { OnErr result ((H.state host.new ≡ H.state host.old)
        ⊎ OutputHasPrefix (counts_output plan.now infos.now (F.fates fates.now)) (H.state host.old) (H.state host.new)) }
    ensures cause { StopsFor (H.fault_count host.old) (H.fault_count host.new) result }
{
    let counts = counts_of(alloc, fates, infos, plan.stations(), plan.units())?;
    write_counted(alloc, host, plan, fates, &counts)
}

/// Writes all that tells what became of a run's packets. Only the text of the counts is in memory as a whole. The fates are read three
/// times: they are counted, the packets that each unit sent are laid out, and the lines are made.
pub fn write_run<R: Threads + Sync, H: Host, F: Fates>(
    rt: &R,
    alloc: Global,
    host: &mut H,
    report: &RunReport<'_, F>,
) -> Result<(), Stop>
    requires may { MayWrite H.may_create report.now.run.out.now (unit_count report.now.run.plan.now) }
    requires infos { report.now.infos.now ≡ infos_of report.now.run.plan.now (packets_of_file report.now.run.capture.now) }
    requires count { length report.now.infos.now ≡ (packets_of_file report.now.run.capture.now).count }
    requires few { length report.now.infos.now < 2 ^ 32 }
    requires within { All (IsInfoWithin report.now.run.plan.now) report.now.infos.now }
    requires settled { IsSettled report.now.run.plan.now report.now.infos.now (F.fates report.now.fates.now) }
    ensures handles { (H.state host.new).handles ≡ (H.state host.old).handles }
    ensures ok { OnOk result (H.state host.new
        ≡ written (run_texts report.now.run (F.fates report.now.fates.now)) (H.state host.old)) }
    ensures err { OnErr result (IsCut (run_texts report.now.run (F.fates report.now.fates.now))
        (H.state host.old) (H.state host.new)) }
    ensures cause { StopsFor (H.fault_count host.old) (H.fault_count host.new) result }
{
    let plan = report.run.plan;
    let units = plan.units();
    let counts = counts_of(alloc, report.fates, report.infos, plan.stations(), units)?;
    let sent = sent_by_units(alloc, report.fates, &counts.by_unit)?;
    write_units(rt, alloc, host, report, &sent, units)?;
    write_groups(rt, alloc, host, report, &sent)?;
    drop(sent);
    let lines = FateLines {
        fates: report.fates,
    };
    write_fates(rt, alloc, host, report.run.out, &lines)?;
    write_times(alloc, host, &report.run, report.infos)?;
    write_counted(alloc, host, plan, report.fates, &counts)
}
