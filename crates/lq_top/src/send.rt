//! The packets of a capture are sent under a plan, and what became of them is written, for `run` and for `gen`.
ghost use Rattle.std.specs.Prelude.{◌≡◌, ◌⊎◌, ◌<◌, ◌^◌, [], All, IfOk, OnErr, OnOk, drop, length, map, vec_len};
ghost use Rattle.lq_model.specs.Openings.{openings};
ghost use Rattle.lq_model.specs.Plan.{infos_of, unit_count};
ghost use Rattle.lq_pcapng.specs.File.{packets_of_file};
ghost use Rattle.lq_model.specs.Settled.{IsSettled};
ghost use Rattle.lq_plan.specs.Packets.{IsInfoWithin};
ghost use Rattle.lq_files.specs.Accepted.{IsRunnable};
ghost use Rattle.lq_host.specs.Host.{wrote};
ghost use Rattle.lq_files.specs.RunFiles.{MayWrite, counts_output};
ghost use Rattle.lq_files.specs.Stop.{StopsFor};
ghost use Rattle.lq_files.specs.Reports.{run_texts};
ghost use Rattle.lq_files.specs.Written.{IsCut, OutputHasPrefix, written};
ghost use Rattle.lq_senders.specs.Fates.{AreEnded, AreFatesOf, identities_of};
ghost use Rattle.lq_senders.specs.Told.{TellEach, fates_told};
ghost use Rattle.lq_table.specs.Ended.{ended_state};

use lq_device::TxDevice;
use lq_fates::Fates;
use lq_files::{RunInputs, RunReport, Stop, write_counts, write_run};
use lq_host::Host;
use lq_model::{Info, NoMemory};
use lq_plan::{Plan, infos};
use lq_senders::{Gate, Resources, RunFates, send_all};
use lq_table::Ended;
use lq_wire::openings_of_plan;
use std::alloc::Global;
use std::marker::Sync;
use std::sync::Wait;
use std::thread::Threads;

/// Sends the packets of a capture under a plan, and tells what each is to the rules. What stays of the stations tells the fates.
///
/// # NoMemory
///
/// There was no room for a run. All devices are in the bench again.
pub fn send_capture<R: Threads + Wait + Sync, G: Gate, D: TxDevice>(
    on: &Resources<'_, R, G>,
    bench: &mut Vec<D>,
    ended: &mut Vec<Ended<D>>,
    run: &RunInputs<'_>,
) -> Result<Vec<Info>, NoMemory>
    requires runnable { IsRunnable (vec_len bench.old) run.now.plan.now }
    requires none_yet { ended.old.items ≡ [] }
    ensures infos { IfOk result (λ infos. infos.items ≡ infos_of run.now.plan.now (packets_of_file run.now.capture.now)) }
    ensures count { IfOk result (λ infos. vec_len infos ≡ (packets_of_file run.now.capture.now).count) }
    ensures within { IfOk result (λ infos. All (IsInfoWithin run.now.plan.now) infos.items) }
    ensures fates { IfOk result (λ infos. AreFatesOf run.now.plan.now infos.items (openings run.now.plan.now (packets_of_file run.now.capture.now))
        (fates_told infos.items (map ended_state ended.new.items)) (map D.state bench.old.items) (map D.state bench.new.items)) }
    ensures ended { IfOk result (λ infos. AreEnded run.now.plan.now infos.items
        (fates_told infos.items (map ended_state ended.new.items)) (map ended_state ended.new.items)) }
    ensures told { IfOk result (λ infos. TellEach infos.items (map ended_state ended.new.items)) }
    ensures none_ended { OnErr result (ended.new.items ≡ []) }
    ensures others { drop (unit_count run.now.plan.now) bench.new.items ≡ drop (unit_count run.now.plan.now) bench.old.items }
    ensures len { vec_len bench.new ≡ vec_len bench.old }
    ensures boxes { identities_of (map D.state bench.new.items) ≡ identities_of (map D.state bench.old.items) }
{
    let infos = infos(on.rt, on.alloc, run.plan, run.capture)?;
    let openings = openings_of_plan(on.alloc, run.plan, &infos, run.capture)?;
    send_all(on, run.plan, &infos, &openings, bench, ended)?;
    Ok(infos)
}

/// Writes what became of a run's packets by these fates.
fn write_report<R: Threads + Sync, H: Host, G: Gate, F: Fates>(
    on: &Resources<'_, R, G>,
    host: &mut H,
    run: &RunInputs<'_>,
    infos: &[Info],
    fates: &F,
) -> Result<(), Stop>
    requires may { MayWrite H.may_create run.now.out.now (unit_count run.now.plan.now) }
    requires infos { infos.now ≡ infos_of run.now.plan.now (packets_of_file run.now.capture.now) }
    requires count { length infos.now ≡ (packets_of_file run.now.capture.now).count }
    requires few { length infos.now < 2 ^ 32 }
    requires within { All (IsInfoWithin run.now.plan.now) infos.now }
    requires settled { IsSettled run.now.plan.now infos.now (F.fates fates.now) }
    ensures handles { (H.state host.new).handles ≡ (H.state host.old).handles }
    ensures ok { OnOk result (H.state host.new ≡ written (run_texts run.now (F.fates fates.now)) (H.state host.old)) }
    ensures err { OnErr result (IsCut (run_texts run.now (F.fates fates.now)) (H.state host.old) (H.state host.new)) }
    ensures cause { StopsFor (H.fault_count host.old) (H.fault_count host.new) result }
{
    let report = RunReport {
        run: *run,
        infos,
        fates,
    };
    write_run(on.rt, on.alloc, host, &report)
}

/// Writes what became of a run's packets: their fates are read off what stays of the stations.
pub fn write_told<'a, R: Threads + Sync, H: Host, G: Gate, D: TxDevice>(
    on: &Resources<'_, R, G>,
    host: &mut H,
    run: &RunInputs<'_>,
    infos: &'a [Info],
    ended: &'a [Ended<D>],
) -> Result<(), Stop>
    requires may { MayWrite H.may_create run.now.out.now (unit_count run.now.plan.now) }
    requires infos { infos.now ≡ infos_of run.now.plan.now (packets_of_file run.now.capture.now) }
    requires count { length infos.now ≡ (packets_of_file run.now.capture.now).count }
    requires few { length infos.now < 2 ^ 32 }
    requires within { All (IsInfoWithin run.now.plan.now) infos.now }
    requires told { TellEach infos.now (map ended_state ended.now) }
    requires settled { IsSettled run.now.plan.now infos.now (fates_told infos.now (map ended_state ended.now)) }
    ensures handles { (H.state host.new).handles ≡ (H.state host.old).handles }
    ensures ok { OnOk result (H.state host.new
        ≡ written (run_texts run.now (fates_told infos.now (map ended_state ended.now))) (H.state host.old)) }
    ensures err { OnErr result (IsCut (run_texts run.now (fates_told infos.now (map ended_state ended.now))) (H.state host.old) (H.state host.new)) }
    ensures cause { StopsFor (H.fault_count host.old) (H.fault_count host.new) result }
{
    let fates = RunFates::new(infos, ended);
    write_report(on, host, run, infos, &fates)
}

/// Writes the counts of a run's fates, which are read off what stays of the stations.
pub fn count_told<'a, H: Host, D: TxDevice>(
    alloc: Global,
    host: &mut H,
    plan: &Plan,
    infos: &'a [Info],
    ended: &'a [Ended<D>],
) -> Result<(), Stop>
    requires told { TellEach infos.now (map ended_state ended.now) }
    requires same { length (fates_told infos.now (map ended_state ended.now)) ≡ length infos.now }
    requires few { length infos.now < 2 ^ 32 }
    ensures handles { (H.state host.new).handles ≡ (H.state host.old).handles }
    ensures ok { OnOk result (H.state host.new
        ≡ wrote (H.state host.old) 0 (counts_output plan.now infos.now (fates_told infos.now (map ended_state ended.now)))) }
    ensures err { OnErr result ((H.state host.new ≡ H.state host.old)
        ⊎ OutputHasPrefix (counts_output plan.now infos.now (fates_told infos.now (map ended_state ended.now))) (H.state host.old) (H.state host.new)) }
    ensures cause { StopsFor (H.fault_count host.old) (H.fault_count host.new) result }
{
    let fates = RunFates::new(infos, ended);
    write_counts(alloc, host, plan, infos, &fates)
}
