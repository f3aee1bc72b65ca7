//! All that a tap writes: its files, and its line to standard output.
ghost use Rattle.std.specs.Prelude.{◌≡◌, ◌<◌, ◌⊎◌, All, IfOk, OnErr, OnOk, string_bytes};
ghost use Rattle.lq_host.specs.Host.{filed, wrote};
ghost use Rattle.lq_pcapng.specs.File.{packets_of_file, text_of};
ghost use Rattle.lq_fates.specs.TapTexts.{tap_counts_line};
ghost use Rattle.lq_files.specs.RunFiles.{fates_name};
ghost use Rattle.lq_files.specs.Stop.{StopsFor};
ghost use Rattle.lq_files.specs.Reports.{tap_texts};
ghost use Rattle.lq_files.specs.TapFiles.{read_name};
ghost use Rattle.lq_files.specs.Written.{FileIsCut, IsCut, OutputHasPrefix, written};

use crate::answer::Stop;
use crate::report::TapReport;
use crate::source::{Packets, TapLines};
use crate::write::{write_fates, write_output, write_packets_file};
use lq_fates::{TapFate, tap_total_line};
use lq_host::Host;
use std::alloc::{AllocError, Global};
use std::marker::Sync;
use std::thread::Threads;

/// The name of the capture of the packets that were read.
fn name_of_read(alloc: Global, out: &str) -> Result<String, AllocError>
    ensures { IfOk result (λ name. string_bytes name ≡ read_name out.now) }
{
    format!(in alloc; "{out}.pcap")
}

/// Makes the file of the packets that were read.
fn write_read<R: Threads + Sync, H: Host>(
    rt: &R,
    alloc: Global,
    host: &mut H,
    report: &TapReport<'_>,
) -> Result<(), Stop>
    requires may { H.may_create (read_name report.now.out.now) }
    requires known { All (λ n. n < (packets_of_file report.now.capture.now).count) report.now.read.now }
    ensures handles { (H.state host.new).handles ≡ (H.state host.old).handles }
    ensures ok { OnOk result (H.state host.new
        ≡ filed (H.state host.old) (read_name report.now.out.now) (text_of report.now.capture.now report.now.read.now)) }
    ensures err { OnErr result (FileIsCut (read_name report.now.out.now) (text_of report.now.capture.now report.now.read.now)
        (H.state host.old) (H.state host.new)) }
    ensures cause { StopsFor (H.fault_count host.old) (H.fault_count host.new) result }
{
    let name = name_of_read(alloc, report.out)?;
    let packets = Packets {
        capture: report.capture,
        numbers: report.read,
    };
    write_packets_file(rt, alloc, host, name.as_str(), &packets)
}

/// Writes the counts of the fates to standard output.
fn write_total<H: Host>(alloc: Global, host: &mut H, fates: &[TapFate]) -> Result<(), Stop>
    ensures handles { (H.state host.new).handles ≡ (H.state host.old).handles }
    ensures ok { OnOk result (H.state host.new ≡ wrote (H.state host.old) 0 (tap_counts_line fates.now)) }
    ensures err { OnErr result ((H.state host.new ≡ H.state host.old)
        ⊎ OutputHasPrefix (tap_counts_line fates.now) (H.state host.old) (H.state host.new)) }
    ensures cause { StopsFor (H.fault_count host.old) (H.fault_count host.new) result }
{
    let text = tap_total_line(alloc, fates)?;
    write_output(host, &text)
}

/// Writes all that tells what became of a tap's packets.
pub fn write_tap<R: Threads + Sync, H: Host>(
    rt: &R,
    alloc: Global,
    host: &mut H,
    report: &TapReport<'_>,
) -> Result<(), Stop>
    requires read { H.may_create (read_name report.now.out.now) }
    requires fates { H.may_create (fates_name report.now.out.now) }
    requires known { All (λ n. n < (packets_of_file report.now.capture.now).count) report.now.read.now }
    ensures handles { (H.state host.new).handles ≡ (H.state host.old).handles }
    ensures ok { OnOk result (H.state host.new
        ≡ written (tap_texts report.now) (H.state host.old)) }
    ensures err { OnErr result (IsCut (tap_texts report.now)
        (H.state host.old) (H.state host.new)) }
    ensures cause { StopsFor (H.fault_count host.old) (H.fault_count host.new) result }
{
    write_read(rt, alloc, host, report)?;
    let lines = TapLines {
        fates: report.fates,
    };
    write_fates(rt, alloc, host, report.out, &lines)?;
    write_total(alloc, host, report.fates)
}
