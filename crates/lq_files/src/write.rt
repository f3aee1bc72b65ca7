//! What a call writes: a text to a file or to standard output, and the files of units and fates.
ghost use Rattle.std.specs.Prelude.{◌≡◌, [], ◌≤◌, ℕ, length, map, take, OnOk, OnErr, ◌<◌, All, IfOk, string_bytes, vec_len};
ghost use Rattle.lq_host.specs.Host.{IsWriter, wrote, filed};
ghost use Rattle.lq_files.specs.Stop.{StopsFor};
ghost use Rattle.lq_files.specs.Written.{OutputHasPrefix, FileIsCut, FilesAreCut, files_written};
ghost use Rattle.lq_pcapng.specs.File.{packets_of_file, text_of};
ghost use Rattle.lq_files.specs.Reports.{unit_files_of};
ghost use Rattle.lq_files.specs.RunFiles.{capture_name, fates_name};
ghost use Rattle.lq_model.specs.Sent.{sent_of};
ghost use Rattle.lq_model.specs.Settled.{AreSerials};
ghost use Rattle.lq_fates.specs.Sent.{sent_by_units};

use crate::answer::{Stop, and_finished};
use crate::parts::{Buffers, make_buffers, write_source};
use crate::pieces::{write_text, write_whole_pieces};
use crate::report::RunReport;
use crate::source::{Packets, Source};
use lq_fates::Fates;
use lq_host::Host;
use std::alloc::{AllocError, Global};
use std::marker::Sync;
use std::thread::Threads;

/// Makes a file of a text. Where it stops, the file is as before, or has a prefix of the text.
pub fn write_file<H: Host>(host: &mut H, name: &str, text: &[u8]) -> Result<(), Stop>
    requires { H.may_create name.now }
    ensures handles { (H.state host.new).handles ≡ (H.state host.old).handles }
    ensures ok { OnOk result (H.state host.new ≡ filed (H.state host.old) name.now text.now) }
    ensures err { OnErr result (FileIsCut name.now text.now (H.state host.old) (H.state host.new)) }
    ensures cause { StopsFor (H.fault_count host.old) (H.fault_count host.new) result }
{
    let h = host.create(name)?;
    let written = write_text(host, h, text);
    let end = host.finish(h);
    and_finished(written, end)?;
    Ok(())
}

/// Writes a text to standard output.
pub fn write_output<H: Host>(host: &mut H, text: &[u8]) -> Result<(), Stop>
    ensures handles { (H.state host.new).handles ≡ (H.state host.old).handles }
    ensures ok { OnOk result (H.state host.new ≡ wrote (H.state host.old) 0 text.now) }
    ensures err { OnErr result (OutputHasPrefix text.now (H.state host.old) (H.state host.new)) }
    ensures cause { StopsFor (H.fault_count host.old) (H.fault_count host.new) result }
{
    write_text(host, 0, text)
}

/// The name of the capture that a unit's packets go to.
fn name_of_capture(alloc: Global, out: &str, unit: u32) -> Result<String, AllocError>
    ensures { IfOk result (λ name. string_bytes name ≡ capture_name out.now unit) }
{
    format!(in alloc; "{out}.{unit}.pcap")
}

/// The name of the file that tells each packet's fate.
fn name_of_fates(alloc: Global, out: &str) -> Result<String, AllocError>
    ensures { IfOk result (λ name. string_bytes name ≡ fates_name out.now) }
{
    format!(in alloc; "{out}.fates")
}

/// Writes the capture in the format of another with these of its packets, in the order of the list, to a handle. Where it
/// stops, a prefix was written.
fn write_packets<R: Threads + Sync, H: Host>(
    rt: &R,
    host: &mut H,
    h: u32,
    packets: &Packets<'_>,
    mut buffers: Buffers,
) -> Result<(), Stop>
    requires writer { IsWriter ((H.state host.old).handles h) }
    requires known { All (λ n. n < (packets_of_file packets.now.capture.now).count) packets.now.numbers.now }
    requires empty { buffers.rest.items ≡ [] }
    requires parts { 0 < vec_len buffers.parts }
    ensures handles { (H.state host.new).handles ≡ (H.state host.old).handles }
    ensures ok { OnOk result (H.state host.new ≡ wrote (H.state host.old) h (text_of packets.now.capture.now packets.now.numbers.now)) }
    ensures err { OnErr result ((n : ℕ) × (n ≤ length (text_of packets.now.capture.now packets.now.numbers.now))
        × (H.state host.new ≡ wrote (H.state host.old) h (take n (text_of packets.now.capture.now packets.now.numbers.now)))) }
    ensures cause { StopsFor (H.fault_count host.old) (H.fault_count host.new) result }
{
    packets.capture.push_start(&mut buffers.rest)?;
    write_whole_pieces(host, h, &mut buffers.rest)?;
    write_source(rt, host, h, packets, buffers)
}

/// Makes a file of the capture in the format of another with these of its packets. Where it stops, the file is as before, or
/// has a prefix of the text.
fn write_capture<R: Threads + Sync, H: Host>(
    rt: &R,
    host: &mut H,
    name: &str,
    packets: &Packets<'_>,
    buffers: Buffers,
) -> Result<(), Stop>
    requires may { H.may_create name.now }
    requires known { All (λ n. n < (packets_of_file packets.now.capture.now).count) packets.now.numbers.now }
    requires empty { buffers.rest.items ≡ [] }
    requires parts { 0 < vec_len buffers.parts }
    ensures handles { (H.state host.new).handles ≡ (H.state host.old).handles }
    ensures ok { OnOk result (H.state host.new
        ≡ filed (H.state host.old) name.now (text_of packets.now.capture.now packets.now.numbers.now)) }
    ensures err { OnErr result (FileIsCut name.now (text_of packets.now.capture.now packets.now.numbers.now)
        (H.state host.old) (H.state host.new)) }
    ensures cause { StopsFor (H.fault_count host.old) (H.fault_count host.new) result }
{
    let h = host.create(name)?;
    let records = write_packets(rt, host, h, packets, buffers);
    let end = host.finish(h);
    and_finished(records, end)?;
    Ok(())
}

/// Makes a file of the capture in the format of another with these of its packets, through buffers of its own.
pub fn write_packets_file<R: Threads + Sync, H: Host>(
    rt: &R,
    alloc: Global,
    host: &mut H,
    name: &str,
    packets: &Packets<'_>,
) -> Result<(), Stop>
    requires may { H.may_create name.now }
    requires known { All (λ n. n < (packets_of_file packets.now.capture.now).count) packets.now.numbers.now }
    ensures handles { (H.state host.new).handles ≡ (H.state host.old).handles }
    ensures ok { OnOk result (H.state host.new
        ≡ filed (H.state host.old) name.now (text_of packets.now.capture.now packets.now.numbers.now)) }
    ensures err { OnErr result (FileIsCut name.now (text_of packets.now.capture.now packets.now.numbers.now)
        (H.state host.old) (H.state host.new)) }
    ensures cause { StopsFor (H.fault_count host.old) (H.fault_count host.new) result }
{
    let buffers = make_buffers(alloc, packets.numbers.len())?;
    write_capture(rt, host, name, packets, buffers)
}

/// Makes the file of a unit: the capture of the packets that it sent.
fn write_unit<R: Threads + Sync, H: Host, F: Fates>(
    rt: &R,
    alloc: Global,
    host: &mut H,
    report: &RunReport<'_, F>,
    unit: u32,
    sent: &[u32],
) -> Result<(), Stop>
    requires may { H.may_create (capture_name report.now.run.out.now unit) }
    requires serials { AreSerials (F.fates report.now.fates.now) unit }
    requires known { length (F.fates report.now.fates.now) ≤ (packets_of_file report.now.run.capture.now).count }
    requires sent { sent.now ≡ sent_of (F.fates report.now.fates.now) unit }
    ensures handles { (H.state host.new).handles ≡ (H.state host.old).handles }
    ensures ok { OnOk result (H.state host.new ≡ filed (H.state host.old) (capture_name report.now.run.out.now unit)
        (text_of report.now.run.capture.now (sent_of (F.fates report.now.fates.now) unit))) }
    ensures err { OnErr result (FileIsCut (capture_name report.now.run.out.now unit)
        (text_of report.now.run.capture.now (sent_of (F.fates report.now.fates.now) unit)) (H.state host.old) (H.state host.new)) }
    ensures cause { StopsFor (H.fault_count host.old) (H.fault_count host.new) result }
{
    let name = name_of_capture(alloc, report.run.out, unit)?;
    let packets = Packets {
        capture: report.run.capture,
        numbers: sent,
    };
    write_packets_file(rt, alloc, host, name.as_str(), &packets)
}

/// Makes the files of the first so many units, in ascending order. List u of `sent` has the packets that unit u sent.
pub fn write_units<R: Threads + Sync, H: Host, F: Fates>(
    rt: &R,
    alloc: Global,
    host: &mut H,
    report: &RunReport<'_, F>,
    sent: &[Vec<u32>],
    units: u32,
) -> Result<(), Stop>
    requires may { (unit : ℕ) → unit < units → H.may_create (capture_name report.now.run.out.now unit) }
    requires serials { (unit : ℕ) → AreSerials (F.fates report.now.fates.now) unit }
    requires known { length (F.fates report.now.fates.now) ≤ (packets_of_file report.now.run.capture.now).count }
    requires sent { map (λ list. list.items) sent.now ≡ sent_by_units (F.fates report.now.fates.now) units }
    ensures handles { (H.state host.new).handles ≡ (H.state host.old).handles }
    ensures ok { OnOk result (H.state host.new
        ≡ files_written (H.state host.old) (unit_files_of report.now.run (F.fates report.now.fates.now) units)) }
    ensures err { OnErr result (FilesAreCut (unit_files_of report.now.run (F.fates report.now.fates.now) units)
        (H.state host.old) (H.state host.new)) }
    ensures cause { StopsFor (H.fault_count host.old) (H.fault_count host.new) result }
{
    for unit in 0..units {
        write_unit(rt, alloc, host, report, unit, &sent[unit as usize])?;
    }
    Ok(())
}

/// Writes the lines that tell each packet's fate to a handle. Where it stops, a prefix was written.
fn write_lines<R: Threads + Sync, H: Host, S: Source>(
    rt: &R,
    host: &mut H,
    h: u32,
    lines: &S,
    buffers: Buffers,
) -> Result<(), Stop>
    requires writer { IsWriter ((H.state host.old).handles h) }
    requires can_make { S.can_make lines.now }
    requires empty { buffers.rest.items ≡ [] }
    requires parts { 0 < vec_len buffers.parts }
    ensures handles { (H.state host.new).handles ≡ (H.state host.old).handles }
    ensures ok { OnOk result (H.state host.new ≡ wrote (H.state host.old) h (S.from lines.now 0)) }
    ensures err { OnErr result ((n : ℕ) × (n ≤ length (S.from lines.now 0))
        × (H.state host.new ≡ wrote (H.state host.old) h (take n (S.from lines.now 0)))) }
    ensures cause { StopsFor (H.fault_count host.old) (H.fault_count host.new) result }
{
    write_source(rt, host, h, lines, buffers)
}

/// Makes a file of the lines that tell each packet's fate. Where it stops, the file is as before, or has a prefix of them.
fn write_fates_file<R: Threads + Sync, H: Host, S: Source>(
    rt: &R,
    host: &mut H,
    name: &str,
    lines: &S,
    buffers: Buffers,
) -> Result<(), Stop>
    requires may { H.may_create name.now }
    requires can_make { S.can_make lines.now }
    requires empty { buffers.rest.items ≡ [] }
    requires parts { 0 < vec_len buffers.parts }
    ensures handles { (H.state host.new).handles ≡ (H.state host.old).handles }
    ensures ok { OnOk result (H.state host.new
        ≡ filed (H.state host.old) name.now (S.from lines.now 0)) }
    ensures err { OnErr result (FileIsCut name.now (S.from lines.now 0) (H.state host.old) (H.state host.new)) }
    ensures cause { StopsFor (H.fault_count host.old) (H.fault_count host.new) result }
{
    let h = host.create(name)?;
    let lines = write_lines(rt, host, h, lines, buffers);
    let end = host.finish(h);
    and_finished(lines, end)?;
    Ok(())
}

/// Makes the file that tells each packet's fate, by these lines.
pub fn write_fates<R: Threads + Sync, H: Host, S: Source>(
    rt: &R,
    alloc: Global,
    host: &mut H,
    out: &str,
    lines: &S,
) -> Result<(), Stop>
    requires may { H.may_create (fates_name out.now) }
    requires can_make { S.can_make lines.now }
    ensures handles { (H.state host.new).handles ≡ (H.state host.old).handles }
    ensures ok { OnOk result (H.state host.new
        ≡ filed (H.state host.old) (fates_name out.now) (S.from lines.now 0)) }
    ensures err { OnErr result (FileIsCut (fates_name out.now) (S.from lines.now 0) (H.state host.old) (H.state host.new)) }
    ensures cause { StopsFor (H.fault_count host.old) (H.fault_count host.new) result }
{
    let buffers = make_buffers(alloc, lines.len())?;
    let name = name_of_fates(alloc, out)?;
    write_fates_file(rt, host, name.as_str(), lines, buffers)
}
