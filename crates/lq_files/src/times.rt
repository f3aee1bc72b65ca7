//! The file that tells when each packet was accepted and when its frame ended, of a run of one sender over a card.
ghost use Rattle.std.specs.Prelude.{◌≡◌, [], All, IfOk, OnErr, OnOk, length, string_bytes};
ghost use Rattle.lq_host.specs.Host.{IsWriter, filed, wrote};
ghost use Rattle.lq_card_laws.specs.Laws.{FitsCard};
ghost use Rattle.lq_model.specs.Plan.{card_of};
ghost use Rattle.lq_model.specs.Texts.{times_text};
ghost use Rattle.lq_model.specs.Wire.{flights_of_card};
ghost use Rattle.lq_model.specs.declared.plan.StationPlan.{StationPlan as Station};
ghost use Rattle.lq_pcapng.specs.File.{packets_of_file};
ghost use Rattle.lq_plan.specs.Packets.{IsInfoWithin};
ghost use Rattle.lq_wire.specs.Page.{page_text};
ghost use Rattle.lq_wire.specs.Times.{IsBeforePacket};
ghost use Rattle.lq_files.specs.Parts.{IsFront};
ghost use Rattle.lq_files.specs.RunFiles.{card_told, times_files, times_name};
ghost use Rattle.lq_files.specs.Stop.{StopsFor};
ghost use Rattle.lq_files.specs.Written.{FileIsCut, FilesAreCut, files_written};

use crate::answer::{Stop, and_finished};
use crate::pieces::{PIECE, write_text, write_whole_page};
use crate::report::RunInputs;
use lq_host::Host;
use lq_model::{Card, Info};
use lq_pcap::Frames;
use lq_plan::Plan;
use lq_wire::{Page, Times};
use std::alloc::{AllocError, Global};

/// The name of the file that tells the times.
fn name_of_times(alloc: Global, out: &str) -> Result<String, AllocError>
    ensures { IfOk result (λ name. string_bytes name ≡ times_name out.now) }
{
    format!(in alloc; "{out}.times")
}

/// The card whose times are told: that of a plan with one sender.
fn card_told(plan: &Plan) -> Option<Card>
    ensures { result ≡ card_told plan.now }
{
    plan.stays_within_limits();
    if plan.senders() == 1 {
        plan.station(0).card
    } else {
        None
    }
}

/// Writes the lines of the packets that a card accepts to a handle, turn by turn. Where it stops, a prefix was written.
fn write_turns<H: Host>(
    host: &mut H,
    h: u32,
    run: &RunInputs<'_>,
    card: Card,
    infos: &[Info],
    mut times: Times,
    mut rest: Page,
) -> Result<(), Stop>
    requires writer { IsWriter ((H.state host.old).handles h) }
    requires at { (station : Station) × FitsCard run.now.plan.now infos.now station × IsBeforePacket times card run.now.plan.now (packets_of_file run.now.capture.now) infos.now station 0 }
    requires count { length infos.now ≡ (packets_of_file run.now.capture.now).count }
    requires empty { page_text rest ≡ [] }
    ensures handles { (H.state host.new).handles ≡ (H.state host.old).handles }
    ensures ok { OnOk result (H.state host.new
        ≡ wrote (H.state host.old) h (times_text card (flights_of_card card run.now.plan.now (packets_of_file run.now.capture.now) infos.now))) }
    ensures err { OnErr result (IsFront (H.state host.old) h (H.state host.new)
        (times_text card (flights_of_card card run.now.plan.now (packets_of_file run.now.capture.now) infos.now))) }
    ensures cause { StopsFor (H.fault_count host.old) (H.fault_count host.new) result }
{
    for n in 0..run.capture.len() {
        times.push_turn(&mut rest, run.plan, card, infos, run.capture, n)?;
        write_whole_page(host, h, &mut rest)?;
    }
    write_text(host, h, rest.text())
}

/// Makes a file of those lines. Where it stops, the file is as before, or has a prefix of them.
fn write_times_file<H: Host>(
    host: &mut H,
    name: &str,
    run: &RunInputs<'_>,
    card: Card,
    infos: &[Info],
    times: Times,
    rest: Page,
) -> Result<(), Stop>
    requires may { H.may_create name.now }
    requires at { (station : Station) × FitsCard run.now.plan.now infos.now station × IsBeforePacket times card run.now.plan.now (packets_of_file run.now.capture.now) infos.now station 0 }
    requires count { length infos.now ≡ (packets_of_file run.now.capture.now).count }
    requires empty { page_text rest ≡ [] }
    ensures handles { (H.state host.new).handles ≡ (H.state host.old).handles }
    ensures ok { OnOk result (H.state host.new
        ≡ filed (H.state host.old) name.now (times_text card (flights_of_card card run.now.plan.now (packets_of_file run.now.capture.now) infos.now))) }
    ensures err { OnErr result (FileIsCut name.now (times_text card (flights_of_card card run.now.plan.now (packets_of_file run.now.capture.now) infos.now))
        (H.state host.old) (H.state host.new)) }
    ensures cause { StopsFor (H.fault_count host.old) (H.fault_count host.new) result }
{
    let h = host.create(name)?;
    let lines = write_turns(host, h, run, card, infos, times, rest);
    let end = host.finish(h);
    and_finished(lines, end)?;
    Ok(())
}

/// Makes the file of a card's times.
fn write_times_of<H: Host>(
    alloc: Global,
    host: &mut H,
    run: &RunInputs<'_>,
    card: Card,
    infos: &[Info],
) -> Result<(), Stop>
    requires may { H.may_create (times_name run.now.out.now) }
    requires fits { (station : Station) × FitsCard run.now.plan.now infos.now station }
    requires count { length infos.now ≡ (packets_of_file run.now.capture.now).count }
    ensures handles { (H.state host.new).handles ≡ (H.state host.old).handles }
    ensures ok { OnOk result (H.state host.new
        ≡ filed (H.state host.old) (times_name run.now.out.now) (times_text card (flights_of_card card run.now.plan.now (packets_of_file run.now.capture.now) infos.now))) }
    ensures err { OnErr result (FileIsCut (times_name run.now.out.now) (times_text card (flights_of_card card run.now.plan.now (packets_of_file run.now.capture.now) infos.now))
        (H.state host.old) (H.state host.new)) }
    ensures cause { StopsFor (H.fault_count host.old) (H.fault_count host.new) result }
{
    let rest = Page::new(alloc, 2 * PIECE)?;
    let name = name_of_times(alloc, run.out)?;
    let times = Times::new(alloc, run.plan, card, infos, run.capture);
    write_times_file(host, name.as_str(), run, card, infos, times, rest)
}

/// Makes the file of the times of a run of one sender over a card, and of another run none. No list of all packets is made.
pub fn write_times<H: Host>(
    alloc: Global,
    host: &mut H,
    run: &RunInputs<'_>,
    infos: &[Info],
) -> Result<(), Stop>
    requires may { H.may_create (times_name run.now.out.now) }
    requires within { All (IsInfoWithin run.now.plan.now) infos.now }
    requires count { length infos.now ≡ (packets_of_file run.now.capture.now).count }
    ensures handles { (H.state host.new).handles ≡ (H.state host.old).handles }
    ensures ok { OnOk result (H.state host.new
        ≡ files_written (H.state host.old) (times_files run.now.out.now run.now.plan.now (packets_of_file run.now.capture.now) infos.now)) }
    ensures err { OnErr result (FilesAreCut (times_files run.now.out.now run.now.plan.now (packets_of_file run.now.capture.now) infos.now)
        (H.state host.old) (H.state host.new)) }
    ensures cause { StopsFor (H.fault_count host.old) (H.fault_count host.new) result }
{
    run.plan.stays_within_limits();
    match card_told(run.plan) {
        Some(card) => write_times_of(alloc, host, run, card, infos),
        None => Ok(()),
    }
}
