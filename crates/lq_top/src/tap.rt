//! The command `tap`: a capture through one ring, whose reader gives back what it doesn't read.
ghost use Rattle.std.specs.Prelude.{◌≡◌, [], ℕ, List, IfOk, IfSome, OnErr, OnOk, Some};
ghost use Rattle.lq_model.specs.Device.{DeviceState};
ghost use Rattle.lq_fates.specs.Tap.{IsTapWithin};
ghost use Rattle.lq_files.specs.Command.{OfTap, tap_words};
ghost use Rattle.lq_top.specs.Decision.{verdict_of_command};
ghost use Rattle.lq_top.specs.Names.{MayDo};
ghost use Rattle.lq_top.specs.Reads.{after_reads};
ghost use Rattle.lq_top.specs.Outcome.{CompletesOrStops, CompletesOrStopsOfSome, IsCommandStatus};
ghost use Rattle.lq_files.specs.Stop.{StopsFor};
ghost use Rattle.lq_top.specs.Tapped.{HasCutTap, HasTapped};

use lq_files::{Status, Stop, TapOperands, TapReport, read_capture_file, refuse, write_tap};
use lq_host::Host;
use lq_pcap::Frames as _;
use lq_pcapng::CaptureFile;
use lq_senders::{Gate, Resources};
use lq_tap_run::tap_all;
use std::marker::Sync;
use std::sync::Wait;
use std::thread::Threads;

/// Runs a capture through a tap, and writes what became of its packets.
fn tap_capture<R: Threads + Wait + Sync, H: Host, G: Gate>(
    on: &Resources<'_, R, G>,
    host: &mut H,
    words: &TapOperands<'_>,
    capture: &CaptureFile,
) -> Result<Status, Stop>
    requires may { MayDo H.may_open H.may_create (Some (OfTap (tap_words words.now))) }
    requires within { IsTapWithin words.now.senders words.now.len words.now.batch }
    ensures answer { IfOk result (λ answer. answer ≡ Status.Done) }
    ensures ok { OnOk result (HasTapped (tap_words words.now) capture.now (H.state host.old) (H.state host.new)) }
    ensures err { OnErr result (HasCutTap (tap_words words.now) capture.now (H.state host.old) (H.state host.new)) }
    ensures handles { (H.state host.new).handles ≡ (H.state host.old).handles }
    ensures cause { StopsFor (H.fault_count host.old) (H.fault_count host.new) result }
{
    let packets = capture.len() as u32;
    let tapped = tap_all(on, packets, words.senders, words.len, words.batch)?;
    let report = TapReport {
        out: words.out,
        capture,
        fates: &tapped.fates,
        read: &tapped.read,
    };
    write_tap(on.rt, on.alloc, host, &report)?;
    Ok(Status::Done)
}

/// Does the command `tap`.
pub fn tap_command<R: Threads + Wait + Sync, H: Host, G: Gate>(
    on: &Resources<'_, R, G>,
    host: &mut H,
    words: &TapOperands<'_>,
) -> Result<Status, Stop>
    requires may { MayDo H.may_open H.may_create (Some (OfTap (tap_words words.now))) }
    requires within { IsTapWithin words.now.senders words.now.len words.now.batch }
    ensures does { (have : ℕ) (before after : List DeviceState) → IfSome (H.state host.old).told (λ c.
        CompletesOrStops (verdict_of_command (Some (OfTap (tap_words words.now))) have c.files c.files) (after_reads (H.state host.old) (H.state host.new)) (H.state host.new) before after [] result) }
    ensures some { (have : ℕ) (before after : List DeviceState)
        → CompletesOrStopsOfSome (Some (OfTap (tap_words words.now))) have (H.state host.old) (H.state host.new) before after [] result }
    ensures answer { IfOk result IsCommandStatus }
    ensures handles { (H.state host.new).handles ≡ (H.state host.old).handles }
    ensures cause { StopsFor (H.fault_count host.old) (H.fault_count host.new) result }
{
    match read_capture_file(on.alloc, host, words.capture, false)? {
        Ok(capture) => tap_capture(on, host, words, &capture),
        Err(refusal) => refuse(on.alloc, host, refusal),
    }
}
