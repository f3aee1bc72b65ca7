//! The headline, in as few words as it takes: the contract of one call, over the definitions of one page (`specs/Page.antt`).
#![tactic(auto)]

ghost use Rattle.std.specs.Prelude.{◌≡◌, ℕ, Bool, List, Option, map};
ghost use Rattle.atomic_table.specs.Table.{State};
ghost use Rattle.lq_band_laws.specs.Seats.{Each};
ghost use Rattle.lq_device.specs.Station.{StationState};
ghost use Rattle.lq_model.specs.Machine.{Machine, first_machine};
ghost use Rattle.lq_model.specs.Positions.{Holds};
ghost use Rattle.lq_model.specs.Quiet.{IsQuiet, Reaches};
ghost use Rattle.lq_model.specs.declared.machine.Packet.{Packet};
ghost use Rattle.lq_table.specs.Between.{HasNothingOwn, IsTableQuiet};
ghost use Rattle.lq_table.specs.Rule.{Rule, words_of};
ghost use Rattle.lq_table.specs.Views.{Setup, View};
ghost use Rattle.lq_headline.specs.Page.{HaveAccepted, Headline, IsCaptureFile, HasWritten, Replay};
ghost use Rattle.lq_headline.specs.Plans.{FollowsPlan};
ghost use Rattle.lq_headline.specs.Quiet.{AllHaveFates, AreOpenAtXmit, HoldsNoPacket};

pub mod examples;

use lq_device::TxDevice;
use lq_files::Status;
use lq_host::Host;
use lq_senders::Gate;
use lq_top::{lqtx, run_words};
use std::alloc::Global;
use std::marker::Sync;
use std::sync::Wait;
use std::thread::Threads;

/// The call `lqtx run PLAN CAPTURE OUT`. Where it answers Done, whatever order the senders' atomic steps took, there is a run of which all
/// of this holds:
///
/// - `Headline`: each packet of the capture has exactly one fate; each device sent just the packets whose fates say that it did, and those
///   of one sender and one band in that sender's order;
/// - `HasWritten`: the plan and the capture are the bytes that the reads of these two files returned, and no other file was read; each device's
///   written capture is the records of the packets that it sent, and the counts are the fates', in the bytes that were handed over to writes;
/// - `HaveAccepted`: each device accepted the packets that were sent by it, and no others;
/// - `IsCaptureFile`: the packets are those of the capture;
/// - `FollowsPlan`: their senders, stations and bands are as the plan and their own bytes say (`specs/Rules.antt`, `specs/Plans.antt`).
///
/// The host is any one that lets every file be opened and created.
pub fn replay<R: Threads + Wait + Sync, H: Host, G: Gate, D: TxDevice>(
    rt: &R,
    alloc: Global,
    plan: &str,
    capture: &str,
    out: &str,
    host: &mut H,
    bench: &mut Vec<D>,
    gate: &G,
) -> Status
    requires may_open { (name : List ℕ) → H.may_open name }
    requires may_create { (name : List ℕ) → H.may_create name }
    ensures headline { result ≡ Status.Done → (run : Replay) × Headline run
        × HasWritten plan.now capture.now out.now run (H.state host.old) (H.state host.new)
        × HaveAccepted run (map (λ device. (D.state device).accepted) bench.new.items)
        × IsCaptureFile run.capture_bytes run.head run.records
        × FollowsPlan run }
{
    let mut ended = Vec::new(alloc);
    lqtx(
        rt,
        alloc,
        &["run", plan, capture, out],
        host,
        bench,
        &mut ended,
        gate,
    )
}

/// The same of the exit status: what the program has done with these words where it is 0. (`main` is `run_words` over the real files, with the
/// words behind the program's own name; so this is said of `main`, too.)
pub fn replay_by_program<R: Threads + Wait + Sync, H: Host>(
    rt: &R,
    alloc: Global,
    plan: &str,
    capture: &str,
    out: &str,
    host: &mut H,
) -> u8
    requires may_open { (name : List ℕ) → H.may_open name }
    requires may_create { (name : List ℕ) → H.may_create name }
    ensures headline { result ≡ 0 → (run : Replay) × Headline run
        × HasWritten plan.now capture.now out.now run (H.state host.old) (H.state host.new)
        × IsCaptureFile run.capture_bytes run.head run.records
        × FollowsPlan run }
{
    run_words(rt, alloc, &["run", plan, capture, out], host)
}

/// An active qdisc with no call inside, no run, none scheduled and no stopped queue holds no packet: between any two atomic steps of any
/// threads, where no seat is in a call, and SCHED, DEACTIVATED and each stop word are clear.
pub fn quiet_table_holds_no_packet()
    ensures held { (k : Setup) (s : State (Option StationState) View) → Rule k s → IsTableQuiet k s → HoldsNoPacket (words_of k s.words) s.homes }
    ensures fates { (k : Setup) (s : State (Option StationState) View) → Rule k s → IsTableQuiet k s → Each HasNothingOwn s.views
        → AllHaveFates k.infos k.station (words_of k s.words) }
    ensures machine { (seats len : ℕ) (bypass : Bool) (queues : ℕ) (m : Machine) (p : Packet)
        → Reaches (first_machine seats len bypass queues) m → IsQuiet m → Holds m p → ⊥ }
{
    lq_table::quiet_words_hold_nothing();
    lq_run_core::laws::reached::reached_and_quiet_holds_nothing();
}

/// A device never gets a packet of a stopped queue, whoever sends: between any two atomic steps of any threads.
pub fn stopped_queue_sends_no_packet()
    ensures { (k : Setup) (s : State (Option StationState) View) → Rule k s → AreOpenAtXmit (words_of k s.words) s.views }
{
    lq_table::words_stand_for_machine();
}
