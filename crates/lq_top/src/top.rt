//! The top call.
ghost use Rattle.std.specs.Prelude.{◌≡◌, ◌≢◌, Some, IfOk, OnOk, OnErr, IfSome, [], map, drop, vec_len, true};
ghost use Rattle.lq_host.specs.Host.{Rose};
ghost use Rattle.lq_model.specs.Plan.{unit_count};
ghost use Rattle.lq_files.specs.Command.{AreOperandsWithin, OfRun, command_of_words, command_words, run_words, bytes_of_words};
ghost use Rattle.lq_files.specs.Accepted.{IsRunnable, max_units};
ghost use Rattle.lq_top.specs.Decision.{Runs, most_units_changed_by, units_changed_by, verdict_of, verdict_of_command};
ghost use Rattle.lq_senders.specs.Fates.{identities_of};
ghost use Rattle.lq_table.specs.Ended.{ended_state};
ghost use Rattle.lq_top.specs.Headline.{HasRun};
ghost use Rattle.lq_files.specs.Reports.{run_of_inputs};
ghost use Rattle.lq_top.specs.Names.{MayDo};
ghost use Rattle.lq_files.specs.RunFiles.{MayWrite};
ghost use Rattle.lq_top.specs.Reads.{after_reads};
ghost use Rattle.lq_top.specs.Outcome.{CompletesOrStops, CompletesOrStopsOfSome, OutcomeOfSome, IsAnswerOf, IsCommandStatus, LeavesNone, Outcome, Stops, TellsUsageFor, refuses};
ghost use Rattle.lq_files.specs.Stop.{StopsFor};

use crate::generate::gen_command;
use crate::send::{send_capture, write_told};
use crate::tap::tap_command;
use crate::trace::trace_command;
use lq_device::TxDevice;
use lq_files::{
    Command, Refusal, RunInputs, RunOperands, Status, Stop, read_capture_for, read_plan_file,
    read_words, refuse,
};
use lq_host::Host;
use lq_model::NoMemory;
use lq_senders::{Gate, Resources};
use lq_table::Ended;
use std::alloc::Global;
use std::marker::Sync;
use std::sync::Wait;
use std::thread::Threads;

/// Sends the packets of a capture under a plan, and writes what became of them.
fn run_capture<R: Threads + Wait + Sync, H: Host, G: Gate, D: TxDevice>(
    on: &Resources<'_, R, G>,
    host: &mut H,
    bench: &mut Vec<D>,
    ended: &mut Vec<Ended<D>>,
    run: &RunInputs<'_>,
) -> Result<Status, Stop>
    requires may { MayWrite H.may_create run.now.out.now max_units }
    requires runnable { IsRunnable (vec_len bench.old) run.now.plan.now }
    requires none_yet { ended.old.items ≡ [] }
    ensures answer { IfOk result (λ answer. answer ≡ Status.Done) }
    ensures ok { OnOk result (HasRun (run_of_inputs run.now) (H.state host.old) (H.state host.new)
        (map D.state bench.old.items) (map D.state bench.new.items) (map ended_state ended.new.items)) }
    ensures err { OnErr result (Stops (Runs (run_of_inputs run.now))
        (H.state host.old) (H.state host.new) (map D.state bench.old.items) (map D.state bench.new.items)) }
    ensures others { drop (unit_count run.now.plan.now) bench.new.items ≡ drop (unit_count run.now.plan.now) bench.old.items }
    ensures len { vec_len bench.new ≡ vec_len bench.old }
    ensures boxes { identities_of (map D.state bench.new.items) ≡ identities_of (map D.state bench.old.items) }
    ensures none_ended { LeavesNone result ended.new.items }
    ensures handles { (H.state host.new).handles ≡ (H.state host.old).handles }
    ensures cause { StopsFor (H.fault_count host.old) (H.fault_count host.new) result }
{
    let infos = send_capture(on, bench, ended, run)?;
    match write_told(on, host, run, &infos, ended.as_slice()) {
        Ok(()) => Ok(Status::Done),
        Err(stop) => {
            ended.clear();
            Err(stop)
        }
    }
}

/// Does the command `run`.
fn run_command<R: Threads + Wait + Sync, H: Host, G: Gate, D: TxDevice>(
    on: &Resources<'_, R, G>,
    host: &mut H,
    bench: &mut Vec<D>,
    ended: &mut Vec<Ended<D>>,
    words: &RunOperands<'_>,
) -> Result<Status, Stop>
    requires may { MayDo H.may_open H.may_create (Some (OfRun (run_words words.now))) }
    requires none_yet { ended.old.items ≡ [] }
    ensures does { IfSome (H.state host.old).told (λ c.
        CompletesOrStops (verdict_of_command (Some (OfRun (run_words words.now))) (vec_len bench.old) c.files c.files) (after_reads (H.state host.old) (H.state host.new)) (H.state host.new)
        (map D.state bench.old.items) (map D.state bench.new.items) (map ended_state ended.new.items) result) }
    ensures some { CompletesOrStopsOfSome (Some (OfRun (run_words words.now))) (vec_len bench.old) (H.state host.old) (H.state host.new)
        (map D.state bench.old.items) (map D.state bench.new.items) (map ended_state ended.new.items) result }
    ensures answer { IfOk result IsCommandStatus }
    ensures others { IfSome (H.state host.old).told (λ c.
        let units = units_changed_by (verdict_of_command (Some (OfRun (run_words words.now))) (vec_len bench.old) c.files c.files) in
        drop units bench.new.items ≡ drop units bench.old.items) }
    ensures beyond { drop max_units bench.new.items ≡ drop max_units bench.old.items }
    ensures refused { IfOk result (λ answer.
        refuses answer ≡ true → bench.new.items ≡ bench.old.items) }
    ensures len { vec_len bench.new ≡ vec_len bench.old }
    ensures boxes { identities_of (map D.state bench.new.items) ≡ identities_of (map D.state bench.old.items) }
    ensures none_ended { LeavesNone result ended.new.items }
    ensures handles { (H.state host.new).handles ≡ (H.state host.old).handles }
    ensures cause { StopsFor (H.fault_count host.old) (H.fault_count host.new) result }
{
    let plan = match read_plan_file(on.alloc, host, words.plan, bench.len())? {
        Ok(plan) => plan,
        Err(refusal) => return refuse(on.alloc, host, refusal),
    };
    match read_capture_for(on.alloc, host, words.capture, &plan)? {
        Ok(capture) => {
            let run = RunInputs {
                out: words.out,
                plan: &plan,
                capture: &capture,
            };
            run_capture(on, host, bench, ended, &run)
        }
        Err(refusal) => refuse(on.alloc, host, refusal),
    }
}

/// Does a command.
fn do_command<R: Threads + Wait + Sync, H: Host, G: Gate, D: TxDevice>(
    on: &Resources<'_, R, G>,
    host: &mut H,
    bench: &mut Vec<D>,
    ended: &mut Vec<Ended<D>>,
    command: &Command<'_>,
) -> Result<Status, Stop>
    requires may { MayDo H.may_open H.may_create (Some (command_words command.now)) }
    requires within { AreOperandsWithin (Some (command_words command.now)) }
    requires none_yet { ended.old.items ≡ [] }
    ensures does { IfSome (H.state host.old).told (λ c.
        CompletesOrStops (verdict_of_command (Some (command_words command.now)) (vec_len bench.old) c.files c.files) (after_reads (H.state host.old) (H.state host.new)) (H.state host.new)
        (map D.state bench.old.items) (map D.state bench.new.items) (map ended_state ended.new.items) result) }
    ensures some { CompletesOrStopsOfSome (Some (command_words command.now)) (vec_len bench.old) (H.state host.old) (H.state host.new)
        (map D.state bench.old.items) (map D.state bench.new.items) (map ended_state ended.new.items) result }
    ensures answer { IfOk result IsCommandStatus }
    ensures others { IfSome (H.state host.old).told (λ c.
        let units = units_changed_by (verdict_of_command (Some (command_words command.now)) (vec_len bench.old) c.files c.files) in
        drop units bench.new.items ≡ drop units bench.old.items) }
    ensures beyond { let units = most_units_changed_by (Some (command_words command.now)) in
        drop units bench.new.items ≡ drop units bench.old.items }
    ensures refused { IfOk result (λ answer.
        refuses answer ≡ true → bench.new.items ≡ bench.old.items) }
    ensures len { vec_len bench.new ≡ vec_len bench.old }
    ensures boxes { identities_of (map D.state bench.new.items) ≡ identities_of (map D.state bench.old.items) }
    ensures none_ended { LeavesNone result ended.new.items }
    ensures handles { (H.state host.new).handles ≡ (H.state host.old).handles }
    ensures cause { StopsFor (H.fault_count host.old) (H.fault_count host.new) result }
{
    match command {
        Command::Run(words) => run_command(on, host, bench, ended, words),
        Command::Gen(words) => gen_command(on, host, bench, ended, words),
        Command::Trace(file) => trace_command(on.alloc, host, file),
        Command::Tap(words) => tap_command(on, host, words),
    }
}

/// All that the program does: the command that the words are, over the files and the output of a host and the devices
/// of a bench. The words are those after the program's own name.
///
/// These are the commands, in which no operand is empty or has a dash in front.
///
/// - `run PLAN CAPTURE OUT` reads the plan, which may need more devices than the bench has, and the capture; sends the
///   packets through the plan's stations, the device at place u of the bench being unit u; makes `OUT.<unit>.pcap` for
///   each unit in ascending order, `OUT.mq<J>.pcap` for each station J of the plan that is a multi-queue root, of the packets
///   that its children sent, `OUT.fates`, and `OUT.times` if one sender sends over a card; and writes the counts to standard
///   output, behind them a line for each root.
/// - `gen NUMBER COUNT OUT` makes OUT, the capture of COUNT packets that NUMBER generates, and then sends its packets
///   through one station over the first device of the bench: `irq_every = 64`, and a station with `len = 32` and
///   `burst = 48`. It writes the counts to standard output. NUMBER is below 2^32 and COUNT at most 1,000,000, both in
///   decimal digits without a leading zero.
/// - `trace FILE` works the schedule that FILE is on the machine of the run lock, and writes to standard output what it
///   leaves. It makes no file, and no device is asked.
/// - `tap SENDERS LEN BATCH CAPTURE OUT` reads the capture, and puts its packets into one ring of LEN slots: packet n by
///   sender n modulo SENDERS. A reader takes batches of up to BATCH packets out of the ring, reads the first half of each,
///   rounded up, and gives the rest back. It makes `OUT.pcap` of the packets that were read and `OUT.fates`, and writes the
///   counts to standard output. SENDERS is 1 to 8, LEN 1 to 4,096 and BATCH 1 to 64, written as the numbers of `gen`. No
///   device is asked.
///
/// A refusal is one line on standard output, and makes no file. After a fault or want of memory nothing more is written.
///
/// The senders of a plan run side by side, or one after another where no further thread can be had. `gate` is passed by
/// each sender before each of its packets, and once after its last. In `tap` the reader passes it too, as the sender behind
/// the last, before each batch; a sender doesn't pass it after its last packet. `ended` gets one for each station of a run that is
/// done, in ascending order.
pub fn lqtx<R: Threads + Wait + Sync, H: Host, G: Gate, D: TxDevice>(
    rt: &R,
    alloc: Global,
    words: &[&str],
    host: &mut H,
    bench: &mut Vec<D>,
    ended: &mut Vec<Ended<D>>,
    gate: &G,
) -> Status
    // Only the files that the words name are opened, and only the outputs are created.
    requires may { MayDo H.may_open H.may_create (command_of_words (bytes_of_words words.now)) }
    requires none_yet { ended.old.items ≡ [] }

    // What the words, the files and the bench decide is answered and left, the headline for a run that is done; after a
    // fault or want of memory, a part of what was to be written. Where the host doesn't tell what its files hold, that is
    // so of the bytes that its reads returned: each file that the command reads is read once, in order, and no other is.
    ensures outcome { IfSome (H.state host.old).told (λ c.
        Outcome (verdict_of (bytes_of_words words.now) c.files (vec_len bench.old)) (after_reads (H.state host.old) (H.state host.new)) (H.state host.new)
        (map D.state bench.old.items) (map D.state bench.new.items) (map ended_state ended.new.items) result) }

    ensures some { OutcomeOfSome (command_of_words (bytes_of_words words.now)) (vec_len bench.old) (H.state host.old) (H.state host.new)
        (map D.state bench.old.items) (map D.state bench.new.items) (map ended_state ended.new.items) result }

    // The causes: Usage, also where the host tells nothing; Fault exactly where a call of the host failed; and what comes
    // where neither a fault nor want of memory does.
    ensures usage { TellsUsageFor (command_of_words (bytes_of_words words.now)) result }
    ensures fault { result ≡ Status.Fault → Rose (H.fault_count host.old) (H.fault_count host.new) }
    ensures calm { result ≢ Status.Fault → H.fault_count host.new ≡ H.fault_count host.old }
    ensures complete { IfSome (H.state host.old).told (λ c.
        IsAnswerOf (verdict_of (bytes_of_words words.now) c.files (vec_len bench.old)) result) }

    // No handle is left open, and none is closed.
    ensures handles { (H.state host.new).handles ≡ (H.state host.old).handles }

    // The boxes of the bench: none gets lost, each is in its place, and those that aren't units of a plan that is run are as
    // before, as are all of them at each refusal; also where the host tells nothing, those beyond the units that the command
    // may have.
    ensures len { vec_len bench.new ≡ vec_len bench.old }
    ensures boxes { identities_of (map D.state bench.new.items) ≡ identities_of (map D.state bench.old.items) }
    ensures others { IfSome (H.state host.old).told (λ c.
        let units = units_changed_by (verdict_of (bytes_of_words words.now) c.files (vec_len bench.old)) in
        drop units bench.new.items ≡ drop units bench.old.items) }
    ensures beyond { let units = most_units_changed_by (command_of_words (bytes_of_words words.now)) in
        drop units bench.new.items ≡ drop units bench.old.items }
    ensures refused { refuses result ≡ true → bench.new.items ≡ bench.old.items }

    // What stays of the stations is laid out where a run is done.
    ensures none_ended { result ≢ Status.Done → ended.new.items ≡ [] }
{
    let on = Resources { rt, alloc, gate };
    match read_words(alloc, words) {
        Ok(Some(command)) => match do_command(&on, host, bench, ended, &command) {
            Ok(status) => status,
            Err(stop) => stop.status(),
        },
        Ok(None) => match refuse(alloc, host, Refusal::Usage) {
            Ok(answer) => answer,
            Err(stop) => stop.status(),
        },
        Err(NoMemory) => Status::NoMemory,
    }
}
