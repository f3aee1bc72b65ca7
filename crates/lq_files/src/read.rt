//! The files of a command, read to their end: the plan, the capture and the schedule. Each is asked for once, and what is answered is of the bytes
//! that its reads returned.
ghost use Rattle.std.specs.Prelude.{◌≡◌, ◌≢◌, ◌<◌, ℕ, List, length, vec_len, IfErr, IfOk, IfSome, OnErr, Some};
ghost use Rattle.std.specs.Option.{option_map};
ghost use Rattle.std.specs.Result.{result_map_both};
ghost use Rattle.lq_host.specs.Host.{IsReader, advanced, left};
ghost use Rattle.lq_files.specs.Accepted.{IsRunnable, capture_for, limited_capture_of, limited_trace_of, plan_for};
ghost use Rattle.lq_files.specs.Input.{IsInput, IsInputOf, IsInputWithin, MayHaveRead, file_read};
ghost use Rattle.lq_files.specs.Stop.{StopsFor};

use crate::answer::{Stop, and_finished};
use crate::decide::{capture_in, place_on, plan_in, trace_in};
use crate::in_order::in_order_for;
use crate::refusal::Refusal;
use lq_host::Host;
use lq_model::PlanReason;
use lq_pcapng::{CaptureFile, CaptureReason};
use lq_plan::Plan;
use lq_run_core::TraceReason;
use std::alloc::{AllocError, Global};

/// What a file gave: all of its bytes, or more than the limit.
#[derive(Drop)]
pub enum Input {
    Whole(Vec<u8>),
    TooLong,
}

/// Bytes that are asked for at once.
const PIECE: usize = 65_536;

/// Bytes of a plan.
const MAX_PLAN: usize = 65_536;

/// Bytes of a capture.
const MAX_CAPTURE: usize = 67_108_864;

/// Bytes of a schedule.
const MAX_SCHEDULE: usize = 65_536;

/// So many zeros.
fn zeros(alloc: Global, count: usize) -> Result<Vec<u8>, AllocError>
    ensures { IfOk result (λ bytes. vec_len bytes ≡ count) }
{
    vec![in alloc; 0u8; count]
}

/// A buffer to read into. Its length is left out of the contract, since a proof would count it out.
fn make_buffer(alloc: Global) -> Result<Vec<u8>, AllocError>
    ensures { IfOk result (λ buffer. 0 < vec_len buffer) }
{
    zeros(alloc, PIECE)
}

/// Reads what a handle has left, up to its end or past the limit.
fn read_rest<H: Host>(
    alloc: Global,
    host: &mut H,
    h: u32,
    limit: usize,
    buffer: &mut [u8],
) -> Result<Input, Stop>
    requires reader { IsReader ((H.state host.old).handles h) }
    requires room { 0 < length buffer.old }
    ensures input { IfOk result (λ input.
        IfSome (left (H.state host.old) h) (λ bytes. IsInput limit bytes input)) }
    ensures read { (bytes : List ℕ) × (H.state host.new ≡ advanced (H.state host.old) h bytes) × IfOk result (IsInput limit bytes) }
    ensures within { IfOk result (IsInputWithin limit) }
    ensures reader { IsReader ((H.state host.new).handles h) }
    ensures cause { StopsFor (H.fault_count host.old) (H.fault_count host.new) result }
{
    let mut taken = Vec::new(alloc);
    while taken.len() <= limit {
        let count = host.read(h, buffer)?;
        if count == 0 {
            return Ok(Input::Whole(taken));
        }
        taken.extend_from_slice(&buffer[..count])?;
    }
    Ok(Input::TooLong)
}

/// Opens a file, reads it to its end or past the limit, and finishes it. Whatever it answers, the host is as before but for what its reads
/// returned.
fn read_file<H: Host>(alloc: Global, host: &mut H, name: &str, limit: usize) -> Result<Input, Stop>
    requires { H.may_open name.now }
    ensures input { IfOk result (λ input. IfSome (H.state host.old).told (λ c.
        IsInputOf limit (c.files name.now) input)) }
    ensures some { IfOk result (λ input. (bytes : List ℕ) × IsInput limit bytes input
        × (H.state host.new ≡ file_read (H.state host.old) name.now bytes)) }
    ensures within { IfOk result (IsInputWithin limit) }
    ensures stopped { OnErr result (MayHaveRead name.now (H.state host.old) (H.state host.new)) }
    ensures cause { StopsFor (H.fault_count host.old) (H.fault_count host.new) result }
{
    let mut buffer = make_buffer(alloc)?;
    let h = host.open_read(name)?;
    let input = read_rest(alloc, host, h, limit, &mut buffer);
    let end = host.finish(h);
    let input = and_finished(input, end)?;
    Ok(input)
}

/// The plan that a file is, if a bench of so many devices can run it, or the refusal. That it is too long is found while
/// it is read.
pub fn read_plan_file<H: Host>(
    alloc: Global,
    host: &mut H,
    name: &str,
    have: usize,
) -> Result<Result<Plan, Refusal>, Stop>
    requires { H.may_open name.now }
    ensures plan { IfOk result (λ read. IfSome (H.state host.old).told (λ c.
        option_map (plan_for have) (c.files name.now) ≡ Some read)) }
    ensures some { IfOk result (λ read. (bytes : List ℕ) × (plan_for have bytes ≡ read)
        × (H.state host.new ≡ file_read (H.state host.old) name.now bytes)) }
    ensures runnable { IfOk result (λ read. IfOk read (IsRunnable have)) }
    ensures not_usage { IfOk result (λ read. IfErr read (λ refusal. refusal ≢ Refusal.Usage)) }
    ensures stopped { OnErr result (MayHaveRead name.now (H.state host.old) (H.state host.new)) }
    ensures cause { StopsFor (H.fault_count host.old) (H.fault_count host.new) result }
{
    let bytes = match read_file(alloc, host, name, MAX_PLAN)? {
        Input::Whole(bytes) => bytes,
        Input::TooLong => return Ok(Err(Refusal::Plan(PlanReason::TooLong))),
    };
    match plan_in(alloc, &bytes)? {
        Ok(plan) => Ok(place_on(have, plan)),
        Err(reason) => Ok(Err(Refusal::Plan(reason))),
    }
}

/// The capture that a file is, or why it isn't one; `timed` says whether times are read. That it is too long is found while it is read.
pub fn read_capture_file<H: Host>(
    alloc: Global,
    host: &mut H,
    name: &str,
    timed: bool,
) -> Result<Result<CaptureFile, Refusal>, Stop>
    requires { H.may_open name.now }
    ensures capture { IfOk result (λ read. IfSome (H.state host.old).told (λ c.
        option_map (limited_capture_of timed) (c.files name.now) ≡ Some read)) }
    ensures not_usage { IfOk result (λ read. IfErr read (λ refusal. refusal ≢ Refusal.Usage)) }
    ensures some { IfOk result (λ read. (bytes : List ℕ) × (limited_capture_of timed bytes ≡ read)
        × (H.state host.new ≡ file_read (H.state host.old) name.now bytes)) }
    ensures stopped { OnErr result (MayHaveRead name.now (H.state host.old) (H.state host.new)) }
    ensures cause { StopsFor (H.fault_count host.old) (H.fault_count host.new) result }
{
    match read_file(alloc, host, name, MAX_CAPTURE)? {
        Input::Whole(bytes) => capture_in(alloc, bytes, timed),
        Input::TooLong => Ok(Err(Refusal::Capture {
            reason: CaptureReason::TooLong,
            place: MAX_CAPTURE as u64,
        })),
    }
}

/// The capture that a file is for a plan, or why it isn't one: as [`read_capture_file`], with times if the plan reads them; and where it takes
/// no capture whose times go back, none such.
pub fn read_capture_for<H: Host>(
    alloc: Global,
    host: &mut H,
    name: &str,
    plan: &Plan,
) -> Result<Result<CaptureFile, Refusal>, Stop>
    requires { H.may_open name.now }
    ensures capture { IfOk result (λ read. IfSome (H.state host.old).told (λ c.
        option_map (capture_for plan.now) (c.files name.now) ≡ Some read)) }
    ensures not_usage { IfOk result (λ read. IfErr read (λ refusal. refusal ≢ Refusal.Usage)) }
    ensures some { IfOk result (λ read. (bytes : List ℕ) × (capture_for plan.now bytes ≡ read)
        × (H.state host.new ≡ file_read (H.state host.old) name.now bytes)) }
    ensures stopped { OnErr result (MayHaveRead name.now (H.state host.old) (H.state host.new)) }
    ensures cause { StopsFor (H.fault_count host.old) (H.fault_count host.new) result }
{
    match read_capture_file(alloc, host, name, plan.reads_times())? {
        Ok(capture) => Ok(in_order_for(plan, capture)),
        Err(refusal) => Ok(Err(refusal)),
    }
}

/// What the schedule that a file is leaves, or why it isn't one. That it is too long is found while it is read.
pub fn read_schedule_file<H: Host>(
    alloc: Global,
    host: &mut H,
    name: &str,
) -> Result<Result<Vec<u8>, Refusal>, Stop>
    requires { H.may_open name.now }
    ensures text { IfOk result (λ read. IfSome (H.state host.old).told (λ c.
        option_map limited_trace_of (c.files name.now) ≡ Some (result_map_both (λ text. text.items) (λ refusal. refusal) read))) }
    ensures some { IfOk result (λ read. (bytes : List ℕ)
        × (limited_trace_of bytes ≡ result_map_both (λ text. text.items) (λ refusal. refusal) read)
        × (H.state host.new ≡ file_read (H.state host.old) name.now bytes)) }
    ensures not_usage { IfOk result (λ read. IfErr read (λ refusal. refusal ≢ Refusal.Usage)) }
    ensures stopped { OnErr result (MayHaveRead name.now (H.state host.old) (H.state host.new)) }
    ensures cause { StopsFor (H.fault_count host.old) (H.fault_count host.new) result }
{
    match read_file(alloc, host, name, MAX_SCHEDULE)? {
        Input::Whole(bytes) => trace_in(alloc, &bytes),
        Input::TooLong => Ok(Err(Refusal::Trace {
            reason: TraceReason::TooLong,
            line: 0,
        })),
    }
}
