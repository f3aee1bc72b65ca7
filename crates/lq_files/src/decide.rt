//! What bytes are, and whether a bench can run a plan, or why they are refused.
ghost use Rattle.std.specs.Prelude.{◌≡◌, ◌≢◌, ◌≤◌, Err, length, vec_len, IfErr, IfOk};
ghost use Rattle.std.specs.Result.{result_map_both};
ghost use Rattle.lq_files.specs.Accepted.{IsRunnable, limited_capture_of, limited_plan_of, limited_trace_of, placed_on};

use crate::answer::Stop;
use crate::refusal::Refusal;
use lq_model::PlanReason;
use lq_pcapng::{CaptureFile, CaptureRefusal, read_either};
use lq_plan::{Plan, PlanRefusal, read_plan};
use lq_run_core::{TraceRefusal, trace};
use std::alloc::Global;

/// The plan that bytes are, or why they aren't one.
pub fn plan_in(alloc: Global, bytes: &[u8]) -> Result<Result<Plan, PlanReason>, Stop>
    requires { length bytes.now ≤ 65536 }
    ensures plan { IfOk result (λ read. read ≡ limited_plan_of bytes.now) }
    ensures no_fault { result ≢ Err Stop.Fault }
{
    match read_plan(alloc, bytes) {
        Ok(plan) => Ok(Ok(plan)),
        Err(PlanRefusal::Refused { reason }) => Ok(Err(reason)),
        Err(PlanRefusal::NoMemory) => Err(Stop::NoMemory),
    }
}

/// The plan, if a bench of so many devices can run it.
pub fn place_on(have: usize, plan: Plan) -> Result<Plan, Refusal>
    ensures placed { result ≡ placed_on have plan }
    ensures runnable { IfOk result (IsRunnable have) }
    ensures not_usage { IfErr result (λ refusal. refusal ≢ Refusal.Usage) }
{
    let need = plan.units();
    if have < need as usize {
        Err(Refusal::Bench {
            need,
            have: have as u32,
        })
    } else {
        Ok(plan)
    }
}

/// The capture that bytes are, in either format, or why they aren't one; `timed` says whether times are read.
pub fn capture_in(
    alloc: Global,
    bytes: Vec<u8>,
    timed: bool,
) -> Result<Result<CaptureFile, Refusal>, Stop>
    requires { vec_len bytes ≤ 67108864 }
    ensures capture { IfOk result (λ read. read ≡ limited_capture_of timed bytes.items) }
    ensures not_usage { IfOk result (λ read. IfErr read (λ refusal. refusal ≢ Refusal.Usage)) }
    ensures no_fault { result ≢ Err Stop.Fault }
{
    match read_either(alloc, bytes, timed) {
        Ok(capture) => Ok(Ok(capture)),
        Err(CaptureRefusal::Refused { reason, place }) => {
            Ok(Err(Refusal::Capture { reason, place }))
        }
        Err(CaptureRefusal::NoMemory) => Err(Stop::NoMemory),
    }
}

/// What the schedule that bytes are leaves, or why they aren't one.
pub fn trace_in(alloc: Global, bytes: &[u8]) -> Result<Result<Vec<u8>, Refusal>, Stop>
    requires { length bytes.now ≤ 65536 }
    ensures text { IfOk result (λ read. limited_trace_of bytes.now ≡ result_map_both (λ text. text.items) (λ refusal. refusal) read) }
    ensures not_usage { IfOk result (λ read. IfErr read (λ refusal. refusal ≢ Refusal.Usage)) }
    ensures no_fault { result ≢ Err Stop.Fault }
{
    match trace(alloc, bytes) {
        Ok(text) => Ok(Ok(text)),
        Err(TraceRefusal::Refused { reason, line }) => Ok(Err(Refusal::Trace { reason, line })),
        Err(TraceRefusal::NoMemory) => Err(Stop::NoMemory),
    }
}
