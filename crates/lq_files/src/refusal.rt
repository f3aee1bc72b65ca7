//! Why a call is refused before anything is sent, and the line that tells it.
ghost use Rattle.std.specs.Prelude.{◌≡◌, IfOk, OnOk, OnErr, string_bytes};
ghost use Rattle.lq_files.specs.Refusal.{capture_reason_text, plan_reason_text, refusal_line, status_of, trace_reason_text};
ghost use Rattle.lq_files.specs.Stop.{StopsFor};
ghost use Rattle.lq_files.specs.Written.{IsCut, output_only, written};

use crate::answer::{Status, Stop};
use crate::write::write_output;
use lq_host::Host;
use lq_model::{CaptureReason, PlanReason};
use lq_run_core::TraceReason;
use std::alloc::{AllocError, Global};

/// Why a call is refused: the first cause, in the order in which it judges its words, its plan, its bench and its
/// capture.
#[derive(Clone, Copy)]
pub enum Refusal {
    /// The words aren't a command.
    Usage,
    /// The plan's bytes are refused.
    Plan(PlanReason),
    /// The plan needs more units than the bench has.
    Bench { need: u32, have: u32 },
    /// The capture's bytes are refused: the first test that they fail, and where.
    Capture { reason: CaptureReason, place: u64 },
    /// The schedule's bytes are refused: the first line that fails, and why.
    Trace { reason: TraceReason, line: u32 },
}

impl Refusal {
    /// The status with which the call ends.
    pub fn status(self) -> Status
        ensures { result ≡ status_of self }
    {
        match self {
            Refusal::Usage => Status::Usage,
            Refusal::Plan(reason) => Status::Plan(reason),
            Refusal::Bench { need, have } => Status::Bench { need, have },
            Refusal::Capture { reason, place } => Status::Capture { reason, place },
            Refusal::Trace { reason, line } => Status::Trace { reason, line },
        }
    }

    /// The line that tells it on standard output.
    pub fn line(self, alloc: Global) -> Result<String, AllocError>
        ensures { IfOk result (λ line. string_bytes line ≡ refusal_line self) }
    {
        match self {
            Refusal::Usage => line_of_usage(alloc),
            Refusal::Plan(reason) => line_of_plan(alloc, reason),
            Refusal::Bench { need, have } => line_of_bench(alloc, need, have),
            Refusal::Capture { reason, place } => line_of_capture(alloc, reason, place),
            Refusal::Trace { reason, line } => line_of_trace(alloc, reason, line),
        }
    }
}

/// Tells a refusal on standard output.
pub fn refuse<H: Host>(alloc: Global, host: &mut H, refusal: Refusal) -> Result<Status, Stop>
    ensures answer { IfOk result (λ answer. answer ≡ status_of refusal) }
    ensures ok { OnOk result (H.state host.new ≡ written (output_only (refusal_line refusal)) (H.state host.old)) }
    ensures err { OnErr result (IsCut (output_only (refusal_line refusal)) (H.state host.old) (H.state host.new)) }
    ensures handles { (H.state host.new).handles ≡ (H.state host.old).handles }
    ensures cause { StopsFor (H.fault_count host.old) (H.fault_count host.new) result }
{
    let line = refusal.line(alloc)?;
    write_output(host, line.as_bytes())?;
    Ok(refusal.status())
}

fn line_of_usage(alloc: Global) -> Result<String, AllocError>
    ensures { IfOk result (λ line. string_bytes line ≡ refusal_line Refusal.Usage) }
{
    format!(in alloc;
        "usage: lqtx run PLAN CAPTURE OUT | lqtx gen NUMBER COUNT OUT | lqtx trace FILE | lqtx tap SENDERS LEN BATCH CAPTURE OUT\n"
    )
}

fn line_of_plan(alloc: Global, reason: PlanReason) -> Result<String, AllocError>
    ensures { IfOk result (λ line. string_bytes line ≡ refusal_line (Refusal.Plan reason)) }
{
    let text = text_of_plan_reason(reason);
    format!(in alloc; "plan refused: {text}\n")
}

fn line_of_bench(alloc: Global, need: u32, have: u32) -> Result<String, AllocError>
    ensures { IfOk result (λ line. string_bytes line ≡ refusal_line (Refusal.Bench need have)) }
{
    format!(in alloc; "bench refused: needs {need} units, has {have}\n")
}

fn line_of_capture(alloc: Global, reason: CaptureReason, place: u64) -> Result<String, AllocError>
    ensures { IfOk result (λ line. string_bytes line ≡ refusal_line (Refusal.Capture reason place)) }
{
    let text = text_of_capture_reason(reason);
    format!(in alloc; "capture refused: {text} at {place}\n")
}

fn line_of_trace(alloc: Global, reason: TraceReason, line: u32) -> Result<String, AllocError>
    ensures { IfOk result (λ text. string_bytes text ≡ refusal_line (Refusal.Trace reason line)) }
{
    let text = text_of_trace_reason(reason);
    format!(in alloc; "trace refused: {text} at line {line}\n")
}

fn text_of_plan_reason(reason: PlanReason) -> &'static str
    ensures { result.now ≡ plan_reason_text reason }
{
    match reason {
        PlanReason::NotToml => "1 NotToml",
        PlanReason::UnknownKey => "2 UnknownKey",
        PlanReason::Missing => "3 Missing",
        PlanReason::Kind => "4 Kind",
        PlanReason::Range => "5 Range",
        PlanReason::EventOrder => "6 EventOrder",
        PlanReason::TooLong => "8 TooLong",
        PlanReason::TwoLimits => "9 TwoLimits",
        PlanReason::OneLink => "10 OneLink",
    }
}

fn text_of_capture_reason(reason: CaptureReason) -> &'static str
    ensures { result.now ≡ capture_reason_text reason }
{
    match reason {
        CaptureReason::ShortHeader => "1 ShortHeader",
        CaptureReason::Magic => "2 Magic",
        CaptureReason::Version => "3 Version",
        CaptureReason::CutRecordHeader => "4 CutRecordHeader",
        CaptureReason::LongRecord => "5 LongRecord",
        CaptureReason::CutData => "6 CutData",
        CaptureReason::TooMany => "7 TooMany",
        CaptureReason::TooLong => "9 TooLong",
        CaptureReason::CutBlock => "10 CutBlock",
        CaptureReason::BlockLength => "11 BlockLength",
        CaptureReason::ByteOrder => "12 ByteOrder",
        CaptureReason::NoInterface => "13 NoInterface",
        CaptureReason::BlockBody => "14 BlockBody",
        CaptureReason::SecondSection => "15 SecondSection",
        CaptureReason::TimeBack => "16 TimeBack",
    }
}

fn text_of_trace_reason(reason: TraceReason) -> &'static str
    ensures { result.now ≡ trace_reason_text reason }
{
    match reason {
        TraceReason::Syntax => "1 Syntax",
        TraceReason::NoSeat => "2 NoSeat",
        TraceReason::SeatWaits => "3 SeatWaits",
        TraceReason::TooLong => "5 TooLong",
    }
}
