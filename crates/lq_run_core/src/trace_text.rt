//! The text that tells what a schedule leaves of the machine.
ghost use Rattle.std.specs.Prelude.{◌≡◌, ◌++◌, [], ◌∷◌, length, codes, if◌then◌else◌, IfOk};
ghost use Rattle.std.specs.Fmt.{decimal};
ghost use Rattle.std.specs.List.{flat_map};
ghost use Rattle.lq_model.specs.Machine.{seat_at};
ghost use Rattle.lq_model.specs.Numbers.{first_numbers};
ghost use Rattle.std.specs.String.{string_bytes};
ghost use Rattle.lq_run_core.specs.TraceText.{step_name, scan_name, seat_line, state_line, held_line, progress_text};

use crate::machine::Machine;
use crate::trace_run::Progress;
use lq_model::{Position, Seat};
use std::alloc::{AllocError, Global};

/// The step that a seat does next.
fn step_name(position: Position) -> &'static str
    ensures { result.now ≡ step_name position }
{
    match position {
        Position::Idle => "idle",
        Position::Enter(_) => "enter",
        Position::Check(_) => "check",
        Position::Put { .. } => "put",
        Position::Try1(_) => "try1",
        Position::Miss(_) => "miss",
        Position::Try2(_) => "try2",
        Position::Recheck(_) => "recheck",
        Position::Gate { .. } => "gate",
        Position::Xmit { .. } => "xmit",
        Position::StoreXoff { .. } => "stop",
        Position::Post => "post",
        Position::Deq => "deq",
        Position::Scan { .. } => "scan",
        Position::Test => "test",
        Position::ClearMissed => "clearm",
        Position::ClearDraining => "cleard",
        Position::BlockedClear(_) => "cclear",
        Position::BlockedLoad(_) => "cload",
        Position::BlockedMiss(_) => "cmiss",
        Position::BlockedDrain(_) => "cdrain",
        Position::Again => "again",
        Position::Quota => "quota",
        Position::Unlock => "unlock",
        Position::Tail { .. } => "tail",
        Position::Sched { .. } => "sched",
        Position::Leave => "leave",
        Position::Soft => "soft",
        Position::SoftClear { .. } => "sclear",
        Position::Late => "late",
        Position::Wake { .. } => "wake",
        Position::Control { .. } => "control",
    }
}

fn pass_name(second: bool) -> &'static str
    ensures { result.now ≡ (if second then codes "second" else codes "first") }
{
    if second { "second" } else { "first" }
}

/// Which band a scan looks at, and for which time; nothing at the other positions.
fn scan_name(alloc: Global, position: Position) -> Result<String, AllocError>
    ensures { IfOk result (λ s. string_bytes s ≡ scan_name position) }
{
    match position {
        Position::Scan { band, second } => format!(in alloc; " {band} {}", pass_name(second)),
        _ => Ok(String::new(alloc)),
    }
}

fn raised_mark(raised: bool) -> &'static str
    ensures { result.now ≡ (if raised then codes " raised" else []) }
{
    if raised { " raised" } else { "" }
}

fn seat_line(alloc: Global, index: u32, seat: Seat) -> Result<String, AllocError>
    ensures { IfOk result (λ s. string_bytes s ≡ seat_line index seat) }
{
    let scan = scan_name(alloc, seat.position)?;
    format!(in alloc;
        "seat {index} {}{}{}\n",
        step_name(seat.position),
        scan.as_str(),
        raised_mark(seat.raised)
    )
}

fn steps_line(alloc: Global, steps: u64) -> Result<String, AllocError>
    ensures { IfOk result (λ s. string_bytes s ≡ codes "steps " ++ (decimal steps ++ 10 ∷ [])) }
{
    format!(in alloc; "steps {steps}\n")
}

fn state_line(alloc: Global, machine: &Machine) -> Result<String, AllocError>
    ensures { IfOk result (λ s. string_bytes s ≡ state_line machine.now.machine.qdisc) }
{
    format!(in alloc;
        "state {} lock {} xoff {} inside {}\n",
        machine.state(),
        machine.lock(),
        machine.xoff(),
        machine.inside()
    )
}

fn held_line(alloc: Global, machine: &Machine) -> Result<String, AllocError>
    ensures { IfOk result (λ s. string_bytes s ≡ held_line machine.now.machine.qdisc) }
{
    format!(in alloc;
        "held {} sent {} full {}\n",
        machine.held(),
        machine.sent(),
        machine.full()
    )
}

fn seat_lines(alloc: Global, machine: &Machine) -> Result<String, AllocError>
    ensures { IfOk result (λ s. string_bytes s
        ≡ flat_map (λ i. seat_line i (seat_at machine.now.machine i)) (first_numbers (length machine.now.machine.seats))) }
{
    let mut out = String::new(alloc);
    for index in 0..machine.seats() {
        let line = seat_line(alloc, index, machine.seat(index))?;
        out.push_str(line.as_str())?;
    }
    Ok(out)
}

/// The text of what a schedule leaves.
#[tactic(auto, unfolding(crate::specs::TraceText::progress_text))]
pub(crate) fn progress_text(alloc: Global, progress: &Progress) -> Result<String, AllocError>
    ensures { IfOk result (λ s. string_bytes s ≡ progress_text progress.now) }
{
    let mut out = steps_line(alloc, progress.steps)?;
    let state = state_line(alloc, &progress.running)?;
    let held = held_line(alloc, &progress.running)?;
    let seats = seat_lines(alloc, &progress.running)?;
    out.push_str(state.as_str())?;
    out.push_str(held.as_str())?;
    out.push_str(seats.as_str())?;
    Ok(out)
}
