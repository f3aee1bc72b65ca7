//! A schedule worked on a machine.
ghost use Rattle.std.specs.Prelude.{◌≡◌, ◌+◌, ◌<◌, ◌≤◌, ◌^◌, ◌∷◌, length, IfOk, None};
ghost use Rattle.lq_run_core.specs.Schedule.{IsActionInRange, lines, is_passed_over, words};
ghost use Rattle.lq_run_core.specs.Trace.{steps_of, action_done, command_done, told_line_done, line_done, schedule_done, IsDoneWherePossible, Tells, sends_so_far, steps_so_far};
ghost use Rattle.lq_run_core.specs.TraceText.{schedule_text};

use crate::machine::Machine;
use crate::schedule::{Action, Command, cut, read_command, read_setup};
use crate::trace_text::progress_text;
use lq_model::Answer;
use std::alloc::Global;

/// Why a schedule is refused.
#[derive(Clone, Copy, Debug, PartialEq, Eq)]
pub enum TraceReason {
    /// The line is of no form.
    Syntax = 1,
    /// The machine has no seat of that number.
    NoSeat,
    /// The seat can't begin that call, or can't do one of those steps.
    SeatWaits,
    /// The text has more than 65,536 bytes.
    TooLong = 5,
}

/// What is answered in place of a text.
#[derive(Clone, Copy, Debug, PartialEq, Eq)]
pub enum TraceRefusal {
    /// The line with this number, from 1, is the first that fails.
    Refused { reason: TraceReason, line: u32 },
    NoMemory,
}

/// How far a schedule was worked.
#[derive(Drop)]
pub struct Progress {
    pub running: Machine,
    /// How many steps were done.
    pub steps: u64,
}

fn refusal(reason: TraceReason, line: u32) -> TraceRefusal
    ensures { result ≡ TraceRefusal.Refused reason line }
{
    TraceRefusal::Refused { reason, line }
}

/// The first line of a text, without its line feed, and what is behind it.
fn first_line(text: &[u8]) -> (&[u8], &[u8])
    requires { 0 < length text.now }
    ensures lines { lines text.now ≡ result.0.now ∷ lines result.1.now }
    ensures shorter { length result.1.now < length text.now }
{
    let (line, behind) = cut(text, b'\n');
    match behind {
        Some(behind) => (line, behind),
        None => (line, &[]),
    }
}

/// Whether a line is empty or begins with `#`.
fn is_passed_over(line: &[u8]) -> bool
    ensures { result ≡ is_passed_over line.now }
{
    line.is_empty() || line[0] == b'#'
}

/// So many steps of a seat, each with this answer; false where one of them can't be done.
fn do_steps(machine: &mut Machine, seat: u32, answer: Answer, count: u32) -> bool
    requires { seat < length machine.old.machine.seats }
    ensures done { IsDoneWherePossible result (steps_of count seat answer machine.old.machine) machine.new.machine }
    ensures next { machine.new.next ≡ machine.old.next }
{
    for _ in 0..count {
        if !machine.step(seat, answer) {
            return false;
        }
    }
    true
}

/// What a seat is told to do; false where it can't.
fn do_action(progress: &mut Progress, seat: u32, action: Action) -> bool
    requires seat { seat < length progress.old.running.machine.seats }
    requires in_range { IsActionInRange action progress.old.running.machine }
    requires sends { progress.old.running.next < 1000000 }
    requires steps { progress.old.steps < 2 ^ 63 }
    ensures done { IsDoneWherePossible result (action_done progress.old seat action) progress.new }
    ensures sends { progress.new.running.next ≤ progress.old.running.next + 1 }
    ensures steps { progress.new.steps ≤ progress.old.steps + 2 ^ 32 }
{
    match action {
        Action::Begins(start) => progress.running.begin(seat, start),
        Action::Steps { answer, count } => {
            progress.steps += count as u64;
            do_steps(&mut progress.running, seat, answer, count)
        }
    }
}

/// What the line with this number tells a seat to do.
fn do_command(
    mut progress: Progress,
    command: Command,
    number: u32,
) -> Result<Progress, TraceRefusal>
    requires in_range { IsActionInRange command.action progress.running.machine }
    requires sends { progress.running.next < 1000000 }
    requires steps { progress.steps < 2 ^ 63 }
    ensures done { Tells (λ p. p) result (command_done progress number command) }
    ensures sends { IfOk result (λ p. p.running.next ≤ progress.running.next + 1) }
    ensures steps { IfOk result (λ p. p.steps ≤ progress.steps + 2 ^ 32) }
    ensures few { length progress.running.machine.seats < 2 ^ 32 }
{
    if command.seat >= progress.running.seats() {
        return Err(refusal(TraceReason::NoSeat, number));
    }
    if !do_action(&mut progress, command.seat, command.action) {
        return Err(refusal(TraceReason::SeatWaits, number));
    }
    Ok(progress)
}

/// The machine that the first line says, before any step.
fn set_up(alloc: Global, line: &[u8], number: u32) -> Result<Progress, TraceRefusal>
    ensures done { Tells (λ p. p) result (told_line_done None number (words line.now)) }
    ensures first { IfOk result (λ p. (p.running.next ≡ 0) × (p.steps ≡ 0)) }
{
    let Some(setup) = read_setup(line) else {
        return Err(refusal(TraceReason::Syntax, number));
    };
    match Machine::new(alloc, setup.seats, setup.len, setup.bypass) {
        Ok(running) => Ok(Progress { running, steps: 0 }),
        Err(_) => Err(TraceRefusal::NoMemory),
    }
}

/// The line with this number: the first sets the machine up, each other tells a seat to do something.
fn do_told_line(
    alloc: Global,
    before: Option<Progress>,
    line: &[u8],
    number: u32,
) -> Result<Progress, TraceRefusal>
    requires sends { sends_so_far before < 1000000 }
    requires steps { steps_so_far before < 2 ^ 63 }
    ensures done { Tells (λ p. p) result (told_line_done before number (words line.now)) }
    ensures sends { IfOk result (λ p. p.running.next ≤ sends_so_far before + 1) }
    ensures steps { IfOk result (λ p. p.steps ≤ steps_so_far before + 2 ^ 32) }
{
    let Some(progress) = before else {
        return set_up(alloc, line, number);
    };
    match read_command(line) {
        Some(command) => do_command(progress, command, number),
        None => Err(refusal(TraceReason::Syntax, number)),
    }
}

/// The line with this number, which may be passed over.
fn do_line(
    alloc: Global,
    before: Option<Progress>,
    line: &[u8],
    number: u32,
) -> Result<Option<Progress>, TraceRefusal>
    requires sends { sends_so_far before < 1000000 }
    requires steps { steps_so_far before < 2 ^ 63 }
    ensures done { Tells (λ p. p) result (line_done before number line.now) }
    ensures sends { IfOk result (λ p. sends_so_far p ≤ sends_so_far before + 1) }
    ensures steps { IfOk result (λ p. steps_so_far p ≤ steps_so_far before + 2 ^ 32) }
{
    if is_passed_over(line) {
        return Ok(before);
    }
    match do_told_line(alloc, before, line, number) {
        Ok(progress) => Ok(Some(progress)),
        Err(refusal) => Err(refusal),
    }
}

/// What a schedule leaves, or the first line that fails.
#[tactic(auto, unfolding(crate::specs::Trace::schedule_done))]
fn do_schedule(alloc: Global, text: &[u8]) -> Result<Progress, TraceRefusal>
    requires { length text.now ≤ 65536 }
    ensures { Tells (λ p. p) result (schedule_done text.now) }
{
    let mut progress: Option<Progress> = None;
    let mut number = 0u32;
    let mut rest = text;
    while !rest.is_empty() {
        let (line, behind) = first_line(rest);
        rest = behind;
        number += 1;
        progress = do_line(alloc, progress, line, number)?;
    }
    match progress {
        Some(progress) => Ok(progress),
        None => Err(refusal(TraceReason::Syntax, number + 1)),
    }
}

/// The text of the machine that a schedule leaves. A refusal names the first line that fails.
#[tactic(auto, unfolding(crate::specs::TraceText::schedule_text))]
pub fn trace(alloc: Global, text: &[u8]) -> Result<Vec<u8>, TraceRefusal>
    requires { length text.now ≤ 65536 }
    ensures { Tells (λ out. out.items) result (schedule_text text.now) }
{
    let progress = do_schedule(alloc, text)?;
    match progress_text(alloc, &progress) {
        Ok(out) => Ok(out.into_bytes()),
        Err(_) => Err(TraceRefusal::NoMemory),
    }
}
