//! How a call ended, and why the calls inside give up on the way.
ghost use Rattle.std.specs.Prelude.{◌≡◌, Ok, IfOk};
ghost use Rattle.lq_files.specs.Status.{code_of};
ghost use Rattle.lq_files.specs.Stop.{with_end};

use lq_host::HostError;
use lq_model::{CaptureReason, NoMemory, PlanReason};
use lq_run_core::TraceReason;
use std::alloc::AllocError;

/// How a call ended.
#[derive(Clone, Copy, Debug, PartialEq, Eq)]
pub enum Status {
    /// Every input was read to its end, and everything was written and finished.
    Done,
    /// The words aren't a command.
    Usage,
    /// The plan's bytes are refused. The reason is the least of those that apply.
    Plan(PlanReason),
    /// The plan needs more units than the bench has.
    Bench { need: u32, have: u32 },
    /// The capture's bytes are refused: the first test that they fail, and where.
    Capture { reason: CaptureReason, place: u64 },
    /// The host failed on the way. Each file that was created has a prefix of its text.
    Fault,
    /// Memory was wanting on the way. The outputs are as after a fault.
    NoMemory,
    /// The schedule's bytes are refused: the first line that fails, and why.
    Trace { reason: TraceReason, line: u32 },
}

impl Status {
    /// The exit status of the program.
    pub fn code(&self) -> u8
        ensures { result ≡ code_of self.now }
    {
        match self {
            Status::Done => 0,
            Status::Usage => 2,
            Status::Plan(_) => 3,
            Status::Bench { need: _, have: _ } => 3,
            Status::Capture {
                reason: _,
                place: _,
            } => 4,
            Status::Fault => 5,
            Status::NoMemory => 6,
            Status::Trace { reason: _, line: _ } => 7,
        }
    }
}

/// Why a call gave up on the way.
#[derive(Clone, Copy)]
pub enum Stop {
    Fault,
    NoMemory,
}

impl Stop {
    ghost use Rattle.lq_files.specs.Stop.{status_of_stop};

    pub fn status(self) -> Status
        ensures { result ≡ status_of_stop self }
    {
        match self {
            Stop::Fault => Status::Fault,
            Stop::NoMemory => Status::NoMemory,
        }
    }
}

/// What work on a file came to, after which the file was finished. A fault goes before want of memory.
pub fn and_finished<T: Drop>(work: Result<T, Stop>, end: Result<(), HostError>) -> Result<T, Stop>
    ensures stop { result ≡ with_end work end }
    ensures value { IfOk result (λ value. work ≡ Ok value) }
{
    match end {
        Ok(()) => work,
        Err(HostError::Failed) => Err(Stop::Fault),
        Err(HostError::NoMemory) => match work {
            Ok(_) => Err(Stop::NoMemory),
            Err(stop) => Err(stop),
        },
    }
}

impl From<AllocError> for Stop {
    ghost use Rattle.lq_files.specs.declared.answer.Stop.TheVariants.{NoMemory};

    ghost from_gives = { λ _ e. e ≡ NoMemory };

    fn from(_: AllocError) -> Self {
        Stop::NoMemory
    }
}

impl From<NoMemory> for Stop {
    ghost use Rattle.lq_files.specs.declared.answer.Stop.TheVariants.{NoMemory};

    ghost from_gives = { λ _ e. e ≡ NoMemory };

    fn from(_: NoMemory) -> Self {
        Stop::NoMemory
    }
}

impl From<HostError> for Stop {
    ghost use Rattle.lq_files.specs.Stop.{IsStopOf};

    ghost from_gives = { IsStopOf };

    fn from(error: HostError) -> Self {
        match error {
            HostError::Failed => Stop::Fault,
            HostError::NoMemory => Stop::NoMemory,
        }
    }
}
