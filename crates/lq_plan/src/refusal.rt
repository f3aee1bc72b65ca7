//! Why a text is no plan.
ghost use Rattle.std.specs.Prelude.{◌≡◌};

use lq_model::PlanReason;
use std::alloc::{AllocError, AllocFailed};

/// Why a text was not read as a plan.
#[derive(Clone, Copy, Debug, PartialEq, Eq)]
pub enum PlanRefusal {
    /// It is no plan: `reason` is the least of those that apply.
    Refused { reason: PlanReason },
    /// There was no memory for the document or for the plan.
    NoMemory,
}

impl From<AllocError> for PlanRefusal {
    ghost use Rattle.lq_plan.specs.declared.refusal.PlanRefusal.TheVariants.{NoMemory};

    ghost from_gives = { λ _ refusal. refusal ≡ NoMemory };

    fn from(_: AllocError) -> Self {
        PlanRefusal::NoMemory
    }
}

impl<T: Drop> From<AllocFailed<T>> for PlanRefusal {
    ghost use Rattle.lq_plan.specs.declared.refusal.PlanRefusal.TheVariants.{NoMemory};

    ghost from_gives = { λ _ refusal. refusal ≡ NoMemory };

    fn from(_: AllocFailed<T>) -> Self {
        PlanRefusal::NoMemory
    }
}
