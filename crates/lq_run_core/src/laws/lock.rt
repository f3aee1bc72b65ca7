//! The run lock, the calls inside, SCHED and MISSED.
ghost use Rattle.lq_model.specs.Machine.{Machine};
ghost use Rattle.lq_model.specs.Kept.{IsInductive, OneHolder, CallsInside, OneScheduled, LockFreeMissed};
ghost use Rattle.lq_model.specs.Quiet.{Moves};

/// The run lock, the calls inside and SCHED are counted right: a step of any seat keeps that.
pub fn counts_are_kept()
    ensures holder { (m n : Machine) → IsInductive m → Moves m n → OneHolder n }
    ensures inside { (m n : Machine) → IsInductive m → Moves m n → CallsInside n }
    ensures scheduled { (m n : Machine) → IsInductive m → Moves m n → OneScheduled n }
{}

/// A free run lock with MISSED set isn't forgotten: a step of any seat keeps that.
pub fn missed_is_kept()
    ensures { (m n : Machine) → IsInductive m → Moves m n → LockFreeMissed n }
{}
