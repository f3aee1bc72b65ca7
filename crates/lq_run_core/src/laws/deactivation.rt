//! Deactivation, with its purge, and activation.
ghost use Rattle.lq_model.specs.Kept.{Deactivation, IsInductive, PurgedHoldsNothing, Purging, QuietInside};
ghost use Rattle.lq_model.specs.Quiet.{Moves};
ghost use Rattle.lq_model.specs.Machine.{Machine};

/// DEACTIVATED marks a deactivation; once the calls inside were loaded as 0 under it each later call is on its way out,
/// and once the purge has ended nothing is held.
pub fn deactivation_is_kept()
    ensures phase { (m n : Machine) → IsInductive m → Moves m n → Deactivation n }
    ensures inside { (m n : Machine) → IsInductive m → Moves m n → QuietInside n }
    ensures purging { (m n : Machine) → IsInductive m → Moves m n → Purging n }
    ensures purged { (m n : Machine) → IsInductive m → Moves m n → PurgedHoldsNothing n }
{}
