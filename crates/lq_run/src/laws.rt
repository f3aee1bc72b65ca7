//! What the steps of a begin and of an end come to, each the contract of a function that does nothing.
ghost use Rattle.std.specs.Prelude.{◌≡◌, ◌⊎◌, Bool, true, false, not, if◌then◌else◌, List};
ghost use Rattle.lq_model.specs.declared.machine.Attempt.{Attempt};
ghost use Rattle.lq_model.specs.declared.machine.Phase.TheVariants.{Active};
ghost use Rattle.lq_model.specs.declared.machine.Position.TheVariants.{Control, Try1, Unlock};
ghost use Rattle.lq_table.specs.Locks.{locked_to};
ghost use Rattle.lq_table.specs.Sees.{IsAccounts, IsSole, solo};
ghost use Rattle.lq_table.specs.States.{missed_to};
ghost use Rattle.lq_table.specs.Step.{Standing, Step, steps_leave, steps_tell};
ghost use Rattle.lq_run.specs.Runs.{ended};
ghost use Rattle.lq_run.specs.Steps.{Begin, End};

/// A seat that has the table alone gets the run lock exactly if it is free, and what the holder has is then the account's; the
/// lock is held after that, and MISSED is set where it was held before.
pub fn sole_seats_get_free_locks()
    ensures { (got : Bool) (xs : List Step) (s : Standing) → Begin got xs → steps_tell xs s → IsSole s.view
        → (got ≡ not s.view.whole.qdisc.locked)
        × (solo (steps_leave xs s).view ≡ locked_to true (if got then solo s.view else missed_to true (solo s.view)))
        × (got ≡ true → IsAccounts (steps_leave xs s).view) }
{}

/// A seat that has the table alone schedules at the end of a run exactly if MISSED is set; the lock is free after that.
pub fn sole_seats_schedule_missed()
    ensures { (xs : List Step) (s : Standing) → End xs → steps_tell xs s → IsSole s.view
        → solo (steps_leave xs s).view ≡ ended (solo s.view) }
{}

/// A begin leaves the seat's raised mark as it was, and an end doesn't take it down.
pub fn raised_marks_stay()
    ensures begins { (got : Bool) (xs : List Step) (s : Standing) → Begin got xs → steps_tell xs s
        → (a : Attempt) → s.view.place.position ≡ Try1 a → (steps_leave xs s).view.place.raised ≡ s.view.place.raised }
    ensures ends { (xs : List Step) (s : Standing) → End xs
        → (s.view.place.position ≡ Unlock) ⊎ ((s.view.place.position ≡ Control true) × (s.view.control.phase ≡ Active))
        → s.view.place.raised ≡ true → (steps_leave xs s).view.place.raised ≡ true }
{}
