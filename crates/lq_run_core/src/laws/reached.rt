//! The machines that moves lead to from the start.
ghost use Rattle.lq_model.specs.Positions.{Holds};
ghost use Rattle.lq_model.specs.Kept.{IsInductive};
ghost use Rattle.lq_model.specs.Quiet.{IsQuiet, Reaches};
ghost use Rattle.lq_model.specs.Machine.{Machine, first_machine};
ghost use Rattle.lq_model.specs.declared.machine.Packet.{Packet};
ghost use Rattle.std.specs.Prelude.{Bool, ℕ};

/// Whatever steps, starts and steps of control came, in whatever order: the machine keeps the invariant, and where it is
/// quiet it holds no packet.
pub fn reached_and_quiet_holds_nothing()
    ensures kept { (seats len : ℕ) (bypass : Bool) (queues : ℕ) (m : Machine)
        → Reaches (first_machine seats len bypass queues) m → IsInductive m }
    ensures quiet { (seats len : ℕ) (bypass : Bool) (queues : ℕ) (m : Machine) (p : Packet)
        → Reaches (first_machine seats len bypass queues) m → IsQuiet m → Holds m p → ⊥ }
{}
