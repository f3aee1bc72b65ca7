//! The laws of the machine, for any number of seats. The modules below say the same of the invariant's sentences
//! by topic.
ghost use Rattle.std.specs.Prelude.{◌≡◌, ◌≢◌, ℕ, Bool, true, None, Some, length, slice_set};
ghost use Rattle.lq_model.specs.declared.machine.Packet.{Packet};
ghost use Rattle.lq_model.specs.declared.machine.Position.TheVariants.{Xmit, Deq};
ghost use Rattle.lq_model.specs.declared.machine.Seat.{Seat};
ghost use Rattle.lq_model.specs.Machine.{Qdisc, Machine, first_machine, seat_at, is_queue_open};
ghost use Rattle.lq_model.specs.Steps.{goes_to, dequeue_begins, store_xoff, after_sent};
ghost use Rattle.lq_model.specs.Positions.{Holds, blocking};
ghost use Rattle.lq_model.specs.Kept.{IsInductive, IsKept};
ghost use Rattle.lq_model.specs.Quiet.{IsQuiet, Moves};

pub mod deactivation;
pub mod draining;
pub mod exposed;
pub mod lock;
pub mod mistakes;
pub mod progress;
pub mod reached;

/// The invariant holds of the machine that begins, and every step of a seat, every start and every step of
/// control keeps it; so its sentences hold at every moment.
pub fn invariant_is_kept()
    ensures first { (seats len : ℕ) (bypass : Bool) (queues : ℕ) → IsInductive (first_machine seats len bypass queues) }
    ensures moves { (m n : Machine) → IsInductive m → Moves m n → IsInductive n }
    ensures sentences { (m : Machine) → IsInductive m → IsKept m }
{}

/// An active machine with no call inside, no run, none scheduled and no stopped queue holds no packet.
pub fn quiet_holds_nothing()
    ensures { (m : Machine) (p : Packet) → IsKept m → IsQuiet m → Holds m p → ⊥ }
{}

/// No packet is handed to the device past the bands while one of the same owner is held.
pub fn direct_comes_alone()
    ensures { (m : Machine) (i : ℕ) (p r : Packet) → IsInductive m
        → (seat_at m i).position ≡ Xmit p true → Holds m r → r.owner ≢ p.owner }
{}

/// With one queue there is one stop word: a dequeue begins at it, a hang stores it once, it is what keeps a
/// packet back where the requeue slot is empty, and all queues are open where it is 0.
pub fn one_queue_has_one_stop_word()
    ensures dequeue { (q : Qdisc) → length q.xoff ≡ 1 → dequeue_begins q ≡ Deq }
    ensures hang { (q : Qdisc) (s : Seat) (direct : Bool) → length q.xoff ≡ 1
        → store_xoff 0 true direct q s ≡ goes_to (record q { xoff = slice_set q.xoff 0 2 }) s (after_sent direct q s) }
    ensures blocking { (q : Qdisc) → length q.xoff ≡ 1 → q.slot ≡ None → blocking q ≡ Some 0 }
    ensures all_open { (q : Qdisc) (queue : ℕ) → length q.xoff ≡ 1 → is_queue_open q 0 ≡ true → is_queue_open q queue ≡ true }
{}
