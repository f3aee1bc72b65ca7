//! One seat among the others: what it does is a move of the machine, and what its step leaves alone.
ghost use Rattle.lq_model.specs.Control.{control_at, holds_as_control, is_control, is_sole, may_control};
ghost use Rattle.lq_model.specs.Positions.{holds_lock, in_hand, own_packet};
ghost use Rattle.lq_model.specs.Kept.{OneHolder};
ghost use Rattle.lq_model.specs.Quiet.{IsFree, Moves};
ghost use Rattle.lq_model.specs.Machine.{Qdisc, band_at};
ghost use Rattle.lq_model.specs.Steps.{begun, may_answer, may_begin, step_at};
ghost use Rattle.lq_model.specs.declared.machine.Answer.{Answer};
ghost use Rattle.lq_model.specs.declared.machine.Beginning.{Beginning};
ghost use Rattle.lq_model.specs.declared.machine.ControlStep.{ControlStep};
ghost use Rattle.lq_model.specs.declared.machine.Packet.{Packet};
ghost use Rattle.lq_model.specs.declared.machine.Seat.{Seat};
ghost use Rattle.lq_run_laws.specs.Among.{among, left_among};
ghost use Rattle.std.specs.Prelude.{◌≡◌, ◌⊎◌, ℕ, Contains, List, Some, false, length, true};

/// A seat between two lists of others: what its step, its start and its step of control leave is a move of the machine,
/// in which each of the others stays as it is.
pub fn one_seat_moves()
    ensures steps { (before behind : List Seat) (q : Qdisc) (s : Seat) (answer : Answer) → may_answer s.position answer q ≡ true
        → Moves (among before behind q s) (left_among before behind (step_at s.position answer q s)) }
    ensures begins { (before behind : List Seat) (q : Qdisc) (s : Seat) (b : Beginning) → may_begin b s ≡ true
        → IsFree b (length before) (among before behind q s) → Moves (among before behind q s) (among before behind q (begun b s)) }
    ensures controls { (before behind : List Seat) (q : Qdisc) (s : Seat) (step : ControlStep) → is_control s.position ≡ true
        → may_control step (is_sole (among before behind q s)) (holds_as_control s.position) q ≡ true
        → Moves (among before behind q s) (left_among before behind (control_at step (holds_as_control s.position) q s)) }
{}

/// A step of a seat begins no transmit and no call of control, leaves alone how far control has come, and where it leaves
/// the run lock as it was the seat stands as its holder after it just if it did before.
pub fn step_leaves_alone()
    ensures own_packet { (q : Qdisc) (s : Seat) (answer : Answer) (p : Packet) → may_answer s.position answer q ≡ true
        → own_packet (step_at s.position answer q s).seat.position ≡ Some p → own_packet s.position ≡ Some p }
    ensures control { (q : Qdisc) (s : Seat) (answer : Answer) → may_answer s.position answer q ≡ true
        → is_control (step_at s.position answer q s).seat.position ≡ false }
    ensures phase { (q : Qdisc) (s : Seat) (answer : Answer) → may_answer s.position answer q ≡ true
        → (step_at s.position answer q s).qdisc.phase ≡ q.phase }
    ensures purge { (q : Qdisc) (s : Seat) (answer : Answer) → may_answer s.position answer q ≡ true
        → (step_at s.position answer q s).qdisc.purge ≡ q.purge }
    ensures lock { (before behind : List Seat) (q : Qdisc) (s : Seat) (answer : Answer) → OneHolder (among before behind q s)
        → may_answer s.position answer q ≡ true → (step_at s.position answer q s).qdisc.locked ≡ q.locked
        → holds_lock (step_at s.position answer q s).seat.position ≡ holds_lock s.position }
{}

/// Where a step's packets come from: the packet in hand was in hand, is that of the seat's own transmit, or was in the
/// requeue slot or a band; that in the requeue slot was there or in hand; one in a band was in a band, or is that of the
/// seat's own transmit.
pub fn packets_come_from()
    ensures hand { (q : Qdisc) (s : Seat) (answer : Answer) (p : Packet) → may_answer s.position answer q ≡ true
        → in_hand (step_at s.position answer q s).seat.position ≡ Some p → (in_hand s.position ≡ Some p)
        ⊎ ((own_packet s.position ≡ Some p) ⊎ ((q.slot ≡ Some p) ⊎ ((band : ℕ) × Contains (band_at q band) p))) }
    ensures slot { (q : Qdisc) (s : Seat) (answer : Answer) (p : Packet) → may_answer s.position answer q ≡ true
        → (step_at s.position answer q s).qdisc.slot ≡ Some p → (q.slot ≡ Some p) ⊎ (in_hand s.position ≡ Some p) }
    ensures bands { (q : Qdisc) (s : Seat) (answer : Answer) (band : ℕ) (p : Packet) → may_answer s.position answer q ≡ true
        → Contains (band_at (step_at s.position answer q s).qdisc band) p
        → ((b : ℕ) × Contains (band_at q b) p) ⊎ (own_packet s.position ≡ Some p) }
{}
