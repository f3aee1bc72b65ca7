//! No order of steps keeps a packet: what waits is sent, in whatever order the seats move, while the queues are open.
ghost use Rattle.std.specs.Prelude.{◌≡◌, ◌<◌, ◌≤◌, ◌+◌, ◌*◌, ◌⊎◌, List, true, false, length, Contains};
ghost use Rattle.lq_model.specs.declared.machine.Answer.{Answer};
ghost use Rattle.lq_model.specs.declared.machine.Beginning.{Beginning};
ghost use Rattle.lq_model.specs.declared.machine.ControlStep.{ControlStep};
ghost use Rattle.lq_model.specs.declared.machine.Packet.{Packet};
ghost use Rattle.lq_model.specs.declared.machine.Seat.{Seat};
ghost use Rattle.lq_model.specs.Control.{control_at, holds_as_control, is_control, is_sole, may_control};
ghost use Rattle.lq_model.specs.Machine.{Machine, Qdisc, first_machine};
ghost use Rattle.lq_model.specs.Steps.{begun, may_answer, may_begin, step_at};
ghost use Rattle.lq_run_laws.specs.Among.{among, left_among};
ghost use Rattle.lq_model.specs.Kept.{OneHolder, IsInductive, IsKept};
ghost use Rattle.lq_model.specs.Quiet.{Moves, Reaches};
ghost use Rattle.lq_run_core.specs.Waits.{AllOpen, IsWaiting, WaitsOpen, packets};
ghost use Rattle.lq_run_core.specs.Progress.{Course, Goes, IsAny, control_cost, cost_of, start_cost, step_cost};
ghost use Rattle.lq_run_core.specs.Comes.{ControlMoves, SomebodyMoves};
ghost use Rattle.lq_run_core.specs.Measure.{ServesOpen, measure, serves};
ghost use Rattle.lq_run_core.specs.Chase.{GoesFree, chase, stopped_chase};

/// While a packet waits and all queues are open, at most 20 moves come for each packet and 42 for each seat, and what the moves
/// cost: a busy answer 19, a transmit 36, a wake 18, the start of a call of control 1 and a step of it 18. All other moves cost nothing.
pub fn no_order_keeps_a_packet()
    ensures { (p : Packet) (m n : Machine) (c : Course) → OneHolder m → Goes (WaitsOpen p) m c n
        → c.moves ≤ 20 * packets m + 42 * length m.seats + c.cost }
{}

/// A packet that waits goes on waiting until the device accepts it, as long as no step of control comes. So after more moves than
/// those with all queues open, in whatever order, the device has accepted it.
pub fn what_leaves_is_sent()
    ensures accepted { (p : Packet) (m n : Machine) (c : Course) → IsInductive m → IsWaiting p m → Goes IsAny m c n → c.with_control ≡ false
        → IsWaiting p n ⊎ Contains c.accepted p }
    ensures sent { (p : Packet) (m n : Machine) (c : Course) → IsInductive m → IsWaiting p m → Goes AllOpen m c n → c.with_control ≡ false
        → 20 * packets m + 42 * length m.seats + c.cost < c.moves → Contains c.accepted p }
{}

/// While a packet waits in an active machine with all queues open, there is a move that costs nothing: a seat may make a step, or a
/// raised seat may begin its soft interrupt. If there is none, a seat is in a call of control, has the run lock or is raised, and that
/// call may go on to its end.
pub fn somebody_comes()
    ensures { (p : Packet) (m : Machine) → IsKept m → m.qdisc.deactivated ≡ false → WaitsOpen p m → SomebodyMoves m ⊎ ControlMoves m }
{}

/// The number that says so: while a packet is served and all queues are open, each move makes it less, or adds less than the move
/// costs. So it bounds the moves to come; and it is small.
pub fn each_step_comes_nearer()
    ensures nearer { (m n : Machine) → OneHolder m → ServesOpen m → (move : Moves m n) → ServesOpen n → measure n < measure m + cost_of move }
    ensures moves { (m n : Machine) (c : Course) → OneHolder m → Goes ServesOpen m c n → c.moves + measure n ≤ measure m + c.cost }
    ensures few { (m : Machine) → measure m ≤ 20 * packets m + 42 * length m.seats }
{}

/// The same of one seat between two lists of others, by what it does: so it is said of the views of a table's seats, of which one moves.
pub fn one_seat_comes_nearer()
    ensures steps { (before behind : List Seat) (q : Qdisc) (s : Seat) (answer : Answer) → OneHolder (among before behind q s)
        → may_answer s.position answer q ≡ true → ServesOpen (among before behind q s)
        → ServesOpen (left_among before behind (step_at s.position answer q s))
        → measure (left_among before behind (step_at s.position answer q s)) < measure (among before behind q s) + step_cost answer }
    ensures begins { (before behind : List Seat) (q : Qdisc) (s : Seat) (b : Beginning) → OneHolder (among before behind q s)
        → may_begin b s ≡ true → ServesOpen (among before behind q s) → ServesOpen (among before behind q (begun b s))
        → measure (among before behind q (begun b s)) < measure (among before behind q s) + start_cost b }
    ensures controls { (before behind : List Seat) (q : Qdisc) (s : Seat) (step : ControlStep) → OneHolder (among before behind q s)
        → is_control s.position ≡ true → may_control step (is_sole (among before behind q s)) (holds_as_control s.position) q ≡ true
        → ServesOpen (among before behind q s) → ServesOpen (left_among before behind (control_at step (holds_as_control s.position) q s))
        → measure (left_among before behind (control_at step (holds_as_control s.position) q s)) < measure (among before behind q s) + control_cost }
{}

/// With nothing to be served two soft interrupts can go on for ever: they come to this machine, and 42 moves later are there again.
/// While a queue is stopped they can do so with a packet held, by 30 moves.
pub fn two_can_go_on_for_ever()
    ensures reached { Reaches (first_machine 2 8 false 1) chase }
    ensures again { GoesFree (λ m. serves m ≡ false) chase chase 42 }
    ensures stopped { Reaches (first_machine 2 8 false 1) stopped_chase }
    ensures stopped_again { GoesFree (λ m. serves m ≡ true) stopped_chase stopped_chase 30 }
{}
