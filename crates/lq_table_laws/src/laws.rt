//! The laws, of the words and views of a table as its rule keeps them, with any number of seats.
ghost use Rattle.std.specs.Prelude.{◌≡◌, ◌⊎◌, ◌+◌, ◌*◌, ◌<◌, ◌≤◌, ℕ, List, Some, length, Contains};
ghost use Rattle.lq_run_core.specs.Comes.{ControlMoves, SomebodyMoves};
ghost use Rattle.lq_model.specs.Account.{held};
ghost use Rattle.lq_model.specs.Kept.{IsInductive};
ghost use Rattle.lq_table.specs.Between.{StandsForMachine};
ghost use Rattle.lq_table.specs.Places.{fates_offset, producer_place, turn_place};
ghost use Rattle.lq_table.specs.Rule.{Rule, account, words_of};
ghost use Rattle.lq_table.specs.Views.{Setup};
ghost use Rattle.lq_run_core.specs.Progress.{Course};
ghost use Rattle.lq_run_core.specs.Waits.{packets};
ghost use Rattle.lq_run_core.specs.Measure.{ServesOpen, measure};
ghost use Rattle.lq_table_laws.specs.Stepped.{AreMoves, KeepsStation, KeepsWord, Leads, Remains, Stepped, machine_after, machine_before};
ghost use Rattle.lq_table_laws.specs.Runs.{Runs};
ghost use Rattle.lq_table.specs.Step.{Standing, Step};
ghost use Rattle.lq_table_laws.specs.StepMoves.{IsMadeAs, terms};
ghost use Rattle.lq_table_laws.specs.Stands.{AreOpen, LeavesNoPacket, Table, machine_by, machine_for};

/// Between any two steps of any seats the words stand for the machine that the rule tells. It keeps the invariant of the run lock and its
/// bits, and no order of moves keeps a packet in it: while one waits in an active station with all queues open, somebody comes, and at most
/// 20 moves come for each packet and 42 for each seat, and what the moves cost.
pub fn no_order_keeps_a_packet_of_a_table()
    ensures stands { (k : Setup) (s : Table) (r : Rule k s) → (x : StandsForMachine k s) × (machine_for x ≡ machine_by r) }
    ensures kept { (k : Setup) (s : Table) (r : Rule k s) → IsInductive (machine_by r) }
    ensures served { (k : Setup) (s : Table) (r : Rule k s) → LeavesNoPacket (machine_by r) }
{}

/// By the words themselves: where DEACTIVATED is clear, each stop word is 0 and the account holds a packet, a seat may make a step that
/// costs nothing, or begin its soft interrupt; or a call of control may go on to its end.
pub fn somebody_comes_for_what_is_held()
    ensures { (k : Setup) (s : Table) (r : Rule k s) (n : ℕ) → AreOpen (words_of k s.words) → Contains (held (account k r.state)) n
        → SomebodyMoves (machine_by r) ⊎ ControlMoves (machine_by r) }
{}

/// A step of each kind, where a seat may make it, is the moves of the machine that `terms` says: one that costs nothing, one of control, or
/// none; but a busy answer, a wake, a set of DEACTIVATED in no call, and the start of a call or of control are others.
pub fn a_step_is_moves_of_the_machine()
    ensures { (k : Setup) (x : Step) (s : Standing) (place : ℕ) (t : Stepped k place) → IsMadeAs x s t
        → Leads (terms k x s).course (machine_before t) (machine_after t) }
{}

/// Of whatever kind a step is, the machine stays as it is by each look by which the seat stays where it is, and by each step at a producer
/// word, a turn and a fate word by which it does.
pub fn looks_are_no_moves()
    ensures look { (k : Setup) (place : ℕ) (t : Stepped k place) → KeepsStation t → KeepsWord t → Remains t.before t.after
        → AreMoves 0 0 t }
    ensures producer { (k : Setup) (band : ℕ) (t : Stepped k (producer_place band)) → band < 3 → KeepsStation t
        → Remains t.before t.after → AreMoves 0 0 t }
    ensures turn { (k : Setup) (owner : ℕ) (t : Stepped k (turn_place owner)) → owner < k.senders → KeepsStation t
        → Remains t.before t.after → AreMoves 0 0 t }
    ensures fate { (k : Setup) (n : ℕ) (t : Stepped k (fates_offset k + n)) → n < length k.infos → KeepsStation t
        → Remains t.before t.after → AreMoves 0 0 t }
{}

/// So each step that is one move or more makes the number of the machine less by one for each, but for what they cost, while a packet is
/// served and all queues are open before and after it; and one that is no move leaves it.
pub fn each_step_of_a_table_comes_nearer()
    ensures moves { (k : Setup) (place : ℕ) (c : Course) (t : Stepped k place) → Leads c (machine_before t) (machine_after t)
        → ServesOpen (machine_before t) → ServesOpen (machine_after t)
        → c.moves + measure (machine_after t) ≤ measure (machine_before t) + c.cost }
    ensures none { (k : Setup) (place cost : ℕ) (t : Stepped k place) → AreMoves 0 cost t
        → measure (machine_after t) ≡ measure (machine_before t) }
{}

/// So what a table holds is sent, in whatever order its seats step. Let a packet be held, or in the hand of the run lock's holder, and let
/// steps lead from one table to another, none of control, with every stop word 0 before and after each. If they are more moves than 20 for
/// each packet that is held or with a seat, 42 for each seat and what the moves cost together, one of them stored that packet's fate as Sent.
pub fn what_a_table_holds_is_sent()
    ensures { (k : Setup) (first last : Table) (r : Rule k first) (q : Rule k last) (moves cost n : ℕ) (sent : List ℕ)
        → Contains (held (account k r.state)) n ⊎ ((account k r.state).hand ≡ Some n) → Runs k first r moves cost sent last q
        → 20 * packets (machine_by r) + 42 * length (machine_by r).seats + cost < moves → Contains sent n }
{}
