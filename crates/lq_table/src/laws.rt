//! What the rule of a table says between any two steps, whatever steps its seats took.
ghost use Rattle.std.specs.Prelude.{Option};
ghost use Rattle.atomic_table.specs.Table.{State};
ghost use Rattle.lq_device.specs.Station.{StationState};
ghost use Rattle.lq_table.specs.Views.{View, Setup};
ghost use Rattle.lq_table.specs.Rule.{Rule};
ghost use Rattle.lq_table.specs.Places.{HavePlaces};
ghost use Rattle.lq_table.specs.Between.{IsTableQuiet, StandsForMachine, StandsForNothing};

/// In every state that the rule allows, so between any two steps of any seats, the words stand for a machine that keeps the
/// invariant of the run lock and its bits, and for the account of a list of events that may come; rings, requeue slot, fate words and
/// device are of that machine and account.
pub fn words_stand_for_machine()
    ensures { (k : Setup) (s : State (Option StationState) View) → Rule k s → StandsForMachine k s }
{}

/// Where every seat is in no call and the words are quiet (SCHED and DEACTIVATED clear, each queue open), however many seats there are:
/// the run lock is free and no call is inside, the account for which the words stand holds nothing, each slot from the consumer's
/// head to the producer is 0 and the requeue slot is empty. No packet is left behind.
pub fn quiet_words_hold_nothing()
    ensures { (k : Setup) (s : State (Option StationState) View) → Rule k s → IsTableQuiet k s → StandsForNothing k s }
{}

/// Each word has a place of its own, which is one of the table's.
pub fn words_have_places()
    ensures { (k : Setup) → HavePlaces k }
{}
