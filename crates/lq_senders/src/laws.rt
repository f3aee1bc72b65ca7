//! The laws of runs, each the contract of a function that does nothing.
ghost use Rattle.std.specs.Prelude.{◌≡◌, ◌≢◌, ◌<◌, ◌≤◌, ℕ, ◌/◌, List, [], ◌∷◌, Some, None, true, count_by, length, slice_get};
ghost use Rattle.lq_seat.specs.State.{SeatState};
ghost use Rattle.lq_senders.specs.Ends.{AreBack, AreOver, ClosedState, FatesRead, HasSentAll, IsReadable, RunEnds, SameBoxes};
ghost use Rattle.lq_senders.specs.Fates.{AreFatesOf, IsEndedAs};
ghost use Rattle.lq_senders.specs.Senders.{IsSendable};
ghost use Rattle.lq_senders.specs.Setup.{IsRunBy};
ghost use Rattle.lq_senders.specs.Woken.{count_sent, openings_of, opens_by};
ghost use Rattle.lq_plan.specs.declared.openings.Openings.TheVariants.{Every};
ghost use Rattle.lq_model.specs.Alone.{alone, alone_at};
ghost use Rattle.lq_model.specs.Device.{DeviceState};
ghost use Rattle.lq_model.specs.Plan.{Plan, is_swap, station_in};
ghost use Rattle.lq_model.specs.Runs.{group_event_at, group_of_two, no_rules, packets_to, station};
ghost use Rattle.lq_model.specs.declared.fate.Fate.{Fate};
ghost use Rattle.lq_model.specs.declared.fate.Fate.TheVariants.{Refused, Sent};
ghost use Rattle.lq_model.specs.declared.fate.Info.{Info};
ghost use Rattle.lq_model.specs.declared.plan.EventKind.TheVariants as kind;

use lq_model::one_fate_a_word;

/// The packets of a capture under a plan may be sent.
pub fn runs_may_be_sent()
    ensures { (plan : Plan) (infos : List Info) → IsRunBy plan infos → IsSendable plan infos }
{}

/// What the sole seats know at the close makes the fates.
pub fn ends_make_fates()
    ensures { (plan : Plan) (infos : List Info) (opens : ℕ → ℕ) (before after : List DeviceState) (views : ℕ → SeatState) (fates : List Fate)
        → RunEnds plan infos opens before after views fates → AreFatesOf plan infos opens fates before after }
{}

/// After a run each packet's fate can be read off its station's closed table.
pub fn runs_are_readable()
    ensures { (plan : Plan) (infos : List Info) (opens : ℕ → ℕ) (others : ℕ) (start : List SeatState) (brought : List DeviceState)
        (closed : List ClosedState) (spares : List DeviceState)
        → HasSentAll plan infos opens others start brought closed spares → IsSendable plan infos → IsReadable infos closed }
{}

/// A run leaves the fates that are read off its closed tables.
pub fn runs_make_fates()
    ensures { (plan : Plan) (infos : List Info) (opens : ℕ → ℕ) (before after : List DeviceState)
        (others : ℕ) (start : List SeatState) (brought : List DeviceState) (closed : List ClosedState) (spares : List DeviceState)
        (fates : List Fate)
        → HasSentAll plan infos opens others start brought closed spares → IsSendable plan infos → AreOver plan infos before others start brought
        → FatesRead infos closed (length infos) fates → AreBack plan closed spares after → AreFatesOf plan infos opens fates before after }
{
    one_fate_a_word();
}

/// What stays of each station has these fates.
pub fn runs_leave_stations()
    ensures { (plan : Plan) (infos : List Info) (opens : ℕ → ℕ) (others : ℕ) (start : List SeatState) (brought : List DeviceState)
        (closed : List ClosedState) (spares : List DeviceState) (fates : List Fate)
        → HasSentAll plan infos opens others start brought closed spares → FatesRead infos closed (length infos) fates
        → (j : ℕ) (x : ClosedState) → slice_get closed j ≡ Some x → IsEndedAs plan infos fates j x.ended }
{}

/// Each box stands again where it stood.
pub fn runs_keep_boxes()
    ensures { (plan : Plan) (infos : List Info) (opens : ℕ → ℕ) (before after : List DeviceState)
        (others : ℕ) (start : List SeatState) (brought : List DeviceState) (closed : List ClosedState) (spares : List DeviceState)
        → HasSentAll plan infos opens others start brought closed spares → AreOver plan infos before others start brought
        → AreBack plan closed spares after → SameBoxes plan before after }
{}

/// One table is closed for each station, and as many devices are spare as there are swaps.
pub fn runs_leave_devices()
    ensures { (plan : Plan) (infos : List Info) (opens : ℕ → ℕ) (before : List DeviceState)
        (others : ℕ) (start : List SeatState) (brought : List DeviceState) (closed : List ClosedState) (spares : List DeviceState)
        → HasSentAll plan infos opens others start brought closed spares → AreOver plan infos before others start brought
        → (length closed ≡ length plan.stations) × (length spares ≡ count_by is_swap plan.events) }
{}

/// Fates of a run are those of any other count of openings that is the same after each of its packets.
pub fn same_openings_make_same_fates()
    ensures { (plan : Plan) (infos : List Info) (opens others : ℕ → ℕ) (fates : List Fate) (before after : List DeviceState)
        → ((n : ℕ) → n < length infos → opens n ≡ others n) → AreFatesOf plan infos opens fates before after
        → AreFatesOf plan infos others fates before after }
{}

/// Where queues are opened after each so many packets of a sender, the sender opened them once for each so many that it has sent.
pub fn each_so_many_packets_open_once()
    ensures { (packets : ℕ) (infos : List Info) (sender n : ℕ) → 0 < packets → n ≤ length infos
        → openings_of infos (opens_by (Every packets) infos) sender n ≡ count_sent infos sender n / packets }
{}

/// In the run of one sender the stations are apart: a packet has the fate that it has where only the packets of its station are
/// offered, with all numbers kept. The others have no fate there.
#[tactic(auto, using(crate::proofs::OwnPackets::own_fates, crate::proofs::Untouched::other_fates))]
pub fn stations_run_apart()
    ensures own { (plan : Plan) (infos : List Info) (opens : ℕ → ℕ) (n : ℕ)
        → slice_get (alone_at plan infos opens (station_in infos n)) n ≡ slice_get (alone plan infos opens) n }
    ensures others { (plan : Plan) (infos : List Info) (opens : ℕ → ℕ) (station n : ℕ) → n < length infos → station_in infos n ≢ station
        → slice_get (alone_at plan infos opens station) n ≡ Some None }
{}

/// Two stations are the children of one multi-queue root, and the packets of only one are offered. The event before packet 2 stays
/// there, whichever they are.
#[tactic(auto, unfolding(lq_model::specs::Alone::run_fates))]
pub fn one_child_is_offered()
    ensures first { alone_at (group_of_two (station 1000 true no_rules) (group_event_at 2 kind.Down ∷ []))
        (packets_to (1 ∷ 0 ∷ 1 ∷ 0 ∷ [])) (λ n. 1) 0 ≡ None ∷ Some (Sent 0 0) ∷ None ∷ Some (Refused 0) ∷ [] }
    ensures second { alone_at (group_of_two (station 1000 true no_rules) (group_event_at 2 kind.Down ∷ []))
        (packets_to (1 ∷ 0 ∷ 1 ∷ 0 ∷ [])) (λ n. 1) 1 ≡ Some (Sent 1 0) ∷ None ∷ Some (Refused 0) ∷ None ∷ [] }
{}
