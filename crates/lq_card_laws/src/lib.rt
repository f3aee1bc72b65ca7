//! Laws of a card on a wire.
#![tactic(auto)]

ghost use Rattle.std.specs.Prelude.{◌≡◌, [], ◌∷◌, None, Some};
ghost use Rattle.lq_card_laws.specs.Laws.{NeverTwoAtOnce, OpensSoOften, RunsBeside, WaitsOnlyForRoom};
ghost use Rattle.lq_model.specs.Capture.{first_back};
ghost use Rattle.lq_model.specs.Runs.{packets_at};

/// Behind a packet the station of a card was opened and served just as often as the openings that are counted, and else nothing was done to it.
pub fn card_opens_so_often()
    ensures { OpensSoOften }
{}

/// In a plan of one station, the station that a card opens is that of the run of one sender whose queues are opened as the card opens them.
pub fn card_runs_beside()
    ensures { RunsBeside }
{}

/// The frames of a card are on its wire one after the other: each begins when it is accepted, or when the frame before it ends, whichever is later.
pub fn never_two_frames_at_once()
    ensures { NeverTwoAtOnce }
{}

/// A packet waits in an active station only while the driver has no room: at each packet, once the queue was opened while there was room, and behind each
/// interrupt.
pub fn waits_only_for_room()
    ensures { WaitsOnlyForRoom }
{}

/// The first packet whose time goes back, worked out: a card tells nothing of such a capture.
pub fn times_that_go_back()
    ensures forward { first_back (packets_at (0 ∷ 5 ∷ 5 ∷ 9 ∷ [])) ≡ None }
    ensures back { first_back (packets_at (0 ∷ 5 ∷ 3 ∷ 9 ∷ [])) ≡ Some 2 }
{}
