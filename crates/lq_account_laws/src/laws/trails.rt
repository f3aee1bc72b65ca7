//! What the first sender's seat knows of a station while others send: its trail closes the account.
ghost use Rattle.std.specs.Prelude.{◌≡◌, [], List, None, length, ℕ};
ghost use Rattle.lq_account_laws.specs.Accounts.{AreClosed, AreDecided, AreOfStations, IsClosed};
ghost use Rattle.lq_account_laws.specs.Progress.{start_of};
ghost use Rattle.lq_account_laws.specs.Trail.{AreTrails, HaveCome, IsOrderly, IsTrail, trail_of};
ghost use Rattle.lq_model.specs.Account.{Account, Event, after_all, held};
ghost use Rattle.lq_model.specs.Plan.{Plan};
ghost use Rattle.lq_model.specs.Settled.{MeetsEvents};
ghost use Rattle.lq_model.specs.declared.fate.Fate.{Fate};
ghost use Rattle.lq_model.specs.declared.fate.Info.{Info};

/// Events that may come where they stand, whose trail is as the plan asks, are legal, and close the station's account where
/// they leave nothing held and nothing in hand.
pub fn orderly_events_close()
    ensures { (plan : Plan) (infos : List Info) (fates : List Fate) (station : ℕ) (past : List Event) (a : Account)
        → IsOrderly infos station (start_of plan station) past → a ≡ after_all (start_of plan station) past
        → IsTrail plan station (trail_of infos past) → HaveCome plan station (length plan.events) (trail_of infos past)
        → held a ≡ [] → a.hand ≡ None → AreDecided infos fates station a → IsClosed plan infos fates station past a }
{}

/// Where all stations' accounts are closed and their trails are as the plan asks, the first sender's packets meet the
/// plan's events.
pub fn trails_meet_events()
    ensures { (plan : Plan) (infos : List Info) (fates : List Fate) (pasts : ℕ → List Event) (accounts : ℕ → Account)
        → length fates ≡ length infos → AreOfStations plan infos → AreClosed plan infos fates pasts accounts → AreTrails plan infos pasts
        → MeetsEvents plan infos fates }
{}
