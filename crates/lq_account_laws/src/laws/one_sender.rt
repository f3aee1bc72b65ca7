//! The run of one sender.
ghost use Rattle.std.specs.Prelude.{◌≡◌, ◌≢◌, ◌+◌, ◌<◌, ℕ, Bool, List, [], Some, length, slice_get};
ghost use Rattle.lq_model.specs.Account.{held};
ghost use Rattle.lq_model.specs.Alone.{RunningStation, brought_in, finished, new_station, opened, served};
ghost use Rattle.lq_model.specs.Plan.{Plan, station_in};
ghost use Rattle.lq_model.specs.declared.fate.Info.{Info};
ghost use Rattle.lq_model.specs.declared.plan.StationPlan.{StationPlan};
ghost use Rattle.lq_account_laws.specs.OneQueue.{AreOfOneQueue};
ghost use Rattle.lq_account_laws.specs.Sender.{AreAloneSettled, IsInRun, IsPlain};

/// In the run of one sender a station with one queue makes legal events alone. It begins before packet 0; a packet of its
/// own is brought to it and one of another station passes it by; and serving, wakes and its end bring no packet. At its end
/// it holds nothing.
pub fn one_sender_makes_legal_events()
    ensures begins { (plan : Plan) (infos : List Info) (station : ℕ) (s : StationPlan) → slice_get plan.stations station ≡ Some s
        → 0 < s.len → s.queues ≡ 1 → IsInRun plan infos station 0 (new_station station s) }
    ensures passes { (plan : Plan) (infos : List Info) (station n : ℕ) (s : RunningStation) → station_in infos n ≢ station
        → IsInRun plan infos station n s → IsInRun plan infos station (n + 1) s }
    ensures brought { (plan : Plan) (infos : List Info) (station n : ℕ) (bypass : Bool) (s : RunningStation) → AreOfOneQueue infos
        → n < length infos → station_in infos n ≡ station → IsInRun plan infos station n s
        → IsInRun plan infos station (n + 1) (brought_in infos bypass n s) }
    ensures served { (plan : Plan) (infos : List Info) (station n : ℕ) (s : RunningStation) → AreOfOneQueue infos
        → IsInRun plan infos station n s → IsInRun plan infos station n (served infos s) }
    ensures opened { (plan : Plan) (infos : List Info) (station n : ℕ) (s : RunningStation) → AreOfOneQueue infos
        → IsInRun plan infos station n s → IsInRun plan infos station n (opened s) }
    ensures finished { (plan : Plan) (infos : List Info) (station n : ℕ) (s : RunningStation) → AreOfOneQueue infos
        → IsInRun plan infos station n s → IsInRun plan infos station n (finished infos s) }
    ensures nothing_held { (plan : Plan) (infos : List Info) (station n : ℕ) (s : RunningStation) → AreOfOneQueue infos
        → IsInRun plan infos station n s → held (finished infos s).account ≡ [] }
{}

/// Where the plan has no events the run of one sender gives each packet one fate, the fates are settled, and each owner's
/// packets of one station and band were sent in ascending number.
pub fn one_sender_settles_all()
    ensures { (plan : Plan) (infos : List Info) (opens : ℕ → ℕ) → IsPlain plan infos → AreAloneSettled plan infos opens }
{}
