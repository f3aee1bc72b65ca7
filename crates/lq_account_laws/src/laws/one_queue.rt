//! Stations with one queue.
ghost use Rattle.std.specs.Prelude.{◌≡◌, ℕ, List};
ghost use Rattle.lq_model.specs.Account.{Account, Event, after_all};
ghost use Rattle.lq_model.specs.Alone.{RunningStation};
ghost use Rattle.lq_model.specs.Legal.{IsLegal};
ghost use Rattle.lq_model.specs.Plan.{Plan, queues_at};
ghost use Rattle.lq_model.specs.declared.fate.Info.{Info};
ghost use Rattle.lq_account_laws.specs.OneQueue.{AreOfOneQueue, IsFinishedByRounds, IsOfOneQueue, IsServedByTurns, MeetsOneStopValue};
ghost use Rattle.lq_account_laws.specs.Progress.{start_of};

/// A station that begins with one queue has one stop value: 0 open, 1 stopped, 2 hung. Which events may come, how the
/// station is served and how it ends are a matter of that value. Serving goes on packet by packet until nothing is held or
/// the queue isn't open, and the station is woken and served until it is done, so the numbers of turns and rounds that the
/// definitions have are always enough.
pub fn one_queue_has_one_stop_value()
    ensures events { (plan : Plan) (infos : List Info) (station : ℕ) (past : List Event) (a : Account) → AreOfOneQueue infos
        → queues_at plan.stations station ≡ 1 → IsLegal plan infos station (start_of plan station) past
        → a ≡ after_all (start_of plan station) past → MeetsOneStopValue infos station past a }
    ensures serving { (infos : List Info) (s : RunningStation) → AreOfOneQueue infos → IsOfOneQueue s → IsServedByTurns infos s }
    ensures finish { (infos : List Info) (s : RunningStation) → AreOfOneQueue infos → IsOfOneQueue s → IsFinishedByRounds infos s }
{}
