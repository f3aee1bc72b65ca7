//! A law of the station.
ghost use Rattle.std.specs.Prelude.{◌≡◌, List};
ghost use Rattle.lq_lone.specs.Lone.{HaveOneQueue, IsLone, LoneState};
ghost use Rattle.lq_model.specs.Alone.{RunningStation, served};
ghost use Rattle.lq_model.specs.declared.fate.Info.{Info};

/// A station that was served stays as it is where it is served again.
pub fn served_again_is_the_same()
    ensures { (infos : List Info) (s : RunningStation) (m : LoneState) → HaveOneQueue infos → IsLone m s → served infos (served infos s) ≡ served infos s }
{}
