//! Laws of the definitions, each the contract of a function that does nothing.

ghost use Rattle.std.specs.Prelude.{◌≡◌, ℕ, List};
ghost use Rattle.lq_model.specs.Sent.{sent_of};
ghost use Rattle.lq_model.specs.declared.fate.Fate.{Fate};
ghost use Rattle.lq_model.specs.Settled.{IsSentList};

/// Where a list has each packet of a unit at its serial, the packets that the unit sent are that list.
pub fn sent_is_that_list()
    ensures { (fates : List Fate) (unit : ℕ) (sent : List ℕ) → IsSentList fates unit sent → sent_of fates unit ≡ sent }
{}
