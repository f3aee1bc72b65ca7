//! The laws of accounts, each the contract of a function that does nothing.
ghost use Rattle.std.specs.Prelude.{◌≡◌, ℕ, List, [], ◌∷◌, ◌<◌, Contains, filter_map, length};
ghost use Rattle.lq_model.specs.Account.{Account, Down, Event, Resize, Swap};
ghost use Rattle.lq_model.specs.Legal.{IsEventAt, IsLegal, down_event, resize_event};
ghost use Rattle.lq_model.specs.Complete.{IsComplete};
ghost use Rattle.lq_model.specs.Plan.{Plan, unit_of_swap};
ghost use Rattle.lq_model.specs.Settled.{IsInSenderOrder, IsSentList, IsSettled, IsUnitOf, MeetsEvents};
ghost use Rattle.lq_model.specs.declared.device.Params.{Params};
ghost use Rattle.lq_model.specs.declared.fate.Fate.{Fate};
ghost use Rattle.lq_model.specs.declared.fate.Info.{Info};
ghost use Rattle.lq_model.specs.declared.plan.EventKind.TheVariants as kind;
ghost use Rattle.lq_account_laws.specs.Accounts.{AreOfStations, AreSettledStations, IsClosed, IsSettledStation};
ghost use Rattle.lq_account_laws.specs.Progress.{start_of};

pub mod one_queue;
pub mod one_sender;
pub mod trails;

/// The stations of a plan together: each packet has one fate, each unit's serials are 0 up to the number that it sent,
/// and each owner's packets of one station and band were sent in ascending number. What the account of a unit's station has
/// of the unit is the list of its packets, in order of serial.
pub fn settled_stations_settle_all()
    ensures settled { (plan : Plan) (infos : List Info) (fates : List Fate) (accounts : ℕ → Account)
        → AreSettledStations plan infos fates accounts → IsSettled plan infos fates }
    ensures in_order { (plan : Plan) (infos : List Info) (fates : List Fate) (accounts : ℕ → Account)
        → AreSettledStations plan infos fates accounts → IsInSenderOrder infos fates }
    ensures sent { (plan : Plan) (infos : List Info) (fates : List Fate) (accounts : ℕ → Account)
        → AreSettledStations plan infos fates accounts → (station unit : ℕ) → station < length plan.stations
        → IsUnitOf plan station unit → IsSentList fates unit ((accounts station).sent unit) }
{}

/// Where the plan has no events, settled fates meet them: no packet is refused, shrunk or purged by one.
pub fn fates_meet_no_events()
    ensures { (plan : Plan) (infos : List Info) (fates : List Fate) → plan.events ≡ [] → IsSettled plan infos fates
        → MeetsEvents plan infos fates }
{}

/// The law of accounts: a legal list of events of a station of the plan that leaves nothing held and nothing in hand, in
/// which all of the plan's events for the station have come, settles the fates of the station's packets, and each owner's
/// packets of one band were sent in ascending number.
pub fn law_of_accounts()
    ensures { (plan : Plan) (infos : List Info) (fates : List Fate) (station : ℕ) (past : List Event) (a : Account)
        → station < length plan.stations → IsClosed plan infos fates station past a → IsSettledStation plan infos fates station a }
{}

/// The events of a closed account are legal: what control did, each of the plan's events asks where it stands. And each event that the
/// plan has for the station has come: one that resizes by its resize, and a swap by its swap.
pub fn closed_accounts_are_legal()
    ensures legal { (plan : Plan) (infos : List Info) (fates : List Fate) (station : ℕ) (past : List Event) (a : Account)
        → IsClosed plan infos fates station past a → IsLegal plan infos station (start_of plan station) past }
    ensures resizes { (plan : Plan) (infos : List Info) (fates : List Fate) (station : ℕ) (past : List Event) (a : Account)
        → IsClosed plan infos fates station past a → (event len : ℕ) → IsEventAt plan station event (kind.Resize len) → Contains (filter_map resize_event past) event }
    ensures lengths { (plan : Plan) (infos : List Info) (fates : List Fate) (station : ℕ) (past : List Event) (a : Account)
        → IsClosed plan infos fates station past a → (event len : ℕ) → IsEventAt plan station event (kind.TxQueueLen len) → Contains (filter_map resize_event past) event }
    ensures swaps { (plan : Plan) (infos : List Info) (fates : List Fate) (station : ℕ) (past : List Event) (a : Account)
        → IsClosed plan infos fates station past a → (event : ℕ) (params : Params) → IsEventAt plan station event (kind.Swap params)
        → Contains past (Swap (unit_of_swap plan event)) }
{}

/// Settled fates of packets of the plan's stations are complete: without a deactivation none is refused; where no unit
/// hangs either none is purged; without a resize to a shorter length none is shrunk; a band that is offered too few packets
/// to fill its ring drops none as full; and where all of this holds each packet is sent.
pub fn complete_fates()
    ensures { (plan : Plan) (infos : List Info) (fates : List Fate) → AreOfStations plan infos
        → IsSettled plan infos fates → IsComplete plan infos fates }
{}

/// In a legal list each event of the plan comes once: the one that resizes, the one that deactivates, and the swap of
/// the device.
pub fn planned_events_come_once()
    ensures resizes { (plan : Plan) (infos : List Info) (station : ℕ) (start : Account) (past : List Event) (len event : ℕ)
        → IsLegal plan infos station start (Resize len event ∷ past) → Contains (filter_map resize_event past) event → ⊥ }
    ensures downs { (plan : Plan) (infos : List Info) (station : ℕ) (start : Account) (past : List Event) (event : ℕ)
        → IsLegal plan infos station start (Down event ∷ past) → Contains (filter_map down_event past) event → ⊥ }
    ensures swaps { (plan : Plan) (infos : List Info) (station : ℕ) (start : Account) (past : List Event) (unit : ℕ)
        → IsLegal plan infos station start (Swap unit ∷ past) → Contains past (Swap unit) → ⊥ }
{}
