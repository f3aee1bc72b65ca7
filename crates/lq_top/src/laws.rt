//! What the headline's words come to, each the contract of a function that does nothing.
ghost use Rattle.std.specs.Prelude.{◌≡◌, ◌<◌, ℕ, List, [], ◌∷◌, ◌++◌, length, slice_get, Ok, Some};
ghost use Rattle.lq_host.specs.Host.{Files};
ghost use Rattle.lq_model.specs.Account.{Event, Take};
ghost use Rattle.lq_model.specs.Capture.{Capture, capture_of};
ghost use Rattle.lq_model.specs.Device.{DeviceState};
ghost use Rattle.lq_model.specs.Generated.{generated_capture};
ghost use Rattle.lq_model.specs.Legal.{MayTake};
ghost use Rattle.lq_model.specs.Plan.{Plan, infos_of, mq_at, station_in};
ghost use Rattle.lq_model.specs.declared.fate.Fate.{Fate};
ghost use Rattle.lq_model.specs.declared.fate.Fate.TheVariants.{Full};
ghost use Rattle.lq_pcapng.specs.File.{packets_of_file};
ghost use Rattle.lq_pcapng.specs.declared.file.CaptureFile.{CaptureFile};
ghost use Rattle.lq_pcapng.specs.declared.file.CaptureFile.TheVariants.{Classic};
ghost use Rattle.lq_plan.specs.Generated.{generated_plan};
ghost use Rattle.lq_files.specs.Command.{GenWords, OfGen, command_of_words};
ghost use Rattle.lq_top.specs.Decision.{Generates, verdict_of};
ghost use Rattle.lq_files.specs.Groups.{group_files, mq_lines};
ghost use Rattle.lq_top.specs.Headline.{AreFatesIn};
ghost use Rattle.lq_files.specs.RunFiles.{Run, run_of};
ghost use Rattle.lq_top.specs.Laws.{SawItsSlot, account_after};

/// The fates of a run: as many as the capture has packets, so that each packet has exactly one.
pub fn each_packet_has_one_fate()
    ensures one_each { (run : Run) (fates : List Fate) (before after : List DeviceState)
        → AreFatesIn run fates before after → length fates ≡ (packets_of_file run.capture).count }
    ensures there { (run : Run) (fates : List Fate) (before after : List DeviceState) (n : ℕ)
        → AreFatesIn run fates before after → n < (packets_of_file run.capture).count
        → (fate : Fate) × (slice_get fates n ≡ Some fate) }
{}

/// How the stations' fates are told by their lists of events, whatever the devices answered. A packet that was dropped as full
/// saw that other one in the slot of its band. And a packet is taken from a band only while the requeue slot was empty and each
/// lower band had been found empty: the requeue slot comes first, and then the bands in their order.
pub fn stations_keep_their_order()
    ensures full { (run : Run) (fates : List Fate) (before after : List DeviceState) (station n seen : ℕ)
        → AreFatesIn run fates before after → station < length run.plan.stations → n < (packets_of_file run.capture).count
        → station_in (infos_of run.plan (packets_of_file run.capture)) n ≡ station → slice_get fates n ≡ Some (Full seen)
        → SawItsSlot run.plan (infos_of run.plan (packets_of_file run.capture)) station n seen }
    ensures order { (run : Run) (fates : List Fate) (before after : List DeviceState)
        → (are : AreFatesIn run fates before after) (station : ℕ) (below : station < length run.plan.stations)
        → (later earlier : List Event) (band : ℕ) → (are.of_run.accounts station below).0 ≡ later ++ Take band ∷ earlier
        → MayTake earlier (account_after run.plan station earlier) band }
{}

/// Where there is a device, what the words of `gen` decide is its generated capture, which is one, under its own plan.
pub fn generated_captures_are_run()
    ensures { (words : List (List ℕ)) (gen : GenWords) (files : Files) (have : ℕ) → command_of_words words ≡ Some (OfGen gen)
        → 0 < have → (capture : Capture) × (capture_of (generated_capture gen.number gen.count) ≡ Ok capture) × (verdict_of words files have
        ≡ Generates (generated_capture gen.number gen.count) (run_of gen.out generated_plan (Classic capture))) }
{}

/// A plan whose groups have one child each writes no file and no line of a multi-queue root: its files are those of its units and of the
/// fates, and its output is the counts.
pub fn single_stations_are_no_roots()
    ensures files { (out : List ℕ) (capture : CaptureFile) (plan : Plan) (fates : List Fate)
        → ((j : ℕ) → mq_at plan.groups j < 2) → group_files out capture plan fates ≡ [] }
    ensures lines { (plan : Plan) (fates : List Fate) → ((j : ℕ) → mq_at plan.groups j < 2) → mq_lines plan fates ≡ [] }
{}
