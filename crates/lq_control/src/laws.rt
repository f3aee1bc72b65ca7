//! What the steps of control's calls come to, for every seat: events, fates and devices.
ghost use Rattle.std.specs.Prelude.{◌≡◌, ℕ, [], ◌∷◌, true};
ghost use Rattle.lq_model.specs.Account.{Down, Purge, Resize, Swap, Up};
ghost use Rattle.lq_model.specs.Device.{DeviceState};
ghost use Rattle.lq_model.specs.declared.fate.Cause.TheVariants as cause;
ghost use Rattle.lq_table.specs.Views.{Setup, no_packets, Known};
ghost use Rattle.lq_control.specs.Comes.{ComesToEnd, SwapsFor, LeavesPurged, Shrinks};
ghost use Rattle.lq_control.specs.Control.{KeepsDevice, OwesNoInterrupt};
ghost use Rattle.lq_control.specs.EndSteps.{EndStation};
ghost use Rattle.lq_control.specs.Steps.{ChangeTxQueueLen, DevDeactivate, ResizeLive, SwapAt};
ghost use Rattle.lq_qdisc.specs.StepLists.{LeadsBy};

/// A call that deactivates the station purges all that it held, by the plan's event, which comes with the others of the call in
/// order; so many packets get that fate as are counted. After a down the seat isn't raised, and one that has the table alone found
/// SCHED clear.
pub fn deactivations_purge_all()
    ensures down { (k : Setup) (event count : ℕ) (old new : Known) → old.view.packets ≡ no_packets
        → LeadsBy (DevDeactivate k event count) old new
        → LeavesPurged (Purge (cause.Event event) ∷ Down event ∷ []) event count old.view new.view × KeepsDevice old.view new.view }
    ensures clear { (k : Setup) (event count : ℕ) (old new : Known) → LeadsBy (DevDeactivate k event count) old new
        → OwesNoInterrupt new.view }
    ensures length { (k : Setup) (event len count : ℕ) (old new : Known) → old.view.packets ≡ no_packets
        → LeadsBy (ChangeTxQueueLen k event len count) old new
        → LeavesPurged (Up ∷ Resize len event ∷ Purge (cause.Event event) ∷ Down event ∷ []) event count old.view new.view
        × KeepsDevice old.view new.view }
    ensures swap { (k : Setup) (event unit : ℕ) (came went : DeviceState) (old new : Known) → old.view.packets ≡ no_packets
        → LeadsBy (SwapAt k event unit came went) old new
        → (count : ℕ) × LeavesPurged (Up ∷ Swap unit ∷ Purge (cause.Event event) ∷ Down event ∷ []) event count old.view new.view }
{}

/// After a swap the new device is the one that came; the old one is that of the station's latest unit, what it has accepted is
/// kept, and it has served the station since it came.
pub fn a_swap_hands_the_old_device_back()
    ensures { (k : Setup) (event unit : ℕ) (came went : DeviceState) (old new : Known)
        → old.view.packets ≡ no_packets → old.view.control.first ≡ true
        → LeadsBy (SwapAt k event unit came went) old new → SwapsFor came went old.view new.view }
{}

/// A live resize stores Shrunk, by the plan's event, of so many packets as are counted: of a seat that has the table alone those
/// that its account drops.
pub fn a_resize_drops_the_last()
    ensures { (event len count : ℕ) (old new : Known) → LeadsBy (ResizeLive event len count) old new
        → Shrinks len event count old.view new.view }
{}

/// At its end a station's packets were all transmitted, and fates that were stored stay so. Each purge of a hung station on the trail
/// came before, or is by the present unit, whose device hangs. Where all were transmitted before, nothing else comes on the trail.
pub fn an_end_purges_what_hangs()
    ensures { (k : Setup) (count : ℕ) (old new : Known) → LeadsBy (EndStation k count) old new → ComesToEnd k count old.view new.view }
{}
