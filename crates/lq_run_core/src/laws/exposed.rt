//! What is held and exposed, the requeue slot, and packets that go past the bands.
ghost use Rattle.lq_model.specs.Positions.{Exposes, IsClear};
ghost use Rattle.lq_model.specs.Kept.{DequeueWaits, DirectAlone, IsInductive, LockFreeClear, LookedClear, OwnersDiffer, SlotFree, SlotWaits};
ghost use Rattle.lq_model.specs.Quiet.{Moves};
ghost use Rattle.lq_model.specs.Machine.{Machine};
ghost use Rattle.lq_model.specs.declared.machine.Packet.{Packet};
ghost use Rattle.std.specs.Prelude.{◌↔◌};

/// Nothing is exposed exactly where the requeue slot is empty and each packet in a band is hidden.
pub fn clear_is_nothing_exposed()
    ensures { (m : Machine) → ((p : Packet) → Exposes m p → ⊥) ↔ IsClear m }
{}

/// While neither MISSED nor DRAINING is set nothing is exposed at a free run lock, nor what its holder has looked at.
pub fn exposed_is_kept()
    ensures free { (m n : Machine) → IsInductive m → Moves m n → LockFreeClear n }
    ensures looked { (m n : Machine) → IsInductive m → Moves m n → LookedClear n }
{}

/// The requeue slot is empty where a packet in hand may need it, and full where a dequeue waits for its packet's queue.
pub fn slot_is_kept()
    ensures free { (m n : Machine) → IsInductive m → Moves m n → SlotFree n }
    ensures waits { (m n : Machine) → IsInductive m → Moves m n → SlotWaits n }
    ensures dequeue { (m n : Machine) → IsInductive m → Moves m n → DequeueWaits n }
{}

/// A packet goes past the bands only while none of its owner is held.
pub fn direct_is_kept()
    ensures owners { (m n : Machine) → IsInductive m → Moves m n → OwnersDiffer n }
    ensures alone { (m n : Machine) → IsInductive m → Moves m n → DirectAlone n }
{}
