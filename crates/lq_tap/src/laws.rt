//! What callers cite of the lists in a seat's view.
ghost use Rattle.std.specs.Prelude.{◌≡◌, ℕ, suc, ◌+◌, ◌<◌, ◌≤◌, List, ◌++◌, length, Contains};
ghost use Rattle.lq_band_laws.specs.Times.{times};
ghost use Rattle.lq_tap.specs.Views.{View, counting};
ghost use Rattle.lq_tap.specs.Settled.{IsSettled};
ghost use Rattle.lq_tap.specs.Told.{omitting, without_last};

/// Where the senders' seats are made in ascending order, the next sender has none yet, and the ones behind it stay.
pub fn senders_in_order()
    ensures next { (sender rest : ℕ) → 0 < times sender (counting sender (suc rest)) }
    ensures rest { (sender rest : ℕ) → omitting sender (counting sender (suc rest)) ≡ counting (sender + 1) rest }
{}

/// A list without its last packets is what stands before them.
pub fn given_back_again()
    ensures { (read given : List ℕ) → without_last (length given) (read ++ given) ≡ read }
{}

/// Where the ring has a slot for each packet, none is full and none is destroyed: every packet that was put was taken.
pub fn room_for_all()
    ensures none_full { (v : View) → IsSettled v → v.about.packets ≤ v.about.len
        → (n seen : ℕ) → Contains v.sender.fulls (n, seen) → ⊥ }
    ensures none_lost { (v : View) → IsSettled v → v.about.packets ≤ v.about.len → length v.reader.destroyed ≡ 0 }
{}
