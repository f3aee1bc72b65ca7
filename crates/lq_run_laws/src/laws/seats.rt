//! Seats that join the others and leave them.
ghost use Rattle.lq_model.specs.Control.{holds_as_control, is_quiet};
ghost use Rattle.lq_model.specs.Kept.{IsInductive};
ghost use Rattle.lq_model.specs.Machine.{Qdisc, seat_at};
ghost use Rattle.lq_model.specs.Steps.{is_idle};
ghost use Rattle.lq_model.specs.declared.machine.Seat.{Seat};
ghost use Rattle.std.specs.Prelude.{◌++◌, ◌<◌, ◌≡◌, ◌⊎◌, ◌∷◌, List, None, false, length, true, ℕ};

/// A seat that is idle and not raised may join the others and leave them; while a purge is half done it joins only in a
/// deactivation, since outside one the purge is that of a sole seat. So beside a seat that isn't control with the run lock
/// it may always join.
pub fn seats_come_and_go()
    ensures joins { (q : Qdisc) (xs ys : List Seat) (s : Seat) → is_idle s.position ≡ true → s.raised ≡ false
        → (q.purge ≡ None) ⊎ (is_quiet q.phase ≡ true)
        → IsInductive (record { qdisc = q; seats = xs ++ ys }) → IsInductive (record { qdisc = q; seats = xs ++ s ∷ ys }) }
    ensures joins_beside { (q : Qdisc) (xs ys : List Seat) (s : Seat) (i : ℕ) → is_idle s.position ≡ true → s.raised ≡ false
        → i < length (xs ++ ys) → holds_as_control (seat_at (record { qdisc = q; seats = xs ++ ys }) i).position ≡ false
        → IsInductive (record { qdisc = q; seats = xs ++ ys }) → IsInductive (record { qdisc = q; seats = xs ++ s ∷ ys }) }
    ensures leaves { (q : Qdisc) (xs ys : List Seat) (s : Seat) → is_idle s.position ≡ true → s.raised ≡ false
        → IsInductive (record { qdisc = q; seats = xs ++ s ∷ ys }) → IsInductive (record { qdisc = q; seats = xs ++ ys }) }
{}
