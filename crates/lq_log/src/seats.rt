//! Cutting a seat in two, joining two, and what lies in the slot that a seat took.
ghost use Rattle.std.specs.Prelude.{◌≡◌, ◌<◌, [], ◌∷◌};
ghost use Rattle.atomic_table.specs.Table.{Joins, Splits};
ghost use Rattle.lq_log.specs.Made.{made_nothing, having_cut, cut_off, having_joined};

use crate::known::Knows;
use crate::logged::Logged;
use crate::tells::Cuts;
use atomic_table::{Join, Seat, Split, TableRule};
use std::alloc::Allocator;
use std::marker::PhantomData;
use std::mem;

pub(crate) struct CutBy<M> {
    of: PhantomData<M>,
}

impl<V, M: Cuts<V>> Split<Knows<V>> for CutBy<M> {
    ghost left = { having_cut M.left };

    ghost right = { cut_off M.right };
}

pub(crate) struct JoinedBy<M> {
    of: PhantomData<M>,
}

impl<V, M: Join<V>> Join<Knows<V>> for JoinedBy<M> {
    ghost both = { having_joined M.both };

    ghost spent = { made_nothing M.spent };
}

impl<S, V, K, P: TableRule<S, V, K>, A: Allocator> Logged<S, V, K, P, A> {
    /// Cuts the seat in two, as `M` cuts its view, and appends `cut` to its list. The new seat made no step.
    pub fn split_seat<M: Cuts<V>, X>(
        &self,
        seat: &mut Seat<S, Knows<V>>,
        _about: &X,
    ) -> Seat<S, Knows<V>>
        requires { (seat.old.table_id ≡ self.now.kit.shared.table_id) × (0 < self.now.kit.shared.table_id.words)
            × Splits (P.holds self.now.kit.shared.key) seat.old.id seat.old.me.0.view (M.left seat.old.me.0.view) (M.right seat.old.me.0.view) }
        ensures { (seat.new.table_id ≡ seat.old.table_id) × (seat.new.id ≡ seat.old.id)
            × (seat.new.me ≡ (having_cut M.left seat.old.me.0, seat.old.me.1))
            × (result.table_id ≡ seat.old.table_id) × (result.me ≡ (cut_off M.right seat.old.me.0, [])) }
    {
        self.kit.shared.split_seat::<CutBy<M>>(seat)
    }

    /// The seat takes in another, which holds no slot, as `M` joins their views. The other's steps are appended to its list, and then
    /// `join`.
    pub fn join_seat<M: Join<V>>(&self, seat: &mut Seat<S, Knows<V>>, other: Seat<S, Knows<V>>)
        requires { (seat.old.table_id ≡ self.now.kit.shared.table_id) × (other.table_id ≡ self.now.kit.shared.table_id) × (other.me.1 ≡ [])
            × (0 < self.now.kit.shared.table_id.words)
            × Joins (P.holds self.now.kit.shared.key) seat.old.id seat.old.me.0.view other.id other.me.0.view
            (M.both seat.old.me.0.view other.me.0.view) M.spent }
        ensures { (seat.new.table_id ≡ seat.old.table_id) × (seat.new.id ≡ seat.old.id)
            × (seat.new.me ≡ (having_joined M.both seat.old.me.0 other.me.0, seat.old.me.1)) }
    {
        self.kit.shared.join_seat::<JoinedBy<M>>(seat, other);
    }

    /// What lies in the slot that the seat took and what `value` has change places. That is plain memory, and no step.
    pub fn move_slot(&self, seat: &mut Seat<S, Knows<V>>, slot: usize, value: &mut S)
        requires seat { seat.old.table_id ≡ self.now.kit.shared.table_id }
        requires holder { (old : S) × (seat.old.me.1 ≡ (slot, old) ∷ []) }
        ensures seat { (seat.new.table_id ≡ seat.old.table_id) × (seat.new.id ≡ seat.old.id) × (seat.new.me.0 ≡ seat.old.me.0) }
        ensures moved { (seat.old.me.1 ≡ (slot, value.new) ∷ []) × (seat.new.me.1 ≡ (slot, value.old) ∷ []) }
    {
        mem::swap(seat.slot_mut(&self.kit.shared, slot), value);
    }
}
