//! The table, its start and its end.
ghost use Rattle.std.specs.Prelude.{◌≡◌, [], length, IfOk, IfErr};
ghost use Rattle.core.specs.Mem.Slots.{slots_items, slots_len, IsFull};
ghost use Rattle.atomic_table.specs.Table.{opening, Final, Seen};
ghost use Rattle.lq_log.specs.Made.{made_nothing};

use crate::known::{Knows, Logging};
use atomic_table::{Closed, Refused, Seat, Table, TableRule};
use std::alloc::Allocator;

/// The kit's table, for seats that know their steps. Its field is private to this crate, so no step is made on the words but by the
/// operations here, and each of those appends what it did.
pub struct Logged<S, V, K, P: TableRule<S, V, K>, A: Allocator> {
    /// The kit's table: the words that the seats step on, and the slots.
    pub(crate) kit: Table<S, Knows<V>, K, Logging<P>, A>,
}

impl<S: Drop, V, K, P: TableRule<S, V, K>, A: Allocator> Drop for Logged<S, V, K, P, A> {
    fn drop(self) {
        let Logged { kit } = self;
        drop(kit);
    }
}

impl<S, V, K, P: TableRule<S, V, K>, A: Allocator> Logged<S, V, K, P, A> {
    /// A table with these words and slots, whose rule is told `about`, and its first seat, which made no step. Want of memory is the
    /// one refusal: the slots come back.
    pub fn new(
        alloc: A,
        words: &[u64],
        slots: Vec<S, A>,
        about: &K,
    ) -> Result<(Logged<S, V, K, P, A>, Seat<S, Knows<V>>), Refused<S, A>>
        requires { P.holds about.now (opening words.now slots.items (P.first about.now)) }
        ensures ok { IfOk result (λ t. (t.0.kit.shared.table_id.words ≡ length words.now) × (t.0.kit.shared.table_id.slots ≡ length slots.items)
            × (t.1.table_id ≡ t.0.kit.shared.table_id) × (t.1.id ≡ 0) × (t.1.me ≡ (made_nothing (P.first about.now), []))
            × (t.0.kit.shared.key ≡ about.now)) }
        ensures err { IfErr result (λ r. r.slots.items ≡ slots.items) }
    {
        let (kit, seat) = Table::new(alloc, words, slots, about)?;
        Ok((Logged { kit }, seat))
    }

    /// The words and the slots of the table as the last seat leaves them: they are those of a state that meets the rule, in which
    /// the seat has its view.
    pub fn close_with(self, seat: Seat<S, Knows<V>>) -> Closed<S, A>
        requires { seat.table_id ≡ self.kit.shared.table_id }
        ensures counts { (slots_len result.words ≡ self.kit.shared.table_id.words) × (slots_len result.slots ≡ self.kit.shared.table_id.slots) }
        ensures values { IsFull result.words × IsFull result.slots
            × Final (Seen (P.holds self.kit.shared.key) seat.id seat.me.0.view) (slots_items result.words) (slots_items result.slots) }
    {
        let Logged { kit } = self;
        kit.close_with(seat)
    }
}
