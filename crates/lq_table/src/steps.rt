//! The eight operations of `lq_log` on the words, each called once here: a call of this table so is checked for the table's own types, and not anew for
//! the types that `lq_log` leaves open, which takes half of the time that the crate takes.
ghost use Rattle.std.specs.Prelude.{◌≡◌, ◌<◌};
ghost use mathlib.Core.Option.{none};
ghost use Rattle.atomic_table.specs.Table.{step};
ghost use Rattle.lq_log.specs.Made.{Noted, clears, exchanges, falls, loads, rises, sets, stores, swaps};
ghost use Rattle.lq_log.specs.Allows.{AllowsClear, AllowsExchange, AllowsFall, AllowsLoad, AllowsRise, AllowsSet, AllowsStore, AllowsSwap};
ghost use Rattle.lq_table.specs.Rule.{Rule};
ghost use Rattle.lq_table.specs.Keyed.{keyed_setup};

use crate::shared::Shared;
use crate::view::Knowledge;
use atomic_table::Seat;
use lq_device::{Station, TxDevice};
use lq_log::{Knows, Tells};

impl<'a, D: TxDevice> Shared<'a, D> {
    /// Loads the word.
    pub(crate) fn load_word<M: Tells<Option<Station<D>>, Knowledge>, X>(
        &self,
        seat: &mut Seat<Option<Station<D>>, Knows<Knowledge>>,
        word: usize,
        about: &X,
    ) -> u64
        requires { (seat.old.table_id ≡ self.now.table.kit.shared.table_id) × (word < self.now.table.kit.shared.table_id.words)
            × AllowsLoad (Rule (keyed_setup self.now.table.kit.shared.key)) self.now.table.kit.shared.table_id.slots seat.old.id seat.old.me M.told word }
        ensures { (seat.new.table_id ≡ seat.old.table_id) × (seat.new.id ≡ seat.old.id)
            × Noted loads M.told (step self.now.table.kit.shared.table_id.slots word 0 0 none) seat.old.me result seat.new.me }
    {
        self.table.load::<M, X>(seat, word, about)
    }

    /// Stores `new`.
    pub(crate) fn store_word<M: Tells<Option<Station<D>>, Knowledge>, X>(
        &self,
        seat: &mut Seat<Option<Station<D>>, Knows<Knowledge>>,
        word: usize,
        new: u64,
        about: &X,
    )
        requires { (seat.old.table_id ≡ self.now.table.kit.shared.table_id) × (word < self.now.table.kit.shared.table_id.words)
            × AllowsStore (Rule (keyed_setup self.now.table.kit.shared.key)) self.now.table.kit.shared.table_id.slots seat.old.id seat.old.me M.told word new }
        ensures { (seat.new.table_id ≡ seat.old.table_id) × (seat.new.id ≡ seat.old.id)
            × Noted stores M.told (step self.now.table.kit.shared.table_id.slots word new 0 none) seat.old.me new seat.new.me }
    {
        self.table.store::<M, X>(seat, word, new, about);
    }

    /// Stores `new`, and hands out what was there.
    pub(crate) fn swap_word<M: Tells<Option<Station<D>>, Knowledge>, X>(
        &self,
        seat: &mut Seat<Option<Station<D>>, Knows<Knowledge>>,
        word: usize,
        new: u64,
        about: &X,
    ) -> u64
        requires { (seat.old.table_id ≡ self.now.table.kit.shared.table_id) × (word < self.now.table.kit.shared.table_id.words)
            × AllowsSwap (Rule (keyed_setup self.now.table.kit.shared.key)) self.now.table.kit.shared.table_id.slots seat.old.id seat.old.me M.told word new }
        ensures { (seat.new.table_id ≡ seat.old.table_id) × (seat.new.id ≡ seat.old.id)
            × Noted swaps M.told (step self.now.table.kit.shared.table_id.slots word new 0 none) seat.old.me result seat.new.me }
    {
        self.table.swap::<M, X>(seat, word, new, about)
    }

    /// Stores `new` where the word is `old`, and hands out what was there.
    pub(crate) fn compare_exchange_word<M: Tells<Option<Station<D>>, Knowledge>, X>(
        &self,
        seat: &mut Seat<Option<Station<D>>, Knows<Knowledge>>,
        word: usize,
        old: u64,
        new: u64,
        about: &X,
    ) -> u64
        requires { (seat.old.table_id ≡ self.now.table.kit.shared.table_id) × (word < self.now.table.kit.shared.table_id.words)
            × AllowsExchange (Rule (keyed_setup self.now.table.kit.shared.key)) self.now.table.kit.shared.table_id.slots seat.old.id seat.old.me M.told word old new }
        ensures { (seat.new.table_id ≡ seat.old.table_id) × (seat.new.id ≡ seat.old.id)
            × Noted exchanges M.told (step self.now.table.kit.shared.table_id.slots word old new none) seat.old.me result seat.new.me }
    {
        self.table
            .compare_exchange::<M, X>(seat, word, old, new, about)
    }

    /// Sets these bits, and hands out what was there.
    pub(crate) fn fetch_or_word<M: Tells<Option<Station<D>>, Knowledge>, X>(
        &self,
        seat: &mut Seat<Option<Station<D>>, Knows<Knowledge>>,
        word: usize,
        bits: u64,
        about: &X,
    ) -> u64
        requires { (seat.old.table_id ≡ self.now.table.kit.shared.table_id) × (word < self.now.table.kit.shared.table_id.words)
            × AllowsSet (Rule (keyed_setup self.now.table.kit.shared.key)) self.now.table.kit.shared.table_id.slots seat.old.id seat.old.me M.told word bits }
        ensures { (seat.new.table_id ≡ seat.old.table_id) × (seat.new.id ≡ seat.old.id)
            × Noted sets M.told (step self.now.table.kit.shared.table_id.slots word bits 0 none) seat.old.me result seat.new.me }
    {
        self.table.fetch_or::<M, X>(seat, word, bits, about)
    }

    /// Clears all bits but these, and hands out what was there.
    pub(crate) fn fetch_and_word<M: Tells<Option<Station<D>>, Knowledge>, X>(
        &self,
        seat: &mut Seat<Option<Station<D>>, Knows<Knowledge>>,
        word: usize,
        bits: u64,
        about: &X,
    ) -> u64
        requires { (seat.old.table_id ≡ self.now.table.kit.shared.table_id) × (word < self.now.table.kit.shared.table_id.words)
            × AllowsClear (Rule (keyed_setup self.now.table.kit.shared.key)) self.now.table.kit.shared.table_id.slots seat.old.id seat.old.me M.told word bits }
        ensures { (seat.new.table_id ≡ seat.old.table_id) × (seat.new.id ≡ seat.old.id)
            × Noted clears M.told (step self.now.table.kit.shared.table_id.slots word bits 0 none) seat.old.me result seat.new.me }
    {
        self.table.fetch_and::<M, X>(seat, word, bits, about)
    }

    /// Adds `more`, and hands out what was there.
    pub(crate) fn fetch_add_word<M: Tells<Option<Station<D>>, Knowledge>, X>(
        &self,
        seat: &mut Seat<Option<Station<D>>, Knows<Knowledge>>,
        word: usize,
        more: u64,
        about: &X,
    ) -> u64
        requires { (seat.old.table_id ≡ self.now.table.kit.shared.table_id) × (word < self.now.table.kit.shared.table_id.words)
            × AllowsRise (Rule (keyed_setup self.now.table.kit.shared.key)) self.now.table.kit.shared.table_id.slots seat.old.id seat.old.me M.told word more }
        ensures { (seat.new.table_id ≡ seat.old.table_id) × (seat.new.id ≡ seat.old.id)
            × Noted rises M.told (step self.now.table.kit.shared.table_id.slots word more 0 none) seat.old.me result seat.new.me }
    {
        self.table.fetch_add::<M, X>(seat, word, more, about)
    }

    /// Takes `less` away, and hands out what was there.
    pub(crate) fn fetch_sub_word<M: Tells<Option<Station<D>>, Knowledge>, X>(
        &self,
        seat: &mut Seat<Option<Station<D>>, Knows<Knowledge>>,
        word: usize,
        less: u64,
        about: &X,
    ) -> u64
        requires { (seat.old.table_id ≡ self.now.table.kit.shared.table_id) × (word < self.now.table.kit.shared.table_id.words)
            × AllowsFall (Rule (keyed_setup self.now.table.kit.shared.key)) self.now.table.kit.shared.table_id.slots seat.old.id seat.old.me M.told word less }
        ensures { (seat.new.table_id ≡ seat.old.table_id) × (seat.new.id ≡ seat.old.id)
            × Noted falls M.told (step self.now.table.kit.shared.table_id.slots word less 0 none) seat.old.me result seat.new.me }
    {
        self.table.fetch_sub::<M, X>(seat, word, less, about)
    }
}
