//! The eight operations on the words. What a step tells of the view is the caller's choice, `M`; what it appends is not. No code reads
//! `about`: a caller's proof, which picks what is told, may name what the call was given, and so it is given what the step is about.
ghost use Rattle.std.specs.Prelude.{◌≡◌, ◌<◌};
ghost use mathlib.Core.Option.{none};
ghost use Rattle.atomic_table.specs.Table.{step};
ghost use Rattle.lq_log.specs.Made.{Noted, clears, exchanges, falls, loads, rises, sets, stores, swaps};
ghost use Rattle.lq_log.specs.Allows.{AllowsClear, AllowsExchange, AllowsFall, AllowsLoad, AllowsRise, AllowsSet, AllowsStore, AllowsSwap};

use crate::known::Knows;
use crate::logged::Logged;
use crate::tells::Tells;
use atomic_table::{Play, Seat, TableRule};
use std::alloc::Allocator;
use std::marker::PhantomData;

pub(crate) struct Loads<M> {
    of: PhantomData<M>,
}

impl<S, V, M: Tells<S, V>> Play<S, Knows<V>> for Loads<M> {
    ghost then = { Noted loads M.told };
}

pub(crate) struct Stores<M> {
    of: PhantomData<M>,
}

impl<S, V, M: Tells<S, V>> Play<S, Knows<V>> for Stores<M> {
    ghost then = { Noted stores M.told };
}

pub(crate) struct Swaps<M> {
    of: PhantomData<M>,
}

impl<S, V, M: Tells<S, V>> Play<S, Knows<V>> for Swaps<M> {
    ghost then = { Noted swaps M.told };
}

pub(crate) struct Exchanges<M> {
    of: PhantomData<M>,
}

impl<S, V, M: Tells<S, V>> Play<S, Knows<V>> for Exchanges<M> {
    ghost then = { Noted exchanges M.told };
}

pub(crate) struct Sets<M> {
    of: PhantomData<M>,
}

impl<S, V, M: Tells<S, V>> Play<S, Knows<V>> for Sets<M> {
    ghost then = { Noted sets M.told };
}

pub(crate) struct Clears<M> {
    of: PhantomData<M>,
}

impl<S, V, M: Tells<S, V>> Play<S, Knows<V>> for Clears<M> {
    ghost then = { Noted clears M.told };
}

pub(crate) struct Rises<M> {
    of: PhantomData<M>,
}

impl<S, V, M: Tells<S, V>> Play<S, Knows<V>> for Rises<M> {
    ghost then = { Noted rises M.told };
}

pub(crate) struct Falls<M> {
    of: PhantomData<M>,
}

impl<S, V, M: Tells<S, V>> Play<S, Knows<V>> for Falls<M> {
    ghost then = { Noted falls M.told };
}

impl<S, V, K, P: TableRule<S, V, K>, A: Allocator> Logged<S, V, K, P, A> {
    /// Loads the word, and appends `load`: the word, and what was found, which comes back.
    pub fn load<M: Tells<S, V>, X>(
        &self,
        seat: &mut Seat<S, Knows<V>>,
        word: usize,
        _about: &X,
    ) -> u64
        requires { (seat.old.table_id ≡ self.now.kit.shared.table_id) × (word < self.now.kit.shared.table_id.words)
            × AllowsLoad (P.holds self.now.kit.shared.key) self.now.kit.shared.table_id.slots seat.old.id seat.old.me M.told word }
        ensures { (seat.new.table_id ≡ seat.old.table_id) × (seat.new.id ≡ seat.old.id)
            × Noted loads M.told (step self.now.kit.shared.table_id.slots word 0 0 none) seat.old.me result seat.new.me }
    {
        self.kit.shared.load::<Loads<M>>(seat, word)
    }

    /// Stores `new`, and appends `store`: the word, and what was stored.
    pub fn store<M: Tells<S, V>, X>(
        &self,
        seat: &mut Seat<S, Knows<V>>,
        word: usize,
        new: u64,
        _about: &X,
    )
        requires { (seat.old.table_id ≡ self.now.kit.shared.table_id) × (word < self.now.kit.shared.table_id.words)
            × AllowsStore (P.holds self.now.kit.shared.key) self.now.kit.shared.table_id.slots seat.old.id seat.old.me M.told word new }
        ensures { (seat.new.table_id ≡ seat.old.table_id) × (seat.new.id ≡ seat.old.id)
            × Noted stores M.told (step self.now.kit.shared.table_id.slots word new 0 none) seat.old.me new seat.new.me }
    {
        self.kit.shared.store::<Stores<M>>(seat, word, new);
    }

    /// Stores `new` and hands out what was there, and appends `swap`: the word, what was stored, and what was found.
    pub fn swap<M: Tells<S, V>, X>(
        &self,
        seat: &mut Seat<S, Knows<V>>,
        word: usize,
        new: u64,
        _about: &X,
    ) -> u64
        requires { (seat.old.table_id ≡ self.now.kit.shared.table_id) × (word < self.now.kit.shared.table_id.words)
            × AllowsSwap (P.holds self.now.kit.shared.key) self.now.kit.shared.table_id.slots seat.old.id seat.old.me M.told word new }
        ensures { (seat.new.table_id ≡ seat.old.table_id) × (seat.new.id ≡ seat.old.id)
            × Noted swaps M.told (step self.now.kit.shared.table_id.slots word new 0 none) seat.old.me result seat.new.me }
    {
        self.kit.shared.swap::<Swaps<M>>(seat, word, new)
    }

    /// Stores `new` where the word is `old`, and hands out what was there. Appends `exchange`: the word, what it had to be, what it
    /// was to become, and whether it did.
    pub fn compare_exchange<M: Tells<S, V>, X>(
        &self,
        seat: &mut Seat<S, Knows<V>>,
        word: usize,
        old: u64,
        new: u64,
        _about: &X,
    ) -> u64
        requires { (seat.old.table_id ≡ self.now.kit.shared.table_id) × (word < self.now.kit.shared.table_id.words)
            × AllowsExchange (P.holds self.now.kit.shared.key) self.now.kit.shared.table_id.slots seat.old.id seat.old.me M.told word old new }
        ensures { (seat.new.table_id ≡ seat.old.table_id) × (seat.new.id ≡ seat.old.id)
            × Noted exchanges M.told (step self.now.kit.shared.table_id.slots word old new none) seat.old.me result seat.new.me }
    {
        self.kit
            .shared
            .compare_exchange::<Exchanges<M>>(seat, word, old, new)
    }

    /// Sets these bits, and hands out what was there. Appends `set`: the word, the bits, and whether one of them was set before.
    pub fn fetch_or<M: Tells<S, V>, X>(
        &self,
        seat: &mut Seat<S, Knows<V>>,
        word: usize,
        bits: u64,
        _about: &X,
    ) -> u64
        requires { (seat.old.table_id ≡ self.now.kit.shared.table_id) × (word < self.now.kit.shared.table_id.words)
            × AllowsSet (P.holds self.now.kit.shared.key) self.now.kit.shared.table_id.slots seat.old.id seat.old.me M.told word bits }
        ensures { (seat.new.table_id ≡ seat.old.table_id) × (seat.new.id ≡ seat.old.id)
            × Noted sets M.told (step self.now.kit.shared.table_id.slots word bits 0 none) seat.old.me result seat.new.me }
    {
        self.kit.shared.fetch_or::<Sets<M>>(seat, word, bits)
    }

    /// Clears all but these bits, and hands out what was there. Appends `clear`: the word, and the bits that stay.
    pub fn fetch_and<M: Tells<S, V>, X>(
        &self,
        seat: &mut Seat<S, Knows<V>>,
        word: usize,
        bits: u64,
        _about: &X,
    ) -> u64
        requires { (seat.old.table_id ≡ self.now.kit.shared.table_id) × (word < self.now.kit.shared.table_id.words)
            × AllowsClear (P.holds self.now.kit.shared.key) self.now.kit.shared.table_id.slots seat.old.id seat.old.me M.told word bits }
        ensures { (seat.new.table_id ≡ seat.old.table_id) × (seat.new.id ≡ seat.old.id)
            × Noted clears M.told (step self.now.kit.shared.table_id.slots word bits 0 none) seat.old.me result seat.new.me }
    {
        self.kit.shared.fetch_and::<Clears<M>>(seat, word, bits)
    }

    /// Adds `more` to the word, modulo 2^64, and hands out what was there. Appends `rise`: the word, and how much.
    pub fn fetch_add<M: Tells<S, V>, X>(
        &self,
        seat: &mut Seat<S, Knows<V>>,
        word: usize,
        more: u64,
        _about: &X,
    ) -> u64
        requires { (seat.old.table_id ≡ self.now.kit.shared.table_id) × (word < self.now.kit.shared.table_id.words)
            × AllowsRise (P.holds self.now.kit.shared.key) self.now.kit.shared.table_id.slots seat.old.id seat.old.me M.told word more }
        ensures { (seat.new.table_id ≡ seat.old.table_id) × (seat.new.id ≡ seat.old.id)
            × Noted rises M.told (step self.now.kit.shared.table_id.slots word more 0 none) seat.old.me result seat.new.me }
    {
        self.kit.shared.fetch_add::<Rises<M>>(seat, word, more)
    }

    /// Subtracts `less` from the word, modulo 2^64, and hands out what was there. Appends `fall`: the word, and how much.
    pub fn fetch_sub<M: Tells<S, V>, X>(
        &self,
        seat: &mut Seat<S, Knows<V>>,
        word: usize,
        less: u64,
        _about: &X,
    ) -> u64
        requires { (seat.old.table_id ≡ self.now.kit.shared.table_id) × (word < self.now.kit.shared.table_id.words)
            × AllowsFall (P.holds self.now.kit.shared.key) self.now.kit.shared.table_id.slots seat.old.id seat.old.me M.told word less }
        ensures { (seat.new.table_id ≡ seat.old.table_id) × (seat.new.id ≡ seat.old.id)
            × Noted falls M.told (step self.now.kit.shared.table_id.slots word less 0 none) seat.old.me result seat.new.me }
    {
        self.kit.shared.fetch_sub::<Falls<M>>(seat, word, less)
    }
}
