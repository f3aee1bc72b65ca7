// The journal of a host: what it was asked for, what it gave and what was handed to it. Only contracts see it: it is a token of the
// kit's `logbook` that has no bytes, and its log is extended by the calls of the hosts of this crate alone.
ghost use Rattle.std.specs.Prelude.{◌≡◌, ◌++◌, ◌∷◌, [], List, ℕ};
ghost use Rattle.lq_host.specs.Journal.{entry_of};

use crate::slots::Slot;
use logbook::{Opening, Rule, Seen, Start};
use std::marker::{Model, PhantomData};

/// Some bytes, as contracts see them. No value of it is made.
pub struct Bytes {
    of: PhantomData<()>,
    ghost all: { List ℕ },
}

impl Model for Bytes {
    ghost use Rattle.std.specs.Prelude.{List, ℕ};
    ghost use Rattle.std.specs.Borrow.{ftrue};
    ghost use Rattle.std.specs.Coded.{coded_list, coded_ℕ};

    ghost Value = { List ℕ };

    ghost coded = { coded_list coded_ℕ };

    ghost view = { λ b. b.all };

    ghost also_owns = { λ _. ftrue };
}

/// An entry of a journal. No value of it is made.
pub enum Entry {
    /// The file of this name was asked for.
    Asked { name: Bytes },
    /// A read of the file of this name returned these bytes.
    Returned { name: Bytes, bytes: Bytes },
    /// The file of this name got these bytes in place of its own.
    Filed { name: Bytes, bytes: Bytes },
    /// These bytes were handed to a write at the end of the file of this name.
    Appended { name: Bytes, bytes: Bytes },
    /// These bytes were handed to standard output.
    Printed { bytes: Bytes },
    /// A write to a handle that isn't open for writing.
    Nothing,
}

// What is told to a journal.
#[derive(Clone, Copy)]
pub(crate) enum Event<'a> {
    // The file of this name was asked for.
    Asked(&'a str),
    // A read of the file of this name filled the first bytes of the buffer, so many.
    Returned(&'a str, &'a [u8], usize),
    // The file of this name got these bytes.
    Filed(&'a str, &'a [u8]),
    // These bytes were handed to a write to this handle.
    Handed(&'a [Slot], u32, &'a [u8]),
}

// A book that tracks nothing.
pub(crate) struct Untracked {}

impl Rule<Entry, ()> for Untracked {
    ghost use Rattle.std.specs.Prelude.{[], ⊤};
    ghost use Rattle.std.specs.Borrow.{ftrue};

    ghost holds = { λ _ _. ⊤ };

    ghost first = { [] };

    ghost hinted = { λ _ _. ⊤ };

    ghost shows = { λ _. [] };

    ghost keeps = { λ _ _. ftrue };

    ghost moves = { λ _ _ _ _. ⊤ };
}

// How a journal begins.
struct Empty {}

// How it goes on.
struct More {}

impl Opening<(), Entry> for Empty {
    ghost use Rattle.std.specs.Prelude.{[]};

    ghost log = { λ _ _. [] };
}

impl Opening<(&Journal, &Event<'_>), Entry> for More {
    ghost use Rattle.std.specs.Prelude.{◌++◌, ◌∷◌, []};
    ghost use Rattle.lq_host.specs.Journal.{entry_of};

    ghost log = { λ _ about. about.0.now.seen.log ++ entry_of about.1.now ∷ [] };
}

// At run time nothing is done to it.
#[derive(Drop)]
pub(crate) struct Journal {
    pub(crate) seen: Seen<Entry, (), Untracked>,
}

impl Journal {
    // A journal with no entry.
    pub(crate) fn new() -> Journal
        ensures { result.seen.log ≡ [] }
    {
        let (seen, _) = Seen::open_row::<(), Empty>(&(), Start::alone(), 0);
        Journal { seen }
    }

    // One entry more.
    pub(crate) fn tell(&mut self, event: Event<'_>)
        ensures { self.new.seen.log ≡ self.old.seen.log ++ entry_of event.entry ∷ [] }
    {
        let (seen, _) = Seen::open_row::<(&Journal, &Event<'_>), More>(
            &(&*self, &event),
            Start::alone(),
            0,
        );
        self.seen = seen;
    }
}
