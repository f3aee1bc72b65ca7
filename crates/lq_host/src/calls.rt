// The calls that a host in memory was asked for: how many there were, and which of them are to fail.
ghost use Rattle.std.specs.Prelude.{◌≡◌, ◌+◌, ◌-◌, ◌^◌, [], ◌∷◌, ◌++◌, min, IsTrue, ◌↔◌, Contains, OnOk, OnErr};
ghost use Rattle.lq_host.specs.Calls.{as_counts, no_calls, failing_at};

use std::alloc::{AllocError, Global};

/// A kind of call of a host, to name the calls that are to fail.
#[derive(Clone, Copy, Debug)]
pub enum HostCall {
    /// [`Host::open_read`](crate::Host::open_read).
    OpenRead,

    /// [`Host::create`](crate::Host::create).
    Create,

    /// [`Host::read`](crate::Host::read).
    Read,

    /// [`Host::write`](crate::Host::write).
    Write,

    /// [`Host::finish`](crate::Host::finish).
    Finish,
}

// The calls of one kind.
#[derive(Drop)]
pub(crate) struct CallCount {
    // How many were made. It stands still at `u64::MAX`.
    pub(crate) made: u64,
    // The numbers of those that are to fail, counted from 1.
    pub(crate) failing: Vec<u64>,
}

impl CallCount {
    fn new(alloc: Global) -> CallCount
        ensures made { result.made ≡ 0 }
        ensures failing { result.failing.items ≡ [] }
    {
        CallCount {
            made: 0,
            failing: Vec::new(alloc),
        }
    }

    // Counts a call, and tells whether it is one that is to fail.
    pub(crate) fn count(&mut self) -> bool
        ensures to_fail { IsTrue result ↔ Contains self.old.failing.items (self.old.made + 1) }
        ensures made { self.new.made ≡ min (self.old.made + 1) (2 ^ 64 - 1) }
        ensures failing { self.new.failing.items ≡ self.old.failing.items }
    {
        let made = self.made;
        self.made = made.saturating_add(1);
        self.failing.iter().any(|k| *k > made && *k - made == 1)
    }

    // The call with this number is to fail too.
    fn fail_at(&mut self, k: u64) -> Result<(), AllocError>
        ensures made { self.new.made ≡ self.old.made }
        ensures ok { OnOk result (self.new.failing.items ≡ self.old.failing.items ++ k ∷ []) }
        ensures err { OnErr result (self.new.failing.items ≡ self.old.failing.items) }
    {
        self.failing.push(k)?;
        Ok(())
    }
}

// The calls of each kind.
#[derive(Drop)]
pub(crate) struct CallCounts {
    // The calls of `open_read`.
    pub(crate) open_read: CallCount,
    // The calls of `create`.
    pub(crate) create: CallCount,
    // The calls of `read`.
    pub(crate) read: CallCount,
    // The calls of `write`.
    pub(crate) write: CallCount,
    // The calls of `finish`.
    pub(crate) finish: CallCount,
}

impl CallCounts {
    pub(crate) fn new(alloc: Global) -> CallCounts
        ensures { as_counts result ≡ no_calls }
    {
        CallCounts {
            open_read: CallCount::new(alloc),
            create: CallCount::new(alloc),
            read: CallCount::new(alloc),
            write: CallCount::new(alloc),
            finish: CallCount::new(alloc),
        }
    }

    // The call of this kind with this number is to fail too.
    pub(crate) fn fail_at(&mut self, call: HostCall, k: u64) -> Result<(), AllocError>
        ensures ok { OnOk result (as_counts self.new ≡ failing_at (as_counts self.old) call k) }
        ensures err { OnErr result (as_counts self.new ≡ as_counts self.old) }
    {
        match call {
            HostCall::OpenRead => self.open_read.fail_at(k)?,
            HostCall::Create => self.create.fail_at(k)?,
            HostCall::Read => self.read.fail_at(k)?,
            HostCall::Write => self.write.fail_at(k)?,
            HostCall::Finish => self.finish.fail_at(k)?,
        }
        Ok(())
    }
}
