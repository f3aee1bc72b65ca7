//! A band of a station, as a list and a number.
ghost use Rattle.std.specs.Prelude.{◌≡◌, ◌≤◌, ◌<◌, ◌+◌, ◌==◌, [], ◌∷◌, length, vec_len, if◌then◌else◌, OnOk, OnSome, IfNone, slice_get};

use lq_model::batch;
use std::alloc::{AllocError, Global};

/// A band: the packets that joined it since the last resize, and how many of them were taken.
#[derive(Drop)]
pub struct Line {
    pub joined: Vec<u32>,
    pub taken: usize,
    pub ghost within: { taken ≤ vec_len joined },
}

impl Line {
    ghost use Rattle.lq_model.specs.Band.{held_of, joined, resized, taken_by};
    ghost use Rattle.lq_model.specs.Alone.{is_occupied};
    ghost use Rattle.lq_lone.specs.Lone.{line_band};
    ghost use Rattle.lq_model.specs.Account.{emptied};

    pub fn new(alloc: Global) -> Line
        ensures { line_band result ≡ record { line = []; taken = 0 } }
    {
        Line {
            joined: Vec::new(alloc),
            taken: 0,
        }
    }

    pub fn held(&self) -> usize
        ensures { result ≡ length (held_of (line_band self.now)) }
    {
        self.joined.len() - self.taken
    }

    // Whether the slot that the next packet would have isn't empty.
    pub fn is_occupied(&self, len: u32) -> bool
        requires some { 0 < len }
        ensures { result ≡ is_occupied len (line_band self.now) }
    {
        let (held, batch) = (self.held(), batch(len));
        if held <= (len - batch) as usize {
            return false;
        }
        let stale = self.taken % len as usize % batch as usize;
        held + stale == len as usize
    }

    pub fn join(&mut self, n: u32) -> Result<(), AllocError>
        ensures ok { OnOk result (line_band self.new ≡ joined (line_band self.old) n) }
    {
        self.joined.push(n)?;
        Ok(())
    }

    // A packet joins it, or is dropped as full.
    pub fn join_or_drop(&mut self, n: u32, len: u32) -> Result<(), AllocError>
        requires some { 0 < len }
        ensures ok { OnOk result (line_band self.new ≡ (if is_occupied len (line_band self.old) then line_band self.old else joined (line_band self.old) n)) }
    {
        if self.is_occupied(len) {
            return Ok(());
        }
        self.join(n)
    }

    pub fn take(&mut self) -> Option<u32>
        ensures first { result ≡ slice_get (held_of (line_band self.old)) 0 }
        ensures some { OnSome result (line_band self.new ≡ taken_by (line_band self.old) 1) }
        ensures none { IfNone result (line_band self.new ≡ line_band self.old) }
    {
        if self.taken == self.joined.len() {
            return None;
        }
        let n = self.joined[self.taken];
        self.taken += 1;
        Some(n)
    }

    pub fn empty(&mut self)
        ensures { line_band self.new ≡ emptied (line_band self.old) }
    {
        self.taken = self.joined.len();
    }

    // Keeps the first that it holds, so many as `len`.
    pub fn resize(&mut self, len: u32)
        ensures { line_band self.new ≡ resized (line_band self.old) len }
    {
        let kept = self.held().min(len as usize);
        for i in 0..kept {
            self.joined[i] = self.joined[self.taken + i];
        }
        self.joined.truncate(kept);
        self.taken = 0;
    }
}
