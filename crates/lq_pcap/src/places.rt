//! Where the packets of a file stand.
ghost use Rattle.std.specs.Prelude.{◌≡◌, ◌<◌, ◌++◌, ◌∷◌, [], length, slice_index, OnOk, OnErr};

use std::alloc::{AllocError, Global};
use std::marker::Model;

/// The places of a file's packets, in its order. Contracts see the list of them.
///
/// A place takes 4 bytes, and 8 from the first on that lies behind 4 GiB: 1,000,000 packets of up to 262,144 bytes may reach so far.
#[derive(Drop)]
pub struct Places {
    /// Those before the first one from 2^32 on.
    near: Vec<u32>,
    /// That one and all behind it.
    far: Vec<usize>,
}

impl Model for Places {
    ghost use Rattle.std.specs.Prelude.{List, ℕ, ◌++◌};

    ghost Value = { List ℕ };

    ghost view = { λ p. p.near.items ++ p.far.items };
}

impl Places {
    /// No places.
    pub fn new(alloc: Global) -> Places
        ensures { result ≡ [] }
    {
        Places {
            near: Vec::new(alloc),
            far: Vec::new(alloc),
        }
    }

    /// How many places there are.
    #[inline(always)]
    pub fn len(&self) -> usize
        ensures { result ≡ length self.now }
    {
        self.near.len() + self.far.len()
    }

    /// Place `i`.
    #[inline(always)]
    pub fn at(&self, i: usize) -> usize
        requires { i < length self.now }
        ensures { result ≡ slice_index self.now i }
    {
        let near = self.near.len();
        if i < near {
            self.near[i] as usize
        } else {
            self.far[i - near]
        }
    }

    /// One place more, at the end.
    #[inline(always)]
    pub fn push(&mut self, place: usize) -> Result<(), AllocError>
        ensures ok { OnOk result (self.new ≡ self.old ++ place ∷ []) }
        ensures err { OnErr result (self.new ≡ self.old) }
    {
        if place <= u32::MAX as usize && self.far.is_empty() {
            self.near.push(place as u32)?;
        } else {
            self.far.push(place)?;
        }
        Ok(())
    }
}
