//! A text that gets shorter at no cost.
ghost use Rattle.std.specs.Prelude.{◌≡◌, ◌++◌, ◌≤◌, [], IfOk, OnOk, drop, length};

use std::alloc::{AllocError, Global};

/// A text with room behind it: so many of the bytes are it. A vector that got shorter would drop each byte.
#[derive(Drop)]
pub struct Page {
    pub bytes: Vec<u8>,
    pub used: usize,
    pub ghost within: { used ≤ length bytes.items },
}

impl Page {
    ghost use Rattle.lq_wire.specs.Page.{page_text};

    /// No text, with so much room.
    pub fn new(alloc: Global, room: usize) -> Result<Page, AllocError>
        ensures { IfOk result (λ page. page_text page ≡ []) }
    {
        let bytes = Vec::from_elem(alloc, 0, room)?;
        Ok(Page { bytes, used: 0 })
    }

    /// The text.
    pub fn text(&self) -> &[u8]
        ensures text { result.now ≡ page_text self.now }
        ensures len { length result.now ≡ self.now.used }
    {
        &self.bytes[..self.used]
    }

    /// Writes more to its end.
    pub fn push(&mut self, more: &[u8]) -> Result<(), AllocError>
        ensures { OnOk result (page_text self.new ≡ page_text self.old ++ more.now) }
    {
        let end = self.used + more.len();
        if self.bytes.len() < end {
            self.bytes.extend_from_slice(more)?;
        }
        self.bytes[self.used..end].copy_from_slice(more);
        self.used = end;
        Ok(())
    }

    /// Takes its first bytes out, by one move of those behind them.
    pub fn drop_front(&mut self, count: usize)
        requires { count ≤ self.old.used }
        ensures { page_text self.new ≡ drop count (page_text self.old) }
    {
        self.bytes.copy_within(count..self.used, 0);
        self.used -= count;
    }
}
