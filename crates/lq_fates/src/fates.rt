//! The fates of packets, wherever they are kept, and their text.
ghost use Rattle.std.specs.Prelude.{◌≡◌, ◌<◌, ◌++◌, IfOk, List, OnOk, Some, length, slice_get};
ghost use Rattle.std.specs.Fmt.{decimal};
ghost use Rattle.lq_model.specs.Texts.{fate_words, fates_text};
ghost use Rattle.lq_model.specs.declared.fate.Fate.{Fate};

use crate::line::{LINE, lay_line};
use crate::text::push_bytes;
use lq_model::{Fate, NoMemory};
use std::alloc::Global;
use std::marker::Sync;

/// What became of each packet of a capture, wherever that is kept.
pub trait Fates: Sync {
    /// Packet n has the n-th.
    ghost fates: { Self → List Fate };

    /// How many packets there are.
    fn len(&self) -> usize
        ensures { result ≡ length (fates self.now) };

    /// What became of packet `n`.
    fn fate(&self, n: usize) -> Fate
        requires { n < length (fates self.now) }
        ensures { slice_get (fates self.now) n ≡ Some result };
}

impl Fates for Vec<Fate> {
    ghost fates = { λ list. list.items };

    fn len(&self) -> usize {
        Vec::len(self)
    }

    fn fate(&self, n: usize) -> Fate {
        self[n]
    }
}

/// Writes the line that tells packet n's fate to the end of a text.
///
/// # NoMemory
///
/// There was no room for it.
pub fn push_fate_line(text: &mut Vec<u8>, n: usize, fate: Fate) -> Result<(), NoMemory>
    ensures { OnOk result (text.new.items ≡ text.old.items ++ (decimal n ++ fate_words fate)) }
{
    let mut line = [0; LINE];
    let line: &mut [u8] = &mut line;
    let start = lay_line(line, n, fate);
    push_bytes(text, &line[start..])
}

/// The lines that tell each packet's fate, in ascending number: packet n has the n-th fate.
///
/// # NoMemory
///
/// There was no room for the text.
pub fn fates_text(alloc: Global, fates: &[Fate]) -> Result<Vec<u8>, NoMemory>
    ensures { IfOk result (λ text. text.items ≡ fates_text fates.now) }
{
    let mut text = Vec::new(alloc);
    for (n, fate) in fates.iter().enumerate() {
        push_fate_line(&mut text, n, *fate)?;
    }
    Ok(text)
}
