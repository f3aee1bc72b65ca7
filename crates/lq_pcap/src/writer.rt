//! Writing a file header and records.
ghost use Rattle.std.specs.Prelude.{◌≡◌, ◌<◌, ◌++◌, OnOk, OnErr};
ghost use Rattle.lq_model.specs.Capture.{header_of, record_of};

use crate::records::Capture;
use lq_model::NoMemory;

/// Writes a capture's file header to the end of `out`.
///
/// # NoMemory
///
/// There was no room for it, and `out` is as before.
pub fn push_header(out: &mut Vec<u8>, capture: &Capture) -> Result<(), NoMemory>
    ensures ok { OnOk result (out.new.items ≡ out.old.items ++ header_of capture.now) }
    ensures err { OnErr result (out.new.items ≡ out.old.items) }
{
    push_bytes(out, capture.header())
}

/// Writes record `i` of a capture, with the record's header, to the end of `out`: the bytes that were read.
///
/// # NoMemory
///
/// There was no room for it, and `out` is as before.
pub fn push_record(out: &mut Vec<u8>, capture: &Capture, i: usize) -> Result<(), NoMemory>
    requires { i < capture.now.count }
    ensures ok { OnOk result (out.new.items ≡ out.old.items ++ record_of capture.now i) }
    ensures err { OnErr result (out.new.items ≡ out.old.items) }
{
    push_bytes(out, capture.whole(i))
}

/// Writes bytes to the end of `out`.
pub fn push_bytes(out: &mut Vec<u8>, bytes: &[u8]) -> Result<(), NoMemory>
    ensures ok { OnOk result (out.new.items ≡ out.old.items ++ bytes.now) }
    ensures err { OnErr result (out.new.items ≡ out.old.items) }
{
    out.extend_from_slice(bytes).map_err(|_| NoMemory)
}
