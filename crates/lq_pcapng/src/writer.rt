// Writing packets of a capture in the pcapng format again.
ghost use Rattle.std.specs.Prelude.{◌≡◌, ◌<◌, ◌++◌, OnOk, OnErr, length};
ghost use Rattle.std.specs.List.{concat};
ghost use Rattle.lq_pcapng.specs.Pcapng.{packet_block, without_length};

use crate::capture::NgCapture;
use crate::layout::{SECTION_LENGTH, SECTION_OPTIONS};
use lq_model::NoMemory;

/// A length of a section that says nothing, in either byte order.
const NO_LENGTH: [u8; 8] = [0xff; 8];

/// Writes a capture's section header block, which says nothing of its section's length, and all its interface
/// description blocks to the end of `out`.
///
/// # NoMemory
///
/// There was no room for them, and `out` may have the first of their bytes at its end.
pub fn push_section(out: &mut Vec<u8>, capture: &NgCapture) -> Result<(), NoMemory>
    ensures { OnOk result (out.new.items ≡ out.old.items ++ (without_length capture.now.section ++ concat capture.now.interfaces)) }
{
    let section = capture.section();
    push_bytes(out, &section[..SECTION_LENGTH])?;
    push_bytes(out, &NO_LENGTH)?;
    push_bytes(out, &section[SECTION_OPTIONS..])?;
    for i in 0..capture.interface_count() {
        push_bytes(out, capture.interface(i))?;
    }
    Ok(())
}

/// Writes packet block `i` of a capture, as it was read, to the end of `out`.
///
/// # NoMemory
///
/// There was no room for it, and `out` is as before.
pub fn push_block(out: &mut Vec<u8>, capture: &NgCapture, i: usize) -> Result<(), NoMemory>
    requires { i < length capture.now.packets }
    ensures ok { OnOk result (out.new.items ≡ out.old.items ++ packet_block capture.now i) }
    ensures err { OnErr result (out.new.items ≡ out.old.items) }
{
    push_bytes(out, capture.block(i))
}

// Writes bytes to the end of `out`.
fn push_bytes(out: &mut Vec<u8>, bytes: &[u8]) -> Result<(), NoMemory>
    ensures ok { OnOk result (out.new.items ≡ out.old.items ++ bytes.now) }
    ensures err { OnErr result (out.new.items ≡ out.old.items) }
{
    out.extend_from_slice(bytes).map_err(|_| NoMemory)
}
