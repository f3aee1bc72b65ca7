//! Texts that are written in pieces of 65,536 bytes, the last one shorter.
ghost use Rattle.std.specs.Prelude.{◌≡◌, ◌*◌, ◌++◌, ◌≤◌, ◌<◌, [], ℕ, drop, length, take, vec_len, OnOk, OnErr};
ghost use Rattle.lq_host.specs.Host.{IsWriter, wrote};
ghost use Rattle.lq_wire.specs.Page.{page_text};
ghost use Rattle.lq_files.specs.Parts.{IsFront, IsStreamed};
ghost use Rattle.lq_files.specs.Stop.{StopsFor};

use crate::answer::Stop;
use lq_host::Host;
use lq_wire::Page;

/// Bytes that are written at once.
pub const PIECE: usize = 65_536;

/// Writes a text to a handle, in pieces of 65,536 bytes, the last one shorter. Where it stops, a prefix was written.
pub fn write_text<H: Host>(host: &mut H, h: u32, text: &[u8]) -> Result<(), Stop>
    requires { IsWriter ((H.state host.old).handles h) }
    ensures handles { (H.state host.new).handles ≡ (H.state host.old).handles }
    ensures ok { OnOk result (H.state host.new ≡ wrote (H.state host.old) h text.now) }
    ensures err { OnErr result ((n : ℕ) × (n ≤ length text.now)
        × (H.state host.new ≡ wrote (H.state host.old) h (take n text.now))) }
    ensures cause { StopsFor (H.fault_count host.old) (H.fault_count host.new) result }
{
    let mut at = 0;
    while at < text.len() {
        let end = at + (text.len() - at).min(PIECE);
        host.write(h, &text[at..end])?;
        at = end;
    }
    Ok(())
}

/// Takes the first bytes out of a buffer, by one move of the bytes behind them.
fn drop_front(buffer: &mut Vec<u8>, count: usize)
    requires { count ≤ vec_len buffer.old }
    ensures { buffer.new.items ≡ drop count buffer.old.items }
{
    let rest = buffer.len() - count;
    buffer.copy_within(count.., 0);
    buffer.truncate(rest);
}

/// Writes the whole pieces of a buffer to a handle, and keeps the bytes behind them, which are fewer than a piece. Where
/// it stops, a prefix of the buffer was written.
pub fn write_whole_pieces<H: Host>(host: &mut H, h: u32, buffer: &mut Vec<u8>) -> Result<(), Stop>
    requires { IsWriter ((H.state host.old).handles h) }
    ensures handles { (H.state host.new).handles ≡ (H.state host.old).handles }
    ensures ok { OnOk result ((k : ℕ)
        × (H.state host.new ≡ wrote (H.state host.old) h (take (k * PIECE) buffer.old.items))
        × (buffer.new.items ≡ drop (k * PIECE) buffer.old.items)) }
    ensures rest { OnOk result (vec_len buffer.new < PIECE) }
    ensures err { OnErr result ((n : ℕ) × (n ≤ length buffer.old.items)
        × (H.state host.new ≡ wrote (H.state host.old) h (take n buffer.old.items))) }
    ensures cause { StopsFor (H.fault_count host.old) (H.fault_count host.new) result }
{
    if buffer.len() < PIECE {
        return Ok(());
    }
    let whole = buffer.len() / PIECE * PIECE;
    write_text(host, h, &buffer[..whole])?;
    drop_front(buffer, whole);
    Ok(())
}

/// Writes the whole pieces of a page to a handle, and keeps the bytes behind them. Where it stops, a prefix of the page was written.
pub fn write_whole_page<H: Host>(host: &mut H, h: u32, page: &mut Page) -> Result<(), Stop>
    requires { IsWriter ((H.state host.old).handles h) }
    ensures handles { (H.state host.new).handles ≡ (H.state host.old).handles }
    ensures ok { OnOk result ((k : ℕ)
        × (H.state host.new ≡ wrote (H.state host.old) h (take (k * PIECE) (page_text page.old)))
        × (page_text page.new ≡ drop (k * PIECE) (page_text page.old))) }
    ensures err { OnErr result ((n : ℕ) × (n ≤ length (page_text page.old))
        × (H.state host.new ≡ wrote (H.state host.old) h (take n (page_text page.old)))) }
    ensures cause { StopsFor (H.fault_count host.old) (H.fault_count host.new) result }
{
    let text = page.text();
    if text.len() < PIECE {
        return Ok(());
    }
    let whole = text.len() / PIECE * PIECE;
    write_text(host, h, &text[..whole])?;
    page.drop_front(whole);
    Ok(())
}

/// Writes a text to a handle behind the bytes that are kept from before, in whole pieces, and keeps the bytes behind them, which
/// are fewer than a piece. Where it stops, a prefix of both was written.
pub fn write_more<H: Host>(
    host: &mut H,
    h: u32,
    rest: &mut Vec<u8>,
    text: &[u8],
) -> Result<(), Stop>
    requires writer { IsWriter ((H.state host.old).handles h) }
    requires short { vec_len rest.old < PIECE }
    ensures handles { (H.state host.new).handles ≡ (H.state host.old).handles }
    ensures ok { OnOk result (IsStreamed (H.state host.old) h (H.state host.new) rest.new.items [] (rest.old.items ++ text.now)) }
    ensures short { OnOk result (vec_len rest.new < PIECE) }
    ensures err { OnErr result (IsFront (H.state host.old) h (H.state host.new) (rest.old.items ++ text.now)) }
    ensures cause { StopsFor (H.fault_count host.old) (H.fault_count host.new) result }
{
    let fill = text.len().min(PIECE - rest.len());
    let (first, more) = text.split_at(fill);
    rest.extend_from_slice(first)?;
    if rest.len() < PIECE {
        return Ok(());
    }
    write_text(host, h, rest)?;
    rest.clear();
    let (whole, last) = more.split_at(more.len() / PIECE * PIECE);
    write_text(host, h, whole)?;
    rest.extend_from_slice(last)?;
    Ok(())
}
