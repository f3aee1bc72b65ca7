// The section header block, and the two lengths of any block.
ghost use Rattle.std.specs.Prelude.{◌≡◌, ◌+◌, ◌≤◌, ◌<◌, ◌^◌, length, OnOk};
ghost use Rattle.lq_pcapng.specs.Pcapng.{header_fault, total_length};
ghost use Rattle.lq_pcapng.specs.Reading.{IsChecked, IsBlockLength, IsSectionLength};

use crate::layout::{
    BYTE_ORDER, LENGTH_AGAIN, MAJOR_VERSION, MIN_BLOCK, MIN_SECTION, TOTAL_LENGTH, VERSION,
};
use crate::numbers::{begins_big_endian, begins_little_endian, number, short_number};
use lq_model::CaptureReason;
use lq_pcap::CaptureRefusal;

pub fn refused_at(reason: CaptureReason, place: usize) -> CaptureRefusal
    ensures { result ≡ CaptureRefusal.Refused reason place }
{
    CaptureRefusal::Refused {
        reason,
        place: place as u64,
    }
}

/// How long the section header block is with which the bytes begin, or what keeps it from being whole.
#[tactic(auto, unfolding(crate::specs::Pcapng::section_fault))]
pub fn section_len(bytes: &[u8]) -> Result<usize, CaptureRefusal>
    ensures { IsSectionLength bytes.now result }
{
    if bytes.len() < MIN_BLOCK {
        return Err(refused_at(CaptureReason::CutBlock, 0));
    }
    let little_endian = begins_little_endian(bytes);
    if !little_endian && !begins_big_endian(bytes) {
        return Err(refused_at(CaptureReason::ByteOrder, BYTE_ORDER));
    }
    let len = block_len(bytes, little_endian, 0)?;
    check_header(bytes, little_endian, len)?;
    Ok(len)
}

// Whether the section header block has its fields, and a version that is read.
#[tactic(auto, unfolding(crate::specs::Pcapng::header_fault))]
fn check_header(bytes: &[u8], little_endian: bool, len: usize) -> Result<(), CaptureRefusal>
    requires len { len ≡ total_length little_endian bytes.now }
    requires within { len ≤ length bytes.now }
    ensures checked { IsChecked (header_fault little_endian bytes.now) result }
    ensures long { OnOk result (28 ≤ len) }
{
    if len < MIN_SECTION {
        return Err(refused_at(CaptureReason::BlockBody, 0));
    }
    if short_number(bytes, little_endian, VERSION) != MAJOR_VERSION {
        return Err(refused_at(CaptureReason::Version, VERSION));
    }
    Ok(())
}

/// How long the block is with which `rest` begins, by both its lengths, or what keeps it from being whole. The block
/// begins at this place of the file.
#[tactic(auto, unfolding(crate::specs::Pcapng::length_fault))]
pub fn block_len(rest: &[u8], little_endian: bool, place: usize) -> Result<usize, CaptureRefusal>
    requires header { 12 ≤ length rest.now }
    requires place { place + length rest.now < 2 ^ 64 }
    ensures { IsBlockLength little_endian place rest.now result }
{
    let len = number(rest, little_endian, TOTAL_LENGTH) as usize;
    if len < MIN_BLOCK || len % 4 != 0 {
        return Err(refused_at(CaptureReason::BlockLength, place));
    }
    if rest.len() < len {
        return Err(refused_at(CaptureReason::CutBlock, place));
    }
    let again = len - LENGTH_AGAIN;
    if number(rest, little_endian, again) as usize != len {
        return Err(refused_at(CaptureReason::BlockLength, place + again));
    }
    Ok(len)
}
