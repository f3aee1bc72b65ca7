//! Numbers of a capture file, in the file's byte order.
ghost use Rattle.std.specs.Prelude.{◌≡◌, ◌+◌, ◌≤◌, if◌then◌else◌, length};
ghost use Rattle.lq_model.specs.Capture.{counts_nanoseconds, is_big_endian, is_little_endian, is_magic, major_version, number_at};

use crate::layout::{MAGIC, MICROSECONDS, NANOSECONDS, VERSION};
use byteorder::{BigEndian, ByteOrder as _, LittleEndian};

fn is_magic_number(number: u32) -> bool
    ensures { result ≡ is_magic number }
{
    number == MICROSECONDS || number == NANOSECONDS
}

/// Whether the file's numbers have their lowest byte first.
pub fn begins_little_endian(bytes: &[u8]) -> bool
    requires { 4 ≤ length bytes.now }
    ensures { result ≡ is_little_endian bytes.now }
{
    is_magic_number(LittleEndian::read_u32(&bytes[0..4]))
}

/// Whether they have their highest byte first.
pub fn begins_big_endian(bytes: &[u8]) -> bool
    requires { 4 ≤ length bytes.now }
    ensures { result ≡ is_big_endian bytes.now }
{
    is_magic_number(BigEndian::read_u32(&bytes[0..4]))
}

/// The number of four bytes at a place, in the byte order of the file.
#[tactic(auto, unfolding(lq_model::specs::Capture::number_at))]
pub fn number(bytes: &[u8], little_endian: bool, place: usize) -> u32
    requires within { place + 4 ≤ length bytes.now }
    requires order { little_endian ≡ is_little_endian bytes.now }
    ensures { result ≡ number_at bytes.now place }
{
    let field = &bytes[place..place + 4];
    if little_endian {
        LittleEndian::read_u32(field)
    } else {
        BigEndian::read_u32(field)
    }
}

/// How many nanoseconds a record's fraction of a second counts in, as the magic number says.
pub fn fraction_unit(bytes: &[u8], little_endian: bool) -> u128
    requires within { 4 ≤ length bytes.now }
    requires order { little_endian ≡ is_little_endian bytes.now }
    ensures { result ≡ (if counts_nanoseconds bytes.now then 1 else 1000) }
{
    if number(bytes, little_endian, MAGIC) == NANOSECONDS {
        1
    } else {
        1000
    }
}

#[tactic(auto, unfolding(lq_model::specs::Capture::short_number_at))]
pub fn major(bytes: &[u8], little_endian: bool) -> u16
    requires within { 6 ≤ length bytes.now }
    requires order { little_endian ≡ is_little_endian bytes.now }
    ensures { result ≡ major_version bytes.now }
{
    let field = &bytes[VERSION..VERSION + 2];
    if little_endian {
        LittleEndian::read_u16(field)
    } else {
        BigEndian::read_u16(field)
    }
}
