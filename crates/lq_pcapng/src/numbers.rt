// Numbers in the byte order of a section.
ghost use Rattle.std.specs.Prelude.{◌≡◌, ◌+◌, ◌≤◌, length};
ghost use Rattle.lq_pcapng.specs.Pcapng.{is_big_endian, is_little_endian, long_number as long_number_of, number_in, short_number_in};

use crate::layout::{BYTE_ORDER, BYTE_ORDER_MAGIC};
use byteorder::{BigEndian, ByteOrder as _, LittleEndian};

/// Whether the section's numbers have their lowest byte first.
pub fn begins_little_endian(section: &[u8]) -> bool
    requires { 12 ≤ length section.now }
    ensures { result ≡ is_little_endian section.now }
{
    LittleEndian::read_u32(&section[BYTE_ORDER..BYTE_ORDER + 4]) == BYTE_ORDER_MAGIC
}

/// Whether they have their highest byte first.
pub fn begins_big_endian(section: &[u8]) -> bool
    requires { 12 ≤ length section.now }
    ensures { result ≡ is_big_endian section.now }
{
    BigEndian::read_u32(&section[BYTE_ORDER..BYTE_ORDER + 4]) == BYTE_ORDER_MAGIC
}

/// The number of four bytes at a place of a block.
#[tactic(auto, unfolding(crate::specs::Pcapng::number_in))]
pub fn number(block: &[u8], little_endian: bool, place: usize) -> u32
    requires { place + 4 ≤ length block.now }
    ensures { result ≡ number_in little_endian block.now place }
{
    let field = &block[place..place + 4];
    if little_endian {
        LittleEndian::read_u32(field)
    } else {
        BigEndian::read_u32(field)
    }
}

/// The number of two bytes at a place of a block.
#[tactic(auto, unfolding(crate::specs::Pcapng::short_number_in))]
pub fn short_number(block: &[u8], little_endian: bool, place: usize) -> u16
    requires { place + 2 ≤ length block.now }
    ensures { result ≡ short_number_in little_endian block.now place }
{
    let field = &block[place..place + 2];
    if little_endian {
        LittleEndian::read_u16(field)
    } else {
        BigEndian::read_u16(field)
    }
}

/// The number of eight bytes.
pub fn long_number(value: &[u8], little_endian: bool) -> u64
    requires { length value.now ≡ 8 }
    ensures { result ≡ long_number_of little_endian value.now }
{
    if little_endian {
        LittleEndian::read_u64(value)
    } else {
        BigEndian::read_u64(value)
    }
}
