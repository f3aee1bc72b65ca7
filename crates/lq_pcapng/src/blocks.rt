// Blocks by the places where they stand.
ghost use Rattle.std.specs.Prelude.{◌≡◌, ◌≤◌, ◌<◌, length};
ghost use Rattle.lq_pcapng.specs.Pcapng.{interface_at};
ghost use Rattle.lq_pcapng.specs.Reading.{AreInterfaces, IsInterface, IsWholeAt, block_at, blocks_at};

use crate::layout::TOTAL_LENGTH;
use crate::numbers::number;

/// The block at a place where one is known to stand.
pub fn block(bytes: &[u8], little_endian: bool, place: usize) -> &[u8]
    requires { IsWholeAt little_endian bytes.now place }
    ensures block { result.now ≡ block_at little_endian bytes.now place }
    ensures long { 12 ≤ length result.now }
{
    let rest = &bytes[place..];
    &rest[..number(rest, little_endian, TOTAL_LENGTH) as usize]
}

/// Interface description block `i`.
pub fn interface<'a>(
    bytes: &'a [u8],
    little_endian: bool,
    interfaces: &[usize],
    i: usize,
) -> &'a [u8]
    requires number { i < length interfaces.now }
    requires interfaces { AreInterfaces little_endian bytes.now interfaces.now }
    ensures block { result.now ≡ interface_at (blocks_at little_endian bytes.now interfaces.now) i }
    ensures is { IsInterface little_endian result.now }
{
    block(bytes, little_endian, interfaces[i])
}
