// What a packet block holds.
ghost use Rattle.std.specs.Prelude.{◌≡◌, ◌+◌, ◌≤◌, ◌<◌, length};
ghost use Rattle.lq_pcapng.specs.Pcapng.{captured_length as captured_length_of, cut_to, data_place as data_place_of, interface_number as interface_number_of, is_enhanced as is_enhanced_block, packet_fault, padded as padded_length, block_wire_length as wire_length_of};
ghost use Rattle.lq_pcapng.specs.Reading.{AreInterfaces, IsTested, blocks_at};

use crate::blocks::interface;
use crate::layout::{
    ENHANCED, ENHANCED_CAPTURED, ENHANCED_DATA, ENHANCED_INTERFACE, ENHANCED_LENGTH, LENGTH_AGAIN,
    MAX_CAPTURED_LENGTH, SIMPLE_DATA, SIMPLE_LENGTH, SNAPSHOT_LENGTH, TYPE,
};
use crate::numbers::number;
use lq_model::CaptureReason;

/// Whether a packet block is an enhanced one.
pub fn is_enhanced(block: &[u8], little_endian: bool) -> bool
    requires { 12 ≤ length block.now }
    ensures { result ≡ is_enhanced_block little_endian block.now }
{
    number(block, little_endian, TYPE) == ENHANCED
}

/// Where the data of a packet block stands.
pub fn data_place(block: &[u8], little_endian: bool) -> usize
    requires { 12 ≤ length block.now }
    ensures { result ≡ data_place_of little_endian block.now }
{
    if is_enhanced(block, little_endian) {
        ENHANCED_DATA
    } else {
        SIMPLE_DATA
    }
}

/// The length on the wire that a packet block says.
pub fn wire_length(block: &[u8], little_endian: bool) -> u32
    requires { data_place_of little_endian block.now ≤ length block.now }
    ensures { result ≡ wire_length_of little_endian block.now }
{
    let place = if is_enhanced(block, little_endian) {
        ENHANCED_LENGTH
    } else {
        SIMPLE_LENGTH
    };
    number(block, little_endian, place)
}

/// The number of the interface of a packet block. A simple one is of interface 0.
pub fn interface_number(block: &[u8], little_endian: bool) -> usize
    requires { data_place_of little_endian block.now ≤ length block.now }
    ensures { result ≡ interface_number_of little_endian block.now }
{
    if is_enhanced(block, little_endian) {
        number(block, little_endian, ENHANCED_INTERFACE) as usize
    } else {
        0
    }
}

// As many of `len` bytes as a snapshot length lets through.
fn cut(limit: u32, len: u32) -> u32
    ensures { result ≡ cut_to limit len }
{
    if limit != 0 && limit < len {
        limit
    } else {
        len
    }
}

/// How many bytes of the packet a packet block holds. A simple one doesn't say it: it is cut to the snapshot length of
/// interface 0.
pub fn captured_length(bytes: &[u8], little_endian: bool, interfaces: &[usize], block: &[u8]) -> u32
    requires fields { data_place_of little_endian block.now ≤ length block.now }
    requires some { 0 < length interfaces.now }
    requires interfaces { AreInterfaces little_endian bytes.now interfaces.now }
    ensures { result ≡ captured_length_of little_endian (blocks_at little_endian bytes.now interfaces.now) block.now }
{
    if is_enhanced(block, little_endian) {
        return number(block, little_endian, ENHANCED_CAPTURED);
    }
    let first = interface(bytes, little_endian, interfaces, 0);
    let limit = number(first, little_endian, SNAPSHOT_LENGTH);
    cut(limit, number(block, little_endian, SIMPLE_LENGTH))
}

/// How many bytes `len` bytes take when they are filled up to a multiple of 4.
pub fn padded(len: u32) -> usize
    ensures { result ≡ padded_length len }
{
    (len as usize + 3) / 4 * 4
}

/// What keeps a packet block from being whole.
#[tactic(auto, unfolding(crate::specs::Pcapng::packet_fault))]
pub fn check_packet(
    bytes: &[u8],
    little_endian: bool,
    interfaces: &[usize],
    block: &[u8],
) -> Result<(), CaptureReason>
    requires long { 12 ≤ length block.now }
    requires interfaces { AreInterfaces little_endian bytes.now interfaces.now }
    ensures { IsTested (packet_fault little_endian (blocks_at little_endian bytes.now interfaces.now) block.now) result }
{
    let around = data_place(block, little_endian) + LENGTH_AGAIN;
    if block.len() < around {
        return Err(CaptureReason::BlockBody);
    }
    if interfaces.len() <= interface_number(block, little_endian) {
        return Err(CaptureReason::NoInterface);
    }
    let captured = captured_length(bytes, little_endian, interfaces, block);
    if captured > MAX_CAPTURED_LENGTH {
        return Err(CaptureReason::LongRecord);
    }
    if block.len() < around + padded(captured) {
        return Err(CaptureReason::BlockBody);
    }
    Ok(())
}
