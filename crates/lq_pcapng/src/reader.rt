// Reading a capture in the pcapng format: the blocks one after the other, each as its type asks.
ghost use Rattle.std.specs.Prelude.{◌≡◌, ◌≤◌, ◌==◌, ◌||◌, drop, length, IfErr, IfOk, OnOk};
ghost use Rattle.lq_pcapng.specs.Pcapng.{body_fault, is_little_endian, pcapng_of, section_fault, total_length};
ghost use Rattle.lq_pcap.specs.Reading.{Gives};
ghost use Rattle.lq_pcapng.specs.Reading.{AreInterfaces, IsTested, IsWholeLength, blocks_at, noted_if};
ghost use Rattle.lq_pcapng.specs.View.{IsRead, capture_at};

use crate::capture::NgCapture;
use crate::interfaces::{check_interface, clocks_of};
use crate::layout::{ENHANCED, INTERFACE, MAX_PACKETS, MIN_BLOCK, SECTION, SIMPLE, TYPE};
use crate::numbers::{begins_little_endian, number};
use crate::packets::check_packet;
use crate::section::{block_len, refused_at, section_len};
use lq_model::CaptureReason;
use lq_pcap::{CaptureRefusal, Places};
use std::alloc::Global;

/// Where the blocks of interfaces and of packets begin that were read so far.
#[derive(Drop)]
struct BlockPlaces {
    interfaces: Vec<usize>,
    packets: Places,
}

/// The capture that the bytes are, whose first four are the type of a section header block. It keeps them, and the
/// places of its interfaces and of its packets beside them. `timed` says whether times are read: only then are options of
/// interfaces looked at.
///
/// # Refused
///
/// The first test that the bytes fail. Of the section header block: `CutBlock` at 0, `ByteOrder` at 8, the tests of its
/// lengths, `BlockBody` at 0 and `Version` at 12. Of each other block, at the place where it begins: `CutBlock`, the
/// tests of its lengths, `SecondSection`, for an interface `BlockBody`, where times are read of its options too, and for a packet `TooMany`, `BlockBody`,
/// `NoInterface`, `LongRecord` and `BlockBody`. The tests of the lengths are `BlockLength` and `CutBlock` where the block
/// begins, and `BlockLength` where its length stands again.
///
/// # NoMemory
///
/// There was no room for the places of the interfaces, 8 bytes each, and of the packets, 4 bytes each, and 8 behind 4 GiB; nor, where
/// times are read, for 16 bytes for each interface. The bytes are dropped.
pub fn read_pcapng(alloc: Global, bytes: Vec<u8>, timed: bool) -> Result<NgCapture, CaptureRefusal>
    ensures { Gives (λ capture. capture) result (pcapng_of timed bytes.items) }
{
    let first = section_len(&bytes)?;
    let little_endian = begins_little_endian(&bytes);
    let places = places_of(alloc, &bytes, timed, little_endian, first)?;
    let clocks = clocks_of(alloc, &bytes, timed, little_endian, &places.interfaces)?;
    Ok(NgCapture {
        bytes,
        interfaces: places.interfaces,
        packets: places.packets,
        clocks,
    })
}

// The places of the interfaces and packets behind the section header block.
fn places_of(
    alloc: Global,
    bytes: &[u8],
    timed: bool,
    little_endian: bool,
    first: usize,
) -> Result<BlockPlaces, CaptureRefusal>
    requires order { little_endian ≡ is_little_endian bytes.now }
    requires section { section_fault bytes.now ≡ None }
    requires len { first ≡ total_length little_endian bytes.now }
    requires long { 28 ≤ first }
    requires within { first ≤ length bytes.now }
    ensures read { IfOk result (λ places. IsRead bytes.now places.interfaces.items places.packets) }
    ensures capture { Gives (λ places. capture_at bytes.now places.interfaces.items places.packets) result (pcapng_of timed bytes.now) }
{
    let mut places = BlockPlaces {
        interfaces: Vec::new(alloc),
        packets: Places::new(alloc),
    };
    let mut place = first;
    while place < bytes.len() {
        let rest = &bytes[place..];
        let len = whole_len(bytes, timed, little_endian, &places, place)?;
        places.note(number(rest, little_endian, TYPE), place)?;
        place += len;
    }
    Ok(places)
}

// How long the block at a place is, or what keeps it from being whole.
#[tactic(auto, unfolding(crate::specs::Pcapng::block_fault))]
fn whole_len(
    bytes: &[u8],
    timed: bool,
    little_endian: bool,
    places: &BlockPlaces,
    place: usize,
) -> Result<usize, CaptureRefusal>
    requires within { place ≤ length bytes.now }
    requires interfaces { AreInterfaces little_endian bytes.now places.now.interfaces.items }
    ensures { IsWholeLength timed little_endian place (blocks_at little_endian bytes.now places.now.interfaces.items)
        (length places.now.packets) (drop place bytes.now) result }
{
    let rest = &bytes[place..];
    if rest.len() < MIN_BLOCK {
        return Err(refused_at(CaptureReason::CutBlock, place));
    }
    let len = block_len(rest, little_endian, place)?;
    match check_body(bytes, timed, little_endian, places, &rest[..len]) {
        Ok(()) => Ok(len),
        Err(reason) => Err(refused_at(reason, place)),
    }
}

// What keeps a block from being whole behind these, by its type.
#[tactic(auto, unfolding(crate::specs::Pcapng::body_fault))]
fn check_body(
    bytes: &[u8],
    timed: bool,
    little_endian: bool,
    places: &BlockPlaces,
    block: &[u8],
) -> Result<(), CaptureReason>
    requires long { 12 ≤ length block.now }
    requires interfaces { AreInterfaces little_endian bytes.now places.now.interfaces.items }
    ensures { IsTested (body_fault timed little_endian (blocks_at little_endian bytes.now places.now.interfaces.items)
        (length places.now.packets) block.now) result }
{
    match number(block, little_endian, TYPE) {
        SECTION => Err(CaptureReason::SecondSection),
        INTERFACE => check_interface(block, timed, little_endian),
        ENHANCED | SIMPLE if places.packets.len() >= MAX_PACKETS => Err(CaptureReason::TooMany),
        ENHANCED | SIMPLE => check_packet(bytes, little_endian, &places.interfaces, block),
        _ => Ok(()),
    }
}

impl BlockPlaces {
    // Keeps the place of a block of this type, if it is one of an interface or of a packet.
    fn note(&mut self, block_type: u32, place: usize) -> Result<(), CaptureRefusal>
        ensures interfaces { OnOk result (self.new.interfaces.items ≡ noted_if (block_type == 1) place self.old.interfaces.items) }
        ensures packets { OnOk result (self.new.packets ≡ noted_if ((block_type == 6) || (block_type == 3)) place self.old.packets) }
        ensures err { IfErr result (λ refusal. refusal ≡ CaptureRefusal.NoMemory) }
    {
        match block_type {
            INTERFACE => self.interfaces.push(place)?,
            ENHANCED | SIMPLE => self.packets.push(place)?,
            _ => {}
        }
        Ok(())
    }
}
