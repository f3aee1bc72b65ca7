// What an interface description block has.
ghost use Rattle.std.specs.Prelude.{◌≡◌, ◌≤◌, length, IfErr, IfOk};
ghost use Rattle.lq_pcapng.specs.Pcapng.{interface_fault, offset_of, units_by, units_in_second};
ghost use Rattle.lq_pcapng.specs.Reading.{AreClocks, AreInterfaces, IsClock, IsTested};

use crate::blocks::interface;
use crate::layout::{
    MICROSECONDS, MIN_INTERFACE, OFFSET, OFFSET_LENGTH, RESOLUTION, RESOLUTION_LENGTH,
};
use crate::numbers::long_number;
use crate::options::{has_whole_options, option};
use lq_model::CaptureReason;
use lq_pcap::CaptureRefusal;
use std::alloc::Global;

/// What keeps an interface description block from being whole.
#[tactic(auto, unfolding(crate::specs::Pcapng::interface_fault))]
pub fn check_interface(block: &[u8], timed: bool, little_endian: bool) -> Result<(), CaptureReason>
    ensures { IsTested (interface_fault timed little_endian block.now) result }
{
    if block.len() < MIN_INTERFACE {
        return Err(CaptureReason::BlockBody);
    }
    if timed && !has_whole_options(block, little_endian) {
        return Err(CaptureReason::BlockBody);
    }
    Ok(())
}

/// How an interface counts time, as its options say.
#[derive(Clone, Copy)]
pub struct Clock {
    /// The byte of `if_tsresol`, by which a second has so many units of time.
    pub resolution: u8,
    /// The seconds of `if_tsoffset`, as a number without a sign.
    pub offset: u64,
}

/// How an interface counts time.
pub fn clock_of(interface: &[u8], little_endian: bool) -> Clock
    requires { 20 ≤ length interface.now }
    ensures { IsClock little_endian interface.now result }
{
    Clock {
        resolution: resolution(interface, little_endian),
        offset: offset(interface, little_endian),
    }
}

/// How each interface counts time, if times are read, and else none: so each is looked at once.
pub fn clocks_of(
    alloc: Global,
    bytes: &[u8],
    timed: bool,
    little_endian: bool,
    interfaces: &[usize],
) -> Result<Vec<Clock>, CaptureRefusal>
    requires interfaces { AreInterfaces little_endian bytes.now interfaces.now }
    ensures clocks { IfOk result (λ clocks. AreClocks little_endian bytes.now interfaces.now clocks.items) }
    ensures err { IfErr result (λ refusal. refusal ≡ CaptureRefusal.NoMemory) }
{
    let mut clocks = Vec::new(alloc);
    if !timed {
        return Ok(clocks);
    }
    for i in 0..interfaces.len() {
        let block = interface(bytes, little_endian, interfaces, i);
        clocks.push(clock_of(block, little_endian))?;
    }
    Ok(clocks)
}

// The byte of `if_tsresol`.
fn resolution(interface: &[u8], little_endian: bool) -> u8
    requires { 20 ≤ length interface.now }
    ensures { units_by result ≡ units_in_second little_endian interface.now }
{
    match option(interface, little_endian, RESOLUTION, RESOLUTION_LENGTH) {
        Some(value) => value[0],
        None => MICROSECONDS,
    }
}

// The seconds of `if_tsoffset`, as a number without a sign.
fn offset(interface: &[u8], little_endian: bool) -> u64
    requires { 20 ≤ length interface.now }
    ensures { result ≡ offset_of little_endian interface.now }
{
    match option(interface, little_endian, OFFSET, OFFSET_LENGTH) {
        Some(value) => long_number(value, little_endian),
        None => 0,
    }
}
