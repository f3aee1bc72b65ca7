// When a packet came, in nanoseconds since the start of 1970.
ghost use Rattle.std.specs.Prelude.{◌≡◌, ◌*◌, ◌/◌, ◌≤◌, ◌<◌, ◌^◌, length};
ghost use Rattle.lq_pcapng.specs.Pcapng.{offset_by as offset_time, units_by, time_units};

use crate::interfaces::Clock;
use crate::layout::{ENHANCED_TIME_LOWER, ENHANCED_TIME_UPPER};
use crate::numbers::number;

const NANOSECONDS_IN_SECOND: u128 = 1_000_000_000;

/// The bit of `if_tsresol` that means a power of two.
const POWERS_OF_TWO: u8 = 0x80;

/// The greatest power of ten that may be less than 2^64 seconds in nanoseconds.
const MAX_POWER_OF_TEN: u8 = 28;

/// The time of an enhanced packet block by the clock of its interface.
pub fn time_by(clock: Clock, block: &[u8], little_endian: bool) -> u128
    requires { 28 ≤ length block.now }
    ensures { result ≡ offset_time clock.offset (time_units little_endian block.now * 1000000000 / units_by clock.resolution) }
{
    let time = nanoseconds(units(block, little_endian), clock.resolution);
    offset_by(clock.offset, time)
}

// How many units of its interface an enhanced packet block's time is.
fn units(block: &[u8], little_endian: bool) -> u64
    requires { 28 ≤ length block.now }
    ensures { result ≡ time_units little_endian block.now }
{
    let upper = number(block, little_endian, ENHANCED_TIME_UPPER);
    let lower = number(block, little_endian, ENHANCED_TIME_LOWER);
    u64::from(upper) * 0x1_0000_0000 + u64::from(lower)
}

// So many units in nanoseconds, rounded down, where a second has as many as the byte of `if_tsresol` says.
fn nanoseconds(units: u64, resolution: u8) -> u128
    ensures time { result ≡ units * 1000000000 / units_by resolution }
    ensures small { result ≤ units * 1000000000 }
{
    let scaled = u128::from(units) * NANOSECONDS_IN_SECOND;
    if resolution >= POWERS_OF_TWO {
        return scaled / 2u128.pow(u32::from(resolution - POWERS_OF_TWO));
    }
    if resolution > MAX_POWER_OF_TEN {
        return 0;
    }
    scaled / 10u128.pow(u32::from(resolution))
}

// A time with these seconds, a signed number; a time before 1970 is the start of 1970.
fn offset_by(seconds: u64, time: u128) -> u128
    requires { time < 2 ^ 100 }
    ensures { result ≡ offset_time seconds time }
{
    if seconds < 0x8000_0000_0000_0000 {
        time + u128::from(seconds) * NANOSECONDS_IN_SECOND
    } else {
        let back = u128::from(u64::MAX - seconds) + 1;
        time.saturating_sub(back * NANOSECONDS_IN_SECOND)
    }
}
