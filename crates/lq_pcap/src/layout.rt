// Where the fields of a capture file stand, and what they may be.

/// How many bytes the file header has.
pub const HEADER: usize = 24;

/// The place of the first field of the file header, and what it is of times in microseconds and in nanoseconds.
pub const MAGIC: usize = 0;

pub const MICROSECONDS: u32 = 0xa1b2_c3d4;

pub const NANOSECONDS: u32 = 0xa1b2_3c4d;

/// The place of the version in the file header, and the one major version that is read.
pub const VERSION: usize = 4;

pub const MAJOR_VERSION: u16 = 2;

/// The place of the link type in the file header.
pub const LINK: usize = 20;

/// How many bytes the header of a record has.
pub const RECORD_HEADER: usize = 16;

/// The places of the two numbers of its time there: seconds, and microseconds or nanoseconds.
pub const SECONDS: usize = 0;

pub const FRACTION: usize = 4;

/// The place of the captured length in the header of a record, and its limit.
pub const CAPTURED_LENGTH: usize = 8;

pub const MAX_CAPTURED_LENGTH: u32 = 262_144;

/// The place of the length on the wire there.
pub const WIRE_LENGTH: usize = 12;

/// How many records a capture may have.
pub const MAX_RECORDS: usize = 1_000_000;
