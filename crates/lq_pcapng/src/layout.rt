// Where the fields of the blocks stand, and what they may be.

/// The types of the blocks that are read. That of a section header block is the same in both byte orders.
pub const SECTION: u32 = 0x0a0d_0d0a;

pub const INTERFACE: u32 = 1;

pub const SIMPLE: u32 = 3;

pub const ENHANCED: u32 = 6;

/// The places of a block's type and of its total length, which stands again in its last bytes.
pub const TYPE: usize = 0;

pub const TOTAL_LENGTH: usize = 4;

pub const LENGTH_AGAIN: usize = 4;

/// How many bytes a block has at least, and one of each type that is read.
pub const MIN_BLOCK: usize = 12;

pub const MIN_SECTION: usize = 28;

pub const MIN_INTERFACE: usize = 20;

/// The first field of a section header block, and its place.
pub const BYTE_ORDER_MAGIC: u32 = 0x1a2b_3c4d;

pub const BYTE_ORDER: usize = 8;

/// The place of the version in a section header block, and the one major version that is read.
pub const VERSION: usize = 12;

pub const MAJOR_VERSION: u16 = 1;

/// The places of the length of the section, and of what stands behind it.
pub const SECTION_LENGTH: usize = 16;

pub const SECTION_OPTIONS: usize = 24;

/// The places of the link type and of the snapshot length in an interface description block.
pub const LINK: usize = 8;

pub const SNAPSHOT_LENGTH: usize = 12;

/// Where the options of an interface description block begin.
pub const INTERFACE_OPTIONS: usize = 16;

/// The places of an option's code and of the length of its value, and how many bytes these two have.
pub const OPTION_CODE: usize = 0;

pub const OPTION_LENGTH: usize = 2;

pub const OPTION_HEADER: usize = 4;

/// The codes of the options that are read, and how long their values are: `opt_endofopt`, `if_tsresol` and `if_tsoffset`.
pub const END_OF_OPTIONS: u16 = 0;

pub const RESOLUTION: u16 = 9;

pub const RESOLUTION_LENGTH: u16 = 1;

pub const OFFSET: u16 = 14;

pub const OFFSET_LENGTH: u16 = 8;

/// What `if_tsresol` is of an interface without it: its times are in microseconds.
pub const MICROSECONDS: u8 = 6;

/// The places of the interface, of the time, of the captured length and of the data in an enhanced packet block.
pub const ENHANCED_INTERFACE: usize = 8;

pub const ENHANCED_TIME_UPPER: usize = 12;

pub const ENHANCED_TIME_LOWER: usize = 16;

pub const ENHANCED_CAPTURED: usize = 20;

/// The place of the length on the wire there.
pub const ENHANCED_LENGTH: usize = 24;

pub const ENHANCED_DATA: usize = 28;

/// The places of the length on the wire and of the data in a simple packet block.
pub const SIMPLE_LENGTH: usize = 8;

pub const SIMPLE_DATA: usize = 12;

pub const MAX_CAPTURED_LENGTH: u32 = 262_144;

/// How many packets a capture may have.
pub const MAX_PACKETS: usize = 1_000_000;
