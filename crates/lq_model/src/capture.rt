//! Why bytes are no capture, as a type.

/// Why bytes are refused as a capture. The numbers are those that the refusal's line shows.
#[derive(Clone, Copy, Debug, PartialEq, Eq)]
pub enum CaptureReason {
    /// Fewer than the 24 bytes of the header.
    ShortHeader = 1,
    /// The first four bytes are neither magic number in either order.
    Magic,
    /// The major version isn't 2.
    Version,
    /// Fewer than the 16 bytes of a record's header are left.
    CutRecordHeader,
    /// A captured length above 262,144.
    LongRecord,
    /// Fewer bytes are left than the captured length says.
    CutData,
    /// More than 1,000,000 records.
    TooMany,
    /// More than 67,108,864 bytes, whatever they are.
    TooLong = 9,
    /// Of pcapng: fewer than the 12 bytes of the shortest block are left, or fewer than its length says.
    CutBlock,
    /// A block's length is below 12, is no multiple of 4, or is another at its end.
    BlockLength,
    /// The byte-order magic of the section header block fits in neither order.
    ByteOrder,
    /// A packet block of an interface that no block before it describes.
    NoInterface,
    /// A block too short for the fields of its type, or for the packet that it holds.
    BlockBody,
    /// A second section header block.
    SecondSection,
    /// A packet whose time is before that of the packet before it.
    TimeBack,
}
