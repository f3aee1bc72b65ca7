//! A capture in either format.
ghost use Rattle.std.specs.Prelude.{◌≡◌, ◌<◌, ◌++◌, [], OnOk};
ghost use Rattle.lq_pcap.specs.Reading.{Gives};
ghost use Rattle.lq_pcapng.specs.File.{capture_file_of, is_pcapng, packets_of_file, piece_of, text_of};

use crate::capture::NgCapture;
use crate::reader::read_pcapng;
use crate::writer::{push_block, push_section};
use lq_model::NoMemory;
use lq_pcap::{Capture, CaptureRefusal, Frames, push_header, push_record, read_capture};
use std::alloc::Global;

/// The type of a section header block, which is the same in both byte orders.
const SECTION_TYPE: [u8; 4] = [0x0a, 0x0d, 0x0d, 0x0a];

/// A capture in either format.
#[derive(Drop)]
pub enum CaptureFile {
    /// In the classic libpcap format.
    Classic(Capture),
    /// In the pcapng format.
    Pcapng(NgCapture),
}

// Whether the first four bytes are the type of a section header block.
fn begins_pcapng(bytes: &[u8]) -> bool
    ensures { result ≡ is_pcapng bytes.now }
{
    bytes.starts_with(&SECTION_TYPE)
}

/// The capture that the bytes are, in the format that their first four bytes choose. `timed` says whether times are read.
///
/// # Refused
///
/// As [`read_pcapng`] refuses them where they begin as a section header block does, and else as [`read_capture`] does.
///
/// # NoMemory
///
/// There was no room for the places of the packets. The bytes are dropped.
pub fn read_either(
    alloc: Global,
    bytes: Vec<u8>,
    timed: bool,
) -> Result<CaptureFile, CaptureRefusal>
    ensures { Gives (λ capture. capture) result (capture_file_of timed bytes.items) }
{
    if begins_pcapng(&bytes) {
        match read_pcapng(alloc, bytes, timed) {
            Ok(capture) => Ok(CaptureFile::Pcapng(capture)),
            Err(refusal) => Err(refusal),
        }
    } else {
        match read_capture(alloc, bytes) {
            Ok(capture) => Ok(CaptureFile::Classic(capture)),
            Err(refusal) => Err(refusal),
        }
    }
}

impl Frames for CaptureFile {
    ghost packets = { packets_of_file };

    fn len(&self) -> usize {
        match self {
            CaptureFile::Classic(capture) => capture.len(),
            CaptureFile::Pcapng(capture) => capture.len(),
        }
    }

    fn frame(&self, i: usize) -> &[u8] {
        match self {
            CaptureFile::Classic(capture) => capture.frame(i),
            CaptureFile::Pcapng(capture) => capture.frame(i),
        }
    }

    fn link_of(&self, i: usize) -> u32 {
        match self {
            CaptureFile::Classic(capture) => capture.link(),
            CaptureFile::Pcapng(capture) => capture.link_of(i),
        }
    }

    fn time(&self, i: usize, before: u128) -> u128 {
        match self {
            CaptureFile::Classic(capture) => capture.time(i),
            CaptureFile::Pcapng(capture) => capture.time(i, before),
        }
    }

    fn wire_length(&self, i: usize) -> u32 {
        match self {
            CaptureFile::Classic(capture) => capture.wire_length(i),
            CaptureFile::Pcapng(capture) => capture.wire_length(i),
        }
    }
}

impl CaptureFile {
    /// Writes the capture with none of its packets to the end of `out`: what stands before them.
    ///
    /// # NoMemory
    ///
    /// There was no room for it, and `out` may have the first of its bytes at its end.
    pub fn push_start(&self, out: &mut Vec<u8>) -> Result<(), NoMemory>
        ensures { OnOk result (out.new.items ≡ out.old.items ++ text_of self.now []) }
    {
        match self {
            CaptureFile::Classic(capture) => push_header(out, capture),
            CaptureFile::Pcapng(capture) => push_section(out, capture),
        }
    }

    /// Writes packet `i`, as it was read, to the end of `out`.
    ///
    /// # NoMemory
    ///
    /// There was no room for it, and `out` is as before.
    pub fn push_packet(&self, out: &mut Vec<u8>, i: usize) -> Result<(), NoMemory>
        requires { i < (packets_of_file self.now).count }
        ensures { OnOk result (out.new.items ≡ out.old.items ++ piece_of self.now i) }
    {
        match self {
            CaptureFile::Classic(capture) => push_record(out, capture, i),
            CaptureFile::Pcapng(capture) => push_block(out, capture, i),
        }
    }
}
