//! A capture that was read: its header, its records and their frames.
ghost use Rattle.std.specs.Prelude.{◌≡◌, ◌<◌, ◌≤◌, length};
ghost use Rattle.lq_model.specs.Capture.{frame_of, header_of, link_of, place_of, record_of, time_of, wire_length};

use crate::layout::{FRACTION, HEADER, LINK, RECORD_HEADER, SECONDS, WIRE_LENGTH};
use crate::numbers::{begins_little_endian, fraction_unit, number};
use crate::places::Places;
use std::marker::Model;

/// A capture that was read. Contracts see the bytes of its file and the number of its records.
#[derive(Drop)]
pub struct Capture {
    /// A file header and whole records, as they were read.
    pub(crate) bytes: Vec<u8>,
    /// Where each record begins and, at the end, where the last one ends.
    pub(crate) places: Places,
}

impl Model for Capture {
    ghost use Rattle.lq_model.specs.Capture.{Capture};
    ghost use Rattle.lq_pcap.specs.View.{capture_view, capture_invariant};

    ghost Value = { Capture };

    ghost view = { capture_view };

    ghost invariant = { capture_invariant };
}

impl Capture {
    /// How many records the capture has.
    pub fn len(&self) -> usize
        ensures count { result ≡ self.now.count }
        ensures few { result ≤ 1000000 }
    {
        self.places.len() - 1
    }

    /// The packet of record `i`.
    pub fn frame(&self, i: usize) -> &[u8]
        requires { i < self.now.count }
        ensures { result.now ≡ frame_of self.now i }
    {
        &self.whole(i)[RECORD_HEADER..]
    }

    /// Record `i`, its header of 16 bytes and its packet.
    pub fn whole(&self, i: usize) -> &[u8]
        requires { i < self.now.count }
        ensures record { result.now ≡ record_of self.now i }
        ensures header { 16 ≤ length result.now }
    {
        &self.bytes[self.places.at(i)..self.places.at(i + 1)]
    }

    /// The 24 bytes of the file header.
    pub fn header(&self) -> &[u8]
        ensures bytes { result.now ≡ header_of self.now }
        ensures len { length result.now ≡ 24 }
    {
        &self.bytes[..HEADER]
    }

    /// The link type: 1 is Ethernet, 101 is raw IP.
    pub fn link(&self) -> u32
        ensures { result ≡ link_of self.now }
    {
        number(&self.bytes, begins_little_endian(&self.bytes), LINK)
    }

    /// The length on the wire of the packet of record `i`.
    #[tactic(auto, using(crate::proofs::Times::time_within))]
    pub fn wire_length(&self, i: usize) -> u32
        requires { i < self.now.count }
        ensures { result ≡ wire_length self.now.bytes (place_of self.now.bytes i) }
    {
        let little_endian = begins_little_endian(&self.bytes);
        number(&self.bytes, little_endian, self.places.at(i) + WIRE_LENGTH)
    }

    /// The time of record `i`, in nanoseconds since the start of 1970.
    #[tactic(auto, using(crate::proofs::Times::time_within))]
    pub fn time(&self, i: usize) -> u128
        requires { i < self.now.count }
        ensures { result ≡ time_of self.now i }
    {
        let little_endian = begins_little_endian(&self.bytes);
        let place = self.places.at(i);
        let seconds = number(&self.bytes, little_endian, place + SECONDS);
        let fraction = number(&self.bytes, little_endian, place + FRACTION);
        let unit = fraction_unit(&self.bytes, little_endian);
        u128::from(seconds) * 1_000_000_000 + u128::from(fraction) * unit
    }
}
