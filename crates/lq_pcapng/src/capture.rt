// A capture in the pcapng format: its blocks, as places in the bytes that were read.
ghost use Rattle.std.specs.Prelude.{◌≡◌, ◌-◌, ◌==◌, ◌<◌, ◌≤◌, if◌then◌else◌, length};
ghost use Rattle.lq_pcapng.specs.Pcapng.{frame_in, interface_at, link_in, order_of, packet_block, time_in, block_wire_length as wire_length_of};
ghost use Rattle.lq_pcapng.specs.Reading.{IsClock, IsPacket};

use crate::blocks::{block, interface};
use crate::interfaces::{Clock, clock_of};
use crate::layout::LINK;
use crate::numbers::{begins_little_endian, short_number};
use crate::packets::{captured_length, data_place, interface_number, is_enhanced, wire_length};
use crate::times::time_by;
use lq_pcap::{Frames, Places};
use std::marker::Model;

/// A capture that was read. Contracts see its section header block, its interface description blocks and its packet
/// blocks.
#[derive(Drop)]
pub struct NgCapture {
    /// The blocks of one section, as they were read.
    pub(crate) bytes: Vec<u8>,
    /// Where each interface description block begins.
    pub(crate) interfaces: Vec<usize>,
    /// Where each packet block begins.
    pub(crate) packets: Places,
    /// How each interface counts time, if times are read, and else none.
    pub(crate) clocks: Vec<Clock>,
}

impl Model for NgCapture {
    ghost use Rattle.lq_pcapng.specs.Pcapng.{NgCapture};
    ghost use Rattle.lq_pcapng.specs.View.{ng_capture_view, ng_capture_invariant};

    ghost Value = { NgCapture };

    ghost view = { ng_capture_view };

    ghost invariant = { ng_capture_invariant };
}

impl NgCapture {
    /// How many packets the capture has.
    pub fn len(&self) -> usize
        ensures count { result ≡ length self.now.packets }
        ensures few { result ≤ 1000000 }
    {
        self.packets.len()
    }

    /// The captured bytes of packet `i`.
    pub fn frame(&self, i: usize) -> &[u8]
        requires { i < length self.now.packets }
        ensures { result.now ≡ frame_in self.now (packet_block self.now i) }
    {
        let little_endian = self.is_little_endian();
        let block = self.block(i);
        let place = data_place(block, little_endian);
        let len = captured_length(&self.bytes, little_endian, &self.interfaces, block);
        &block[place..place + len as usize]
    }

    /// The link type of the interface of packet `i`: 1 is Ethernet, 101 is raw IP.
    pub fn link_of(&self, i: usize) -> u32
        requires { i < length self.now.packets }
        ensures { result ≡ link_in self.now (packet_block self.now i) }
    {
        let little_endian = self.is_little_endian();
        let number = interface_number(self.block(i), little_endian);
        u32::from(short_number(self.interface(number), little_endian, LINK))
    }

    /// The time of packet `i`, in nanoseconds since the start of 1970. A simple packet has that of the packet before it, which is
    /// `before`, and 0 before the first.
    #[tactic(auto, using(crate::proofs::PacketTime::time_from_before))]
    pub fn time(&self, i: usize, before: u128) -> u128
        requires known { i < length self.now.packets }
        requires before { before ≡ (if i == 0 then 0 else time_in self.now (i - 1)) }
        ensures { result ≡ time_in self.now i }
    {
        let little_endian = self.is_little_endian();
        let block = self.block(i);
        if !is_enhanced(block, little_endian) {
            return before;
        }
        let clock = self.clock(interface_number(block, little_endian));
        time_by(clock, block, little_endian)
    }

    /// The length on the wire of packet `i`.
    pub fn wire_length(&self, i: usize) -> u32
        requires { i < length self.now.packets }
        ensures { result ≡ wire_length_of (order_of self.now) (packet_block self.now i) }
    {
        wire_length(self.block(i), self.is_little_endian())
    }

    // How interface `i` counts time: as was found when the capture was read, or as its options say now.
    fn clock(&self, i: usize) -> Clock
        requires { i < length self.now.interfaces }
        ensures { IsClock (order_of self.now) (interface_at self.now.interfaces i) result }
    {
        if i < self.clocks.len() {
            self.clocks[i]
        } else {
            clock_of(self.interface(i), self.is_little_endian())
        }
    }

    /// The packet block `i`, as it was read.
    pub fn block(&self, i: usize) -> &[u8]
        requires { i < length self.now.packets }
        ensures block { result.now ≡ packet_block self.now i }
        ensures is { IsPacket (order_of self.now) self.now.interfaces result.now }
    {
        block(&self.bytes, self.is_little_endian(), self.packets.at(i))
    }

    /// How many interfaces the capture has.
    pub fn interface_count(&self) -> usize
        ensures { result ≡ length self.now.interfaces }
    {
        self.interfaces.len()
    }

    /// The interface description block `i`, as it was read.
    pub fn interface(&self, i: usize) -> &[u8]
        requires { i < length self.now.interfaces }
        ensures block { result.now ≡ interface_at self.now.interfaces i }
        ensures long { 20 ≤ length result.now }
    {
        interface(&self.bytes, self.is_little_endian(), &self.interfaces, i)
    }

    /// The section header block, as it was read.
    pub fn section(&self) -> &[u8]
        ensures block { result.now ≡ self.now.section }
        ensures long { 28 ≤ length result.now }
    {
        block(&self.bytes, self.is_little_endian(), 0)
    }

    /// Whether the numbers of the section have their lowest byte first.
    pub fn is_little_endian(&self) -> bool
        ensures { result ≡ order_of self.now }
    {
        begins_little_endian(&self.bytes)
    }
}

impl Frames for NgCapture {
    ghost use Rattle.lq_pcapng.specs.Pcapng.{packets_of};

    ghost packets = { packets_of };

    fn len(&self) -> usize {
        NgCapture::len(self)
    }

    fn frame(&self, i: usize) -> &[u8] {
        NgCapture::frame(self, i)
    }

    fn link_of(&self, i: usize) -> u32 {
        NgCapture::link_of(self, i)
    }

    fn time(&self, i: usize, before: u128) -> u128 {
        NgCapture::time(self, i, before)
    }

    fn wire_length(&self, i: usize) -> u32 {
        NgCapture::wire_length(self, i)
    }
}
