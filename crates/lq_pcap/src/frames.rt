//! Captured packets, in whatever format they were read.
ghost use Rattle.std.specs.Prelude.{◌≡◌, ◌-◌, ◌==◌, ◌≤◌, ◌<◌, if◌then◌else◌};
ghost use Rattle.lq_model.specs.Capture.{Packets};

use crate::records::Capture;

/// The packets of a capture, each with the link type by which its bytes are read.
pub trait Frames {
    /// What contracts see of them.
    ghost packets: { Self → Packets };

    /// How many packets there are.
    fn len(&self) -> usize
        ensures count { result ≡ (packets self.now).count }
        ensures few { result ≤ 1000000 };

    /// The captured bytes of packet `i`.
    fn frame(&self, i: usize) -> &[u8]
        requires { i < (packets self.now).count }
        ensures { result.now ≡ (packets self.now).frame i };

    /// The link type of packet `i`: 1 is Ethernet, 101 is raw IP.
    fn link_of(&self, i: usize) -> u32
        requires { i < (packets self.now).count }
        ensures { result ≡ (packets self.now).link i };

    /// The time of packet `i`, in nanoseconds since the start of 1970. `before` is the time of the packet before it, and 0
    /// before the first: a packet of a format that leaves its time out has that one.
    fn time(&self, i: usize, before: u128) -> u128
        requires known { i < (packets self.now).count }
        requires before { before ≡ (if i == 0 then 0 else (packets self.now).time (i - 1)) }
        ensures { result ≡ (packets self.now).time i };

    /// The length on the wire of packet `i`, which may be more than was captured.
    fn wire_length(&self, i: usize) -> u32
        requires { i < (packets self.now).count }
        ensures { result ≡ (packets self.now).length i };
}

impl Frames for Capture {
    ghost use Rattle.lq_model.specs.Capture.{packets_of};

    ghost packets = { packets_of };

    fn len(&self) -> usize {
        Capture::len(self)
    }

    fn frame(&self, i: usize) -> &[u8] {
        Capture::frame(self, i)
    }

    fn link_of(&self, _i: usize) -> u32 {
        self.link()
    }

    fn time(&self, i: usize, _before: u128) -> u128 {
        Capture::time(self, i)
    }

    fn wire_length(&self, i: usize) -> u32 {
        Capture::wire_length(self, i)
    }
}
