//! How often a sender opens the queues after a packet. It counts its packets down to the next opening, so that no number is divided.
ghost use Rattle.std.specs.Prelude.{◌≡◌, ◌+◌, ℕ};
ghost use Rattle.lq_plan.specs.Openings.{opens_after, opens_within};
ghost use Rattle.lq_senders.specs.Woken.{CountsDown};

use crate::sender::Progress;
use lq_device::{is_multiple_next, left_after_one};
use lq_plan::Openings;

/// How many packets a sender has left to its first opening by their number.
pub fn left_at_start(openings: &Openings) -> u32
    ensures { CountsDown openings.now 0 result }
{
    match openings {
        Openings::Every { packets } => *packets,
        Openings::Listed { times: _ } | Openings::Wired { times: _ } => 0,
    }
}

/// How many are left once one packet more is sent.
pub fn left_after_packet(openings: &Openings, left: u32) -> u32
    ensures { (sent : ℕ) → CountsDown openings.now sent left → CountsDown openings.now (sent + 1) result }
{
    match openings {
        Openings::Every { packets } => left_after_one(left, *packets),
        Openings::Listed { times: _ } | Openings::Wired { times: _ } => 0,
    }
}

/// How often the queues are opened after packet `n`, before which its sender was so far.
pub fn opened_after(openings: &Openings, n: u32, at: Progress) -> u32
    requires within { opens_within openings.now n }
    requires counted { CountsDown openings.now at.sent at.left }
    ensures { result ≡ opens_after openings.now n at.sent }
{
    match openings {
        Openings::Every { packets: _ } => u32::from(is_multiple_next(at.left)),
        Openings::Listed { times: _ } | Openings::Wired { times: _ } => openings.after(n, at.sent),
    }
}
