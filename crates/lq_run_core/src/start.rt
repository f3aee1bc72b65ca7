//! How the calls of a seat begin.
ghost use Rattle.std.specs.Prelude.{◌≡◌, ◌<◌, ◌+◌, ℕ, true, if◌then◌else◌};
ghost use Rattle.lq_model.specs.declared.machine.Beginning.TheVariants.{Transmits};
ghost use Rattle.lq_model.specs.Machine.{Machine as State};
ghost use Rattle.lq_model.specs.Steps.{is_idle, may_begin, begun};
ghost use Rattle.lq_run_core.specs.Numbered.{NumberedMachine, beginning_of, is_send};

use crate::qdisc::at;
use lq_model::{Call, Packet, Position, Seat};

/// How a call of a seat begins.
#[derive(Clone, Copy)]
pub enum Start {
    /// A transmit of the next packet, in this band, on queue 0.
    Send { band: u32 },
    /// The soft interrupt of a raised seat.
    SoftIrq,
    /// Opens queue 0 where it is stopped.
    Wake,
    /// A transmit of the next packet, in this band, on this queue.
    SendOn { band: u32, queue: u32 },
    /// Opens this queue where it is stopped.
    WakeOn { queue: u32 },
}

impl Start {
    /// Whether it sends the next packet.
    pub(crate) fn is_send(&self) -> bool
        ensures { result ≡ is_send self.now }
    {
        match self {
            Start::Send { .. } | Start::SendOn { .. } => true,
            Start::SoftIrq | Start::Wake | Start::WakeOn { .. } => false,
        }
    }

    /// The number of the packet behind it, where this is the number of the next one.
    pub(crate) fn next_number(&self, next: u32) -> u32
        requires { is_send self.now ≡ true → next < 1000000 }
        ensures { result ≡ (if is_send self.now then next + 1 else next) }
    {
        if self.is_send() { next + 1 } else { next }
    }

    /// Whether a seat can begin this: it is idle, and for a soft interrupt raised.
    pub(crate) fn may_begin(&self, old: Seat) -> bool
        ensures { (seat : ℕ) (r : NumberedMachine) → result ≡ may_begin (beginning_of self.now seat r) old }
    {
        match self {
            Start::SoftIrq => is_idle(old.position) && old.raised,
            Start::Send { .. } | Start::SendOn { .. } | Start::Wake | Start::WakeOn { .. } =>
                is_idle(old.position),
        }
    }

    /// The seat as its call begins; the packet of a send is the next one, and its owner the seat.
    pub(crate) fn begun(&self, old: Seat, seat: u32, next: u32) -> Seat
        ensures { (m : State) → result ≡ begun (beginning_of self.now seat (record { machine = m; next = next })) old }
    {
        match self {
            Start::Send { band } => transmits(old, seat, next, *band, 0),
            Start::SendOn { band, queue } => transmits(old, seat, next, *band, *queue),
            Start::SoftIrq => Seat {
                position: Position::Enter(Call::SoftInterrupt),
                raised: false,
                run: old.run,
            },
            Start::Wake => at(old, Position::Wake { queue: 0 }),
            Start::WakeOn { queue } => at(old, Position::Wake { queue: *queue }),
        }
    }
}

fn is_idle(position: Position) -> bool
    ensures { result ≡ is_idle position }
{
    match position {
        Position::Idle => true,
        _ => false,
    }
}

fn transmits(old: Seat, owner: u32, number: u32, band: u32, queue: u32) -> Seat
    ensures { result ≡ begun (Transmits (record { number = number; owner = owner; band = band; queue = queue })) old }
{
    at(
        old,
        Position::Enter(Call::Transmit(Packet {
            number,
            owner,
            band,
            queue,
        })),
    )
}
