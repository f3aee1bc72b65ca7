//! What a run is asked to do, what its senders share, and a sender.
ghost use Rattle.lq_senders.specs.Senders.{IsSendable};
ghost use Rattle.lq_senders.specs.Woken.{KnowOpenings, known-prop};

use lq_device::TxDevice;
use lq_gate::Gate;
use lq_model::Info;
use lq_plan::{Openings, Plan};
use lq_seat::{Seat, Table};

/// What a run is asked to do: to send packets under the plan, which allows them, and after each to open the stopped queues as often as
/// `openings` has it. Each sender passes the gate.
#[derive(Drop)]
pub struct Job<'r, G: Gate> {
    pub plan: &'r Plan,
    pub infos: &'r [Info],
    pub openings: &'r Openings,
    pub gate: &'r G,
    pub ghost sendable: { IsSendable plan.now infos.now },
    pub ghost known: { KnowOpenings openings.now infos.now } by { known-prop openings.now infos.now },
}

/// What all senders of a run share: what is asked, and the stations' tables.
#[derive(Drop)]
pub struct Run<'r, 't, 'a, D: TxDevice, G: Gate> {
    pub job: Job<'r, G>,
    pub tables: &'t [Table<'a, D>],
}

/// One sender, with its seats by station.
#[derive(Drop)]
pub struct Sender<D: TxDevice> {
    pub owner: u32,
    pub seats: Vec<Seat<D>>,
    /// The devices of the swaps to come, in order, and then those that swaps took away. They are the first sender's.
    pub spares: Vec<D>,
}

/// The senders of a run.
#[derive(Drop)]
pub struct Senders<D: TxDevice> {
    pub first: Sender<D>,
    pub others: Vec<Sender<D>>,
}

/// How far a sender is: how many packets it sent, and the plan's event that it does next.
#[derive(Clone, Copy)]
pub struct Progress {
    pub sent: u32,
    pub next: u32,
    /// How many of its packets are left to the next opening by their number; 0 where queues are opened by time.
    pub left: u32,
}
