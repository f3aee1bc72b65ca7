//! A sender's seat at a station's table.
ghost use Rattle.std.specs.Prelude.{◌≡◌, ◌<◌, ◌≤◌, true, false};
ghost use Rattle.lq_model.specs.Plan.{Plan as PlanRecord, is_swap_kind, unit_of_swap};
ghost use Rattle.lq_model.specs.declared.device.Params.{Params};
ghost use Rattle.lq_seat.specs.Calls.{Changes, DoesEvent, DoesSwap, Drains, IsBeside, LoadsBase, MaySendNext, Joins, MayChange, MaySwap, SendsPacket, WakesQueues, keeping_seat, offspring_seat};
ghost use Rattle.lq_seat.specs.Ends.{Finishes, MayFinish};
ghost use Rattle.lq_seat.specs.State.{IsHere, times};

use crate::table::Table;
use lq_control::{down, resize, swap, tx_queue_len, up};
use lq_device::TxDevice;
use lq_model::EventKind;
use lq_qdisc::{irq, transmit};
use lq_table::Cpu;
use std::marker::Model;
use std::sync::Wait;

/// A sender's seat at a station's table, between two calls.
#[derive(Drop)]
pub struct Seat<D: TxDevice> {
    pub(crate) cpu: Cpu<D>,
}

impl<D: TxDevice> Model for Seat<D> {
    ghost use Rattle.lq_seat.specs.Rests.{IsSeatBetween};
    ghost use Rattle.lq_seat.specs.State.{SeatState, seat_seen};

    ghost Value = { SeatState };

    ghost view = { λ s. seat_seen s.cpu };

    ghost invariant = { λ s. IsSeatBetween s.cpu };
}

/// The plan's event that swaps a device, and the unit that it brings.
#[derive(Clone, Copy, Drop)]
pub struct Brought {
    /// The event's number in the plan.
    pub event: u32,
    /// The number of the unit, above every one that the station had.
    pub unit: u32,
}

impl<D: TxDevice> Seat<D> {
    /// Sends packet `n`, the next of its owner, and does what soft interrupts the seat then owes.
    pub fn send<'a, R: Wait>(&mut self, rt: &R, table: &Table<'a, D>, n: u32)
        requires here { IsHere table.now self.old }
        requires next { MaySendNext n self.old }
        requires raised { self.old.raised ≡ false }
        ensures { SendsPacket n self.old self.new }
    {
        let _sending = transmit(rt, &table.shared, &mut self.cpu, n);
        if self.cpu.raised() {
            self.drain(rt, table);
        }
    }

    /// Wakes the station's queues, as a driver's interrupt does: the stop word of each is looked at in this call, and exchanged
    /// where it is 1. Whether one was opened.
    pub fn wake<'a>(&mut self, table: &Table<'a, D>) -> bool
        requires here { IsHere table.now self.old }
        ensures { WakesQueues result self.old self.new }
    {
        irq(&table.shared, &mut self.cpu)
    }

    /// Does soft interrupts as long as the seat owes one.
    pub fn drain<'a, R: Wait>(&mut self, rt: &R, table: &Table<'a, D>)
        requires here { IsHere table.now self.old }
        ensures { Drains self.old self.new }
    {
        if self.cpu.raised() {
            lq_control::drain(rt, &table.shared, &mut self.cpu);
        }
    }

    /// Does an event of the plan, which isn't a swap of the device, up to the soft interrupts.
    fn change<'a, R: Wait>(&mut self, rt: &R, table: &Table<'a, D>, event: u32, kind: EventKind)
        requires here { IsHere table.now self.old }
        requires may { MayChange kind self.old × (is_swap_kind kind ≡ false) }
        ensures here { IsHere table.now self.new }
        ensures changes { (plan : PlanRecord) → Changes plan event kind self.old self.new }
    {
        match kind {
            EventKind::Down => {
                let _purged = down(rt, &table.shared, &mut self.cpu, event);
            }
            EventKind::Up => up(&table.shared, &mut self.cpu),
            EventKind::Resize { len } => {
                let _shrunk = resize(rt, &table.shared, &mut self.cpu, len, event);
            }
            EventKind::TxQueueLen { len } => {
                let _purged = tx_queue_len(rt, &table.shared, &mut self.cpu, len, event);
            }
            EventKind::Swap { params: _ } => unreachable!(),
        }
    }

    /// Does the plan's event `event`, which isn't a swap of the device, and what soft interrupts the seat then owes.
    pub fn do_event<'a, R: Wait>(
        &mut self,
        rt: &R,
        table: &Table<'a, D>,
        event: u32,
        kind: EventKind,
    )
        requires here { IsHere table.now self.old }
        requires may { MayChange kind self.old × (is_swap_kind kind ≡ false) }
        ensures { (plan : PlanRecord) → DoesEvent plan event kind self.old self.new }
    {
        self.change(rt, table, event, kind);
        self.drain(rt, table);
    }

    /// Swaps the station's device for that of the unit which an event of the plan brings. The old device comes back.
    pub fn swap<'a, R: Wait>(
        &mut self,
        rt: &R,
        table: &Table<'a, D>,
        brought: Brought,
        device: D,
    ) -> D
        requires here { IsHere table.now self.old }
        requires may { MaySwap brought.unit (D.state device) self.old }
        ensures { (plan : PlanRecord) (params : Params) → unit_of_swap plan brought.event ≡ brought.unit
            → DoesSwap plan brought.event params (D.state device) (D.state result) self.old self.new }
    {
        let old = swap(
            rt,
            &table.shared,
            &mut self.cpu,
            brought.unit,
            device,
            brought.event,
        );
        self.drain(rt, table);
        old
    }

    /// Brings the station to its end.
    pub fn finish<'a, R: Wait>(&mut self, rt: &R, table: &Table<'a, D>)
        requires here { IsHere table.now self.old }
        requires raised { self.old.raised ≡ false }
        requires may { MayFinish self.old }
        ensures { Finishes self.old self.new }
    {
        let _purged = lq_control::finish(rt, &table.shared, &mut self.cpu);
    }

    /// A new seat at the same table, with one share and this owner.
    pub fn split<'a>(&mut self, table: &Table<'a, D>, owner: u32) -> Self
        requires here { IsHere table.now self.old }
        requires may { (2 ≤ self.old.shares) × (0 < owner) × (0 < times owner self.old.owners) }
        ensures seat { self.new ≡ keeping_seat owner self.old }
        ensures other { result ≡ offspring_seat owner self.old }
    {
        let cpu = table.shared.split(&mut self.cpu, owner);
        Seat { cpu }
    }

    /// Takes in another seat of the same table, which isn't the first one. It then knows the whole station, if it is alone.
    pub fn join<'a>(&mut self, table: &Table<'a, D>, other: Self)
        requires here { IsHere table.now self.old }
        requires first { self.old.first ≡ true }
        requires beside { IsBeside self.old other }
        ensures joins { Joins self.old other self.new }
        ensures loads { LoadsBase self.old other self.new }
    {
        let Seat { cpu } = other;
        table.shared.join(&mut self.cpu, cpu);
    }
}
