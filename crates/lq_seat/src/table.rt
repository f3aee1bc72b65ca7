//! A station's table: its making and its close.
ghost use Rattle.std.specs.Prelude.{◌≡◌, ◌<◌, ◌≤◌, [], false, length, IfErr, IfOk};
ghost use Rattle.lq_seat.specs.Ends.{HasDecidedAll, IsClosedAs, IsSoundAtClose, MayCloseBy};
ghost use Rattle.lq_seat.specs.State.{IsHere, IsTableOf, IsWellMade, closed_home, first_account, new_seat, setup_of, station_count};
ghost use Rattle.lq_table.specs.Sees.{closed_fates};

use crate::seat::Seat;
use lq_device::{Station, TxDevice};
use lq_model::Info;
use lq_plan::Plan;
use lq_table::{Closed, Shared};
use std::alloc::Global;
use std::marker::Model;

/// The table of a station.
#[derive(Drop)]
pub struct Table<'a, D: TxDevice> {
    pub(crate) shared: Shared<'a, D>,
}

impl<'a, D: TxDevice> Model for Table<'a, D> {
    ghost use Rattle.lq_seat.specs.State.{TableState, table_seen};

    ghost Value = { TableState };

    ghost view = { λ t. table_seen t.shared };
}

impl<'a, D: TxDevice> Table<'a, D> {
    /// The table of the plan's station `number` over its device, which was just configured, and its first seat. Where there is no
    /// room for the table the device comes back as it is.
    pub fn open(
        alloc: Global,
        plan: &Plan,
        infos: &'a [Info],
        number: u32,
        device: D,
    ) -> Result<(Table<'a, D>, Seat<D>), D>
        requires number { number < length plan.now.stations }
        requires made { IsWellMade (setup_of plan.now infos.now number) }
        requires fresh { ((D.state device).accepted ≡ []) × ((D.state device).asked ≡ []) × ((D.state device).hung ≡ false) }
        requires room { station_count infos.now number ≤ (D.state device).spare }
        ensures table { IfOk result (λ t. IsTableOf plan.now infos.now number t.0) }
        ensures seat { IfOk result (λ t. t.1 ≡ new_seat t.0.id t.0.made (D.state device)) }
        ensures back { IfErr result (λ d. D.state d ≡ D.state device) }
    {
        plan.stays_within_limits();
        let station = plan.station(number);
        let held = Station::new(alloc, number, device)?;
        match Shared::make(alloc, infos, number, station, plan.senders(), held) {
            Ok((shared, cpu)) => Ok((Table { shared }, Seat { cpu })),
            Err(station) => Err(station.into_device()),
        }
    }

    /// The number of its station.
    pub fn number(&self) -> u32
        ensures { result ≡ self.now.made.station }
    {
        self.shared.number()
    }

    /// Ends the table, whose seats are all joined into this one and which was brought to its end.
    pub fn close(self, seat: Seat<D>) -> Closed<D>
        requires here { IsHere self seat }
        requires may { MayCloseBy seat }
        requires ended { HasDecidedAll seat }
        ensures closed { IsClosedAs seat result.ended.number result.ended.packets (closed_fates result) (closed_home result) }
        ensures plan { result.ended.plan ≡ self.entry.plan }
        ensures sound { IsSoundAtClose seat.made.infos seat.made.station (first_account seat.made) seat }
    {
        let Seat { cpu } = seat;
        self.shared.close(cpu)
    }

    /// Ends a table that was never used, or whose packets don't matter: its device comes back, as the seat knows it.
    pub fn give_back(self, seat: Seat<D>) -> D
        requires here { IsHere self seat }
        requires may { MayCloseBy seat }
        ensures device { D.state result ≡ seat.whole.device }
        ensures identity { (D.state result).identity ≡ seat.origin.identity }
    {
        let Seat { cpu } = seat;
        let (_ended, device) = self.shared.close(cpu).into_device();
        device
    }
}
