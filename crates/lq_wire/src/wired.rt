//! A station with its card.
ghost use Rattle.std.specs.Prelude.{◌≡◌, ◌+◌, ◌&&◌, ◌^◌, ◌<◌, ◌≤◌, [], ℕ, List, Some, true, false, IfOk, OnOk};

use crate::wire::Wire;
use lq_lone::Lone;
use lq_model::{Card, EventKind, StationPlan};
use lq_pcap::Frames;
use lq_plan::Plan;
use std::alloc::{AllocError, Global};

/// A station whose queue is opened as its card has room.
#[derive(Drop)]
pub struct Wired {
    pub wire: Wire,
    pub station: Lone,
}

impl Wired {
    ghost use Rattle.lq_model.specs.Alone.{brought_in, changed, events_after, events_before, opened, served};
    ghost use Rattle.lq_model.specs.Plan.{Plan as PlanOfRun, band_in, is_swap_kind};
    ghost use Rattle.lq_model.specs.Wire.{OpenedSoFar, Wired as WiredStation, all_interrupted, first_wired, ring_has_room, is_shut, opened_at, with_changes};
    ghost use Rattle.lq_model.specs.declared.fate.Info.{Info};
    ghost use Rattle.lq_lone.specs.Lone.{HaveOneQueue, IsLengthened, lone_state, waiting};
    ghost use Rattle.lq_wire.specs.Wire.{due_by, latest};
    ghost use Rattle.lq_wire.specs.Wired.{AreForCard, HasOneStop, HasOpened, IsWired, StepsTo, load, stop_count, none_told};

    /// The station of a plan, with nothing brought yet.
    pub fn new(alloc: Global, card: Card, station: StationPlan) -> Wired
        requires { 0 < station.len }
        ensures wired { (s : StationPlan) → s ≡ station → HasOneStop s → IsWired result (first_wired s) }
        ensures load { load result ≡ 0 }
        ensures bypass { result.station.bypass ≡ station.bypass }
        ensures card { result.wire.card ≡ card }
    {
        Wired {
            wire: Wire::new(alloc, card),
            station: Lone::new(alloc, station.len, station.bypass),
        }
    }

    // Opens the queue and serves the station, at a moment.
    fn open<F: Frames>(&mut self, frames: &F, now: u128) -> Result<(), AllocError>
        requires near { now ≤ latest self.old.wire.accepted }
        requires few { load self.old ≤ 1000000 }
        ensures opens { OnOk result ((infos : List Info) (w : WiredStation) → HaveOneQueue infos → IsWired self.old w
            → StepsTo self.old.wire.card (F.packets frames.now) now (λ s. served infos (opened s)) w self.new) }
        ensures load { OnOk result (load self.new ≡ load self.old) }
        ensures count { OnOk result (waiting (lone_state self.new.station) + stop_count self.new ≡ waiting (lone_state self.old.station)) }
        ensures accepted { OnOk result (self.old.wire.accepted ≤ self.new.wire.accepted) }
        ensures bypass { self.new.station.bypass ≡ self.old.station.bypass }
        ensures card { self.new.wire.card ≡ self.old.wire.card }
    {
        let accepted = self.station.open();
        self.wire.accept_some(frames, now, accepted)
    }

    /// Packet `n` of a band comes at a moment, and the station is served.
    pub fn bring<F: Frames>(
        &mut self,
        frames: &F,
        now: u128,
        n: u32,
        band: u32,
    ) -> Result<(), AllocError>
        requires near { now < 2 ^ 96 }
        requires few { load self.old < 1000000 }
        requires band { band < 3 }
        ensures brings { OnOk result ((infos : List Info) (w : WiredStation) → HaveOneQueue infos → band_in infos n ≡ band → IsWired self.old w
            → StepsTo self.old.wire.card (F.packets frames.now) now (λ s. served infos (brought_in infos self.old.station.bypass n s)) w self.new) }
        ensures load { OnOk result (load self.new ≤ load self.old + 1) }
        ensures bypass { self.new.station.bypass ≡ self.old.station.bypass }
        ensures card { self.new.wire.card ≡ self.old.wire.card }
    {
        let accepted = self.station.bring(n, band)?;
        self.wire.accept_some(frames, now, accepted)
    }

    /// An event of the plan comes at a moment, which doesn't swap the device, and the station is served.
    pub fn change<F: Frames>(
        &mut self,
        frames: &F,
        now: u128,
        kind: EventKind,
    ) -> Result<(), AllocError>
        requires near { now < 2 ^ 96 }
        requires few { load self.old ≤ 1000000 }
        requires within { IsLengthened kind }
        requires no_swap { is_swap_kind kind ≡ false }
        ensures changes { OnOk result ((plan : PlanOfRun) (event : ℕ) (infos : List Info) (w : WiredStation) → HaveOneQueue infos → IsWired self.old w
            → StepsTo self.old.wire.card (F.packets frames.now) now (λ s. served infos (changed plan event kind s)) w self.new) }
        ensures load { OnOk result (load self.new ≤ load self.old) }
        ensures bypass { self.new.station.bypass ≡ self.old.station.bypass }
        ensures card { self.new.wire.card ≡ self.old.wire.card }
    {
        let accepted = self.station.change(kind);
        self.wire.accept_some(frames, now, accepted)
    }

    /// The plan's events that come before packet `n`, each at that packet's moment.
    pub fn change_before<F: Frames>(
        &mut self,
        plan: &Plan,
        frames: &F,
        now: u128,
        n: u32,
    ) -> Result<(), AllocError>
        requires near { now < 2 ^ 96 }
        requires few { load self.old ≤ 1000000 }
        requires events { AreForCard plan.now }
        ensures changes { OnOk result ((infos : List Info) (w : WiredStation) → HaveOneQueue infos → IsWired self.old w
            → StepsTo self.old.wire.card (F.packets frames.now) now (with_changes plan.now infos (events_before plan.now n)) w self.new) }
        ensures load { OnOk result (load self.new ≤ load self.old) }
        ensures bypass { OnOk result (self.new.station.bypass ≡ self.old.station.bypass) }
        ensures card { OnOk result (self.new.wire.card ≡ self.old.wire.card) }
    {
        for e in 0..plan.events() {
            let event = plan.event(e);
            if event.before == n {
                self.change(frames, now, event.kind)?;
            }
        }
        Ok(())
    }

    /// The plan's events behind the last of so many packets, each at a moment.
    pub fn change_after<F: Frames>(
        &mut self,
        plan: &Plan,
        frames: &F,
        now: u128,
        count: u32,
    ) -> Result<(), AllocError>
        requires near { now < 2 ^ 96 }
        requires few { load self.old ≤ 1000000 }
        requires events { AreForCard plan.now }
        ensures changes { OnOk result ((infos : List Info) (w : WiredStation) → HaveOneQueue infos → IsWired self.old w
            → StepsTo self.old.wire.card (F.packets frames.now) now (with_changes plan.now infos (events_after plan.now count)) w self.new) }
        ensures load { OnOk result (load self.new ≤ load self.old) }
        ensures bypass { OnOk result (self.new.station.bypass ≡ self.old.station.bypass) }
        ensures card { OnOk result (self.new.wire.card ≡ self.old.wire.card) }
    {
        for e in 0..plan.events() {
            let event = plan.event(e);
            if event.before >= count {
                self.change(frames, now, event.kind)?;
            }
        }
        Ok(())
    }

    // Whether the queue is stopped and there is room.
    fn may_open(&self) -> bool
        ensures opens { (w : WiredStation) → IsWired self.now w → result ≡ (is_shut w.station && ring_has_room self.now.wire.card w.ring) }
        ensures stopped { result ≡ true → self.now.station.stopped ≡ true }
    {
        self.station.is_stopped() && self.wire.ring_has_room()
    }

    /// Opens the queue at a moment as often as it is stopped and there is room: how often.
    pub fn open_while_room<F: Frames>(&mut self, frames: &F, now: u128) -> Result<u32, AllocError>
        requires near { now ≤ latest self.old.wire.accepted }
        requires few { load self.old ≤ 1000000 }
        ensures opens { IfOk result (λ times. (infos : List Info) (o : OpenedSoFar) → HaveOneQueue infos → IsWired self.old o.wired
            → HasOpened (opened_at self.old.wire.card (F.packets frames.now) infos now o) o times self.new) }
        ensures count { IfOk result (λ times. times + waiting (lone_state self.new.station) ≤ waiting (lone_state self.old.station) + 1) }
        ensures load { IfOk result (λ times. load self.new ≡ load self.old) }
        ensures bypass { IfOk result (λ times. self.new.station.bypass ≡ self.old.station.bypass) }
        ensures card { IfOk result (λ times. self.new.wire.card ≡ self.old.wire.card) }
    {
        if !self.may_open() {
            return Ok(0);
        }
        self.open(frames, now)?;
        if !self.may_open() {
            return Ok(1);
        }
        let more = self.open_more(frames, now)?;
        Ok(more + 1)
    }

    // The same. How many packets wait is counted.
    fn open_more<F: Frames>(&mut self, frames: &F, now: u128) -> Result<u32, AllocError>
        requires near { now ≤ latest self.old.wire.accepted }
        requires few { load self.old ≤ 1000000 }
        ensures opens { IfOk result (λ times. (infos : List Info) (o : OpenedSoFar) → HaveOneQueue infos → IsWired self.old o.wired
            → HasOpened (opened_at self.old.wire.card (F.packets frames.now) infos now o) o times self.new) }
        ensures count { IfOk result (λ times. times + waiting (lone_state self.new.station) ≤ waiting (lone_state self.old.station) + 1) }
        ensures load { IfOk result (λ times. load self.new ≡ load self.old) }
        ensures bypass { IfOk result (λ times. self.new.station.bypass ≡ self.old.station.bypass) }
        ensures card { IfOk result (λ times. self.new.wire.card ≡ self.old.wire.card) }
    {
        let mut times = 0;
        for turn in 0..self.station.held() + 1 {
            let _ = turn;
            if !self.may_open() {
                return Ok(times);
            }
            self.open(frames, now)?;
            times += 1;
        }
        Ok(times)
    }

    /// All interrupts, up to a moment if there is such a limit: how often the queue is opened at them.
    pub fn on_until<F: Frames>(
        &mut self,
        frames: &F,
        until: Option<u128>,
    ) -> Result<u32, AllocError>
        requires few { load self.old ≤ 1000000 }
        ensures opens { IfOk result (λ times. (infos : List Info) (o : OpenedSoFar) → HaveOneQueue infos → IsWired self.old o.wired
            → HasOpened (all_interrupted self.old.wire.card (F.packets frames.now) infos (due_by until) o) o times self.new) }
        ensures count { IfOk result (λ times. times ≤ 3000000) }
        ensures load { IfOk result (λ times. load self.new ≡ load self.old) }
        ensures bypass { IfOk result (λ times. self.new.station.bypass ≡ self.old.station.bypass) }
        ensures card { IfOk result (λ times. self.new.wire.card ≡ self.old.wire.card) }
    {
        let mut times = 0;
        for interrupt in 0..self.wire.ring.len() + self.station.held() {
            let _ = interrupt;
            let Some(now) = self.wire.due(until) else {
                return Ok(times);
            };
            self.wire.reclaim(now);
            times += self.open_while_room(frames, now)?;
        }
        Ok(times)
    }

    /// Opens the queue at a moment while there is room, and then at the interrupts up to a later one: how often.
    pub fn open_until<F: Frames>(
        &mut self,
        frames: &F,
        now: u128,
        until: u128,
    ) -> Result<u32, AllocError>
        requires near { now < 2 ^ 96 }
        requires few { load self.old ≤ 1000000 }
        ensures opens { IfOk result (λ times. (infos : List Info) (o : OpenedSoFar) → HaveOneQueue infos → IsWired self.old o.wired
            → HasOpened (all_interrupted self.old.wire.card (F.packets frames.now) infos (due_by (Some until)) (opened_at self.old.wire.card (F.packets frames.now) infos now o)) o times self.new) }
        ensures load { IfOk result (λ times. load self.new ≡ load self.old) }
        ensures bypass { IfOk result (λ times. self.new.station.bypass ≡ self.old.station.bypass) }
        ensures card { IfOk result (λ times. self.new.wire.card ≡ self.old.wire.card) }
    {
        let at_once = self.open_while_room(frames, now)?;
        let later = self.on_until(frames, Some(until))?;
        Ok(at_once + later)
    }

    /// All packets that were accepted are told.
    pub fn tell_all(&mut self)
        ensures told { (w : WiredStation) → IsWired self.old w → IsWired self.new (none_told w) }
        ensures load { load self.new ≡ load self.old }
        ensures bypass { self.new.station.bypass ≡ self.old.station.bypass }
        ensures card { self.new.wire.card ≡ self.old.wire.card }
    {
        if !self.wire.untold.is_empty() {
            self.wire.untold.clear();
        }
    }
}
