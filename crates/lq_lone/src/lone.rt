//! The station.
ghost use Rattle.std.specs.Prelude.{◌≡◌, ◌<◌, ◌≤◌, ◌+◌, is_some, ℕ, List, IfOk, OnOk, length, true, false};

use crate::line::Line;
use lq_model::EventKind;
use std::alloc::{AllocError, Global};

/// A station with one queue, whose device accepts each packet and stops the queue at it.
#[derive(Drop)]
pub struct Lone {
    pub len: u32,
    pub bypass: bool,
    pub low: Line,
    pub mid: Line,
    pub high: Line,
    pub slot: Option<u32>,
    pub stopped: bool,
    pub clean: bool,
    pub down: bool,
    pub ghost some: { 0 < len },
}

impl Lone {
    ghost use Rattle.lq_model.specs.Account.{Purge, Resize, after, held};
    ghost use Rattle.lq_model.specs.Alone.{RunningStation, brought_in, changed, joined_or_full, opened, served};
    ghost use Rattle.lq_model.specs.Plan.{Plan, band_in, is_swap_kind};
    ghost use Rattle.lq_model.specs.declared.fate.Cause.{Cause};
    ghost use Rattle.lq_model.specs.declared.fate.Info.{Info};
    ghost use Rattle.lq_model.specs.Wire.{sent_now};
    ghost use Rattle.lq_lone.specs.Lone.{HaveOneQueue, IsLengthened, IsLone, HasNothingToServe, StepsLone, TakesNext, slot_count, new_state, lone_state, waiting};

    pub fn new(alloc: Global, len: u32, bypass: bool) -> Lone
        requires { 0 < len }
        ensures state { lone_state result ≡ new_state len }
        ensures bypass { result.bypass ≡ bypass }
    {
        Lone {
            len,
            bypass,
            low: Line::new(alloc),
            mid: Line::new(alloc),
            high: Line::new(alloc),
            slot: None,
            stopped: false,
            clean: true,
            down: false,
        }
    }

    pub fn is_stopped(&self) -> bool
        ensures { result ≡ self.now.stopped }
    {
        self.stopped
    }

    /// How many packets wait.
    pub fn held(&self) -> usize
        requires few { waiting (lone_state self.now) < 4000000000 }
        ensures count { result ≡ waiting (lone_state self.now) }
        ensures held { (s : RunningStation) → IsLone (lone_state self.now) s → result ≡ length (held s.account) }
    {
        self.low.held() + self.mid.held() + self.high.held() + usize::from(self.slot.is_some())
    }

    // The packet that is served next leaves.
    fn take(&mut self) -> Option<u32>
        ensures takes { TakesNext result (lone_state self.old) (lone_state self.new) }
        ensures count { waiting (lone_state self.new) + slot_count result ≡ waiting (lone_state self.old) }
        ensures bypass { self.new.bypass ≡ self.old.bypass }
    {
        if let Some(n) = self.slot {
            self.slot = None;
            return Some(n);
        }
        if let Some(n) = self.low.take() {
            return Some(n);
        }
        if let Some(n) = self.mid.take() {
            return Some(n);
        }
        self.high.take()
    }

    /// Serves the station: the packet that the device accepted, if there was one.
    pub fn serve(&mut self) -> Option<u32>
        ensures serves { (infos : List Info) (s : RunningStation) → HaveOneQueue infos → IsLone (lone_state self.old) s → StepsLone result (lone_state self.new) s (served infos s) }
        ensures settled { HasNothingToServe (lone_state self.new) }
        ensures count { waiting (lone_state self.new) + slot_count result ≡ waiting (lone_state self.old) }
        ensures stops { self.old.stopped ≡ false → self.new.stopped ≡ is_some result }
        ensures bypass { self.new.bypass ≡ self.old.bypass }
    {
        if self.down || self.stopped {
            return None;
        }
        let accepted = self.take();
        self.stopped = accepted.is_some();
        self.clean = !self.stopped;
        accepted
    }

    /// Opens the queue and serves the station.
    pub fn open(&mut self) -> Option<u32>
        ensures count { waiting (lone_state self.new) + slot_count result ≡ waiting (lone_state self.old) }
        ensures stops { self.new.stopped ≡ is_some result }
        ensures bypass { self.new.bypass ≡ self.old.bypass }
        ensures opens { (infos : List Info) (s : RunningStation) → HaveOneQueue infos → IsLone (lone_state self.old) s → StepsLone result (lone_state self.new) s (served infos (opened s)) }
    {
        self.stopped = false;
        self.serve()
    }

    // Packet `n`, which goes past the bands: the packet that the device accepted, if it did.
    fn pass(&mut self, n: u32) -> Option<u32>
        requires active { self.old.down ≡ false }
        requires clean { self.old.clean ≡ true }
        ensures count { waiting (lone_state self.new) + slot_count result ≤ waiting (lone_state self.old) + 1 }
        ensures bypass { self.new.bypass ≡ self.old.bypass }
        ensures passes { (infos : List Info) (s : RunningStation) → HaveOneQueue infos → IsLone (lone_state self.old) s → StepsLone result (lone_state self.new) s (served infos (brought_in infos true n s)) }
    {
        if self.stopped {
            self.slot = Some(n);
            self.clean = false;
            return None;
        }
        self.stopped = true;
        Some(n)
    }

    // Packet `n` joins its band, or is dropped as full.
    fn join(&mut self, n: u32, band: u32) -> Result<(), AllocError>
        requires { band < 3 }
        ensures count { OnOk result (waiting (lone_state self.new) ≤ waiting (lone_state self.old) + 1) }
        ensures bypass { self.new.bypass ≡ self.old.bypass }
        ensures joins { OnOk result ((s : RunningStation) → IsLone (lone_state self.old) s → IsLone (lone_state self.new) (record s { account = joined_or_full n band s.account })) }
    {
        if band == 0 {
            self.low.join_or_drop(n, self.len)
        } else if band == 1 {
            self.mid.join_or_drop(n, self.len)
        } else {
            self.high.join_or_drop(n, self.len)
        }
    }

    /// Brings packet `n` of a band, and serves the station: the packet that the device accepted, if there was one.
    pub fn bring(&mut self, n: u32, band: u32) -> Result<Option<u32>, AllocError>
        requires { band < 3 }
        ensures count { IfOk result (λ accepted. waiting (lone_state self.new) + slot_count accepted ≤ waiting (lone_state self.old) + 1) }
        ensures bypass { self.new.bypass ≡ self.old.bypass }
        ensures brings { IfOk result (λ accepted. (infos : List Info) (s : RunningStation) → HaveOneQueue infos → band_in infos n ≡ band → IsLone (lone_state self.old) s
            → StepsLone accepted (lone_state self.new) s (served infos (brought_in infos self.old.bypass n s))) }
    {
        if self.down {
            return Ok(None);
        }
        if self.bypass && self.clean {
            return Ok(self.pass(n));
        }
        self.join(n, band)?;
        let accepted = self.serve();
        self.clean = self.clean && !self.stopped;
        Ok(accepted)
    }

    // All that is held leaves.
    fn purge(&mut self)
        ensures count { waiting (lone_state self.new) ≤ waiting (lone_state self.old) }
        ensures bypass { self.new.bypass ≡ self.old.bypass }
        ensures purges { (s : RunningStation) (cause : Cause) → IsLone (lone_state self.old) s → IsLone (lone_state self.new) (record s { account = after (Purge cause) s.account; clean = true }) }
    {
        self.slot = None;
        self.low.empty();
        self.mid.empty();
        self.high.empty();
        self.clean = true;
    }

    fn resize(&mut self, len: u32)
        requires { 0 < len }
        ensures count { waiting (lone_state self.new) ≤ waiting (lone_state self.old) }
        ensures bypass { self.new.bypass ≡ self.old.bypass }
        ensures resizes { (s : RunningStation) (event : ℕ) → IsLone (lone_state self.old) s → IsLone (lone_state self.new) (record s { account = after (Resize len event) s.account }) }
    {
        self.len = len;
        self.low.resize(len);
        self.mid.resize(len);
        self.high.resize(len);
    }

    /// Does an event of the plan, which doesn't swap the device, and serves the station: the packet that the device accepted, if there was one.
    pub fn change(&mut self, kind: EventKind) -> Option<u32>
        requires within { IsLengthened kind }
        requires no_swap { is_swap_kind kind ≡ false }
        ensures count { waiting (lone_state self.new) + slot_count result ≤ waiting (lone_state self.old) }
        ensures bypass { self.new.bypass ≡ self.old.bypass }
        ensures changes { (plan : Plan) (event : ℕ) (infos : List Info) (s : RunningStation) → HaveOneQueue infos → IsLone (lone_state self.old) s
            → StepsLone result (lone_state self.new) s (served infos (changed plan event kind s)) }
    {
        self.alter(kind);
        self.serve()
    }

    // Does the event.
    fn alter(&mut self, kind: EventKind)
        requires within { IsLengthened kind }
        requires no_swap { is_swap_kind kind ≡ false }
        ensures count { waiting (lone_state self.new) ≤ waiting (lone_state self.old) }
        ensures bypass { self.new.bypass ≡ self.old.bypass }
        ensures alters { (plan : Plan) (event : ℕ) (s : RunningStation) → IsLone (lone_state self.old) s
            → IsLone (lone_state self.new) (changed plan event kind s) × (sent_now (changed plan event kind s) ≡ sent_now s) }
    {
        match kind {
            EventKind::Down => {
                self.purge();
                self.down = true;
            }
            EventKind::Up => self.down = false,
            EventKind::Resize { len } => self.resize(len),
            EventKind::TxQueueLen { len } => {
                self.purge();
                self.resize(len);
                self.down = false;
            }
            EventKind::Swap { params: _ } => unreachable!(),
        }
    }
}
