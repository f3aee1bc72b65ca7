//! The machine: what the seats share, and the seats.
//!
//! What makes or changes a machine stands in two functions: a private one that does it, and a public one that calls it
//! and tells besides that the invariant is kept. So the code is proved apart from the invariant, whose proof follows from
//! what the private one tells.
use crate::qdisc::Qdisc;
use crate::start::Start;
use lq_model::{Answer, NoMemory, Position, Seat};
use std::alloc::Global;
use std::marker::Model;

/// The machine of one station's run lock: any seat does its next step, in any order.
#[derive(Drop)]
pub struct Machine {
    qdisc: Qdisc,
    /// At most 8.
    seats: Vec<Seat>,
    /// The number of the next packet that a start sends.
    next: u32,
}

impl Model for Machine {
    ghost use Rattle.std.specs.Prelude.{◌≡◌, ◌≤◌, vec_len};
    ghost use Rattle.lq_model.specs.Kept.{CallsInside};
    ghost use Rattle.lq_run_core.specs.Numbered.{NumberedMachine};

    ghost Value = { NumberedMachine };

    ghost view = { λ s. record { machine = record { qdisc = s.qdisc; seats = s.seats.items }; next = s.next } };

    ghost invariant = { λ s. (vec_len s.seats ≤ 8) × CallsInside (record { qdisc = s.qdisc; seats = s.seats.items }) };
}

impl Machine {
    ghost use Rattle.std.specs.Prelude.{◌≡◌, ◌≤◌, ◌<◌, ◌+◌, ◌&&◌, true, IfOk, is_some, unwrap_or, length, if◌then◌else◌};
    ghost use Rattle.lq_model.specs.Machine.{first_machine, seat_at, state_word, bit};
    ghost use Rattle.lq_model.specs.Steps.{step_of};
    ghost use Rattle.lq_run_core.specs.Numbered.{IsInRange, KeepsInvariant, begun_by, is_send, packets_held};
    ghost use Rattle.lq_model.specs.Numbers.{greatest};

    /// A machine with one queue; all words are 0, all lists are empty, all seats are idle. The invariant holds of
    /// it, and `begin` and `step` keep it.
    pub fn new(alloc: Global, seats: u32, len: u32, bypass: bool) -> Result<Machine, NoMemory>
        requires seats { (1 ≤ seats) × (seats ≤ 8) }
        requires len { (1 ≤ len) × (len ≤ 4096) }
        ensures made { IfOk result (λ m. m ≡ record { machine = first_machine seats len bypass 1; next = 0 }) }
        ensures sound { IfOk result (λ m. KeepsInvariant m) }
    {
        Machine::with_queues(alloc, seats, len, bypass, 1)
    }

    /// The same with so many queues.
    pub fn with_queues(
        alloc: Global,
        seats: u32,
        len: u32,
        bypass: bool,
        queues: u32,
    ) -> Result<Machine, NoMemory>
        requires seats { (1 ≤ seats) × (seats ≤ 8) }
        requires len { (1 ≤ len) × (len ≤ 4096) }
        requires queues { (1 ≤ queues) × (queues ≤ 8) }
        ensures made { IfOk result (λ m. m ≡ record { machine = first_machine seats len bypass queues; next = 0 }) }
        ensures sound { IfOk result (λ m. KeepsInvariant m) }
    {
        Machine::make(alloc, seats, len, bypass, queues)
    }

    /// Makes the machine; of the invariant it tells nothing.
    fn make(
        alloc: Global,
        seats: u32,
        len: u32,
        bypass: bool,
        queues: u32,
    ) -> Result<Machine, NoMemory>
        requires seats { seats ≤ 8 }
        requires len { len ≤ 4096 }
        requires queues { queues ≤ 8 }
        ensures { IfOk result (λ m. m ≡ record { machine = first_machine seats len bypass queues; next = 0 }) }
    {
        let qdisc = Qdisc::new(alloc, len, bypass, queues)?;
        let idle = Seat {
            position: Position::Idle,
            raised: false,
            run: 0,
        };
        let Ok(seats) = Vec::from_elem(alloc, idle, seats as usize) else {
            return Err(NoMemory);
        };
        Ok(Machine {
            qdisc,
            seats,
            next: 0,
        })
    }

    /// Begins a call of a seat. The answer is false exactly where the seat can't: where it isn't idle, or for
    /// a soft interrupt isn't raised. Then nothing changes. At most 1,000,000 packets are sent; a wake and a soft
    /// interrupt may begin after the last.
    pub fn begin(&mut self, seat: u32, start: Start) -> bool
        requires seat { seat < length self.old.machine.seats }
        requires in_range { IsInRange start self.old.machine }
        requires sends { is_send start ≡ true → self.old.next < 1000000 }
        ensures answers { result ≡ is_some (begun_by start seat self.old) }
        ensures machine { self.new.machine ≡ unwrap_or (begun_by start seat self.old) self.old.machine }
        ensures sound { KeepsInvariant self.old → KeepsInvariant self.new }
        ensures next { self.new.next ≡ (if result && is_send start then self.old.next + 1 else self.old.next) }
    {
        self.begin_call(seat, start)
    }

    /// Begins the call; of the invariant it tells nothing.
    fn begin_call(&mut self, seat: u32, start: Start) -> bool
        requires seat { seat < length self.old.machine.seats }
        requires sends { is_send start ≡ true → self.old.next < 1000000 }
        ensures answers { result ≡ is_some (begun_by start seat self.old) }
        ensures machine { self.new.machine ≡ unwrap_or (begun_by start seat self.old) self.old.machine }
        ensures next { self.new.next ≡ (if result && is_send start then self.old.next + 1 else self.old.next) }
    {
        let at = seat as usize;
        let old = self.seats[at];
        if !start.may_begin(old) {
            return false;
        }
        self.seats[at] = start.begun(old, seat, self.next);
        self.next = start.next_number(self.next);
        true
    }

    /// The seat's next step. The answer is false exactly where the seat can't do it with this answer. Then
    /// nothing changes.
    pub fn step(&mut self, seat: u32, answer: Answer) -> bool
        requires { seat < length self.old.machine.seats }
        ensures answers { result ≡ is_some (step_of self.old.machine seat answer) }
        ensures machine { self.new.machine ≡ unwrap_or (step_of self.old.machine seat answer) self.old.machine }
        ensures next { self.new.next ≡ self.old.next }
        ensures sound { KeepsInvariant self.old → KeepsInvariant self.new }
    {
        self.do_step(seat, answer)
    }

    /// Does the step; of the invariant it tells nothing.
    fn do_step(&mut self, seat: u32, answer: Answer) -> bool
        requires { seat < length self.old.machine.seats }
        ensures answers { result ≡ is_some (step_of self.old.machine seat answer) }
        ensures machine { self.new.machine ≡ unwrap_or (step_of self.old.machine seat answer) self.old.machine }
        ensures next { self.new.next ≡ self.old.next }
    {
        let at = seat as usize;
        let old = self.seats[at];
        if !self.qdisc.may_answer(old.position, answer) {
            return false;
        }
        self.seats[at] = self.qdisc.step(old, answer);
        true
    }

    /// How many seats there are.
    pub fn seats(&self) -> u32
        ensures { result ≡ length self.now.machine.seats }
    {
        self.seats.len() as u32
    }

    /// Where a seat stands.
    pub fn seat(&self, seat: u32) -> Seat
        requires { seat < length self.now.machine.seats }
        ensures { result ≡ seat_at self.now.machine seat }
    {
        self.seats[seat as usize]
    }

    /// The state word: SCHED is 1, DEACTIVATED 2, MISSED 4 and DRAINING 8.
    pub fn state(&self) -> u64
        ensures { result ≡ state_word self.now.machine.qdisc }
    {
        self.qdisc.state()
    }

    /// The run lock, 0 or 1.
    pub fn lock(&self) -> u64
        ensures { result ≡ bit self.now.machine.qdisc.locked }
    {
        if self.qdisc.locked { 1 } else { 0 }
    }

    /// The greatest stop word.
    pub fn xoff(&self) -> u64
        ensures { result ≡ greatest self.now.machine.qdisc.xoff }
    {
        self.qdisc.xoff.iter().fold(0, |most, word| most.max(*word))
    }

    /// The calls inside.
    pub fn inside(&self) -> u64
        ensures { result ≡ self.now.machine.qdisc.inside }
    {
        self.qdisc.inside
    }

    /// How many packets the bands and the requeue slot hold.
    pub fn held(&self) -> u64
        ensures { result ≡ packets_held self.now.machine.qdisc }
    {
        self.qdisc.held()
    }

    /// How many packets were sent.
    pub fn sent(&self) -> u64
        ensures { result ≡ self.now.machine.qdisc.sent }
    {
        self.qdisc.sent
    }

    /// How many packets were refused as full.
    pub fn full(&self) -> u64
        ensures { result ≡ self.now.machine.qdisc.full }
    {
        self.qdisc.full
    }

    /// The number of the next packet that a start sends.
    pub fn next(&self) -> u32
        ensures { result ≡ self.now.next }
    {
        self.next
    }
}
