//! Numbers that rise slowly: of the next one only the last digits are written.
ghost use Rattle.std.specs.Prelude.{◌≡◌, ◌++◌, ◌+◌, ◌*◌, ◌<◌, ◌≤◌, ◌^◌, drop, length};
ghost use Rattle.std.specs.Fmt.{decimal};

use itoa::write_digits;

/// What the digits count that are kept: ten milliseconds.
const UNIT: u64 = 10_000_000;

/// So many digits are behind them.
const ONES: usize = 7;

/// Room for the digits of a number of 64 bits.
const ROOM: usize = 20;

/// How many units are in a number, with its digits at the end of their room.
#[derive(Clone, Copy)]
pub struct Stamp {
    pub units: u64,
    /// So many units, in ones.
    pub from: u64,
    pub digits: [u8; ROOM],
    pub start: usize,
    pub ghost laid: { drop start digits ≡ decimal units },
    pub ghost inside: { start ≤ 20 },
    pub ghost whole: { from ≡ units * 10000000 },
}

/// The two times of a line.
#[derive(Clone, Copy)]
pub struct Stamps {
    pub accepted: Stamp,
    pub ended: Stamp,
    /// When the last frame ended, in nanoseconds.
    pub last: u64,
}

impl Stamp {
    /// The units of a number.
    pub fn of(number: u64) -> Stamp
        ensures { (result.from ≤ number) × (number < result.from + 10000000) }
    {
        let units = number / UNIT;
        let mut digits = [b'0'; ROOM];
        let start = write_digits(units, &mut digits, ROOM);
        Stamp {
            units,
            from: units * UNIT,
            digits,
            start,
        }
    }

    // Makes them those of a number, if they aren't.
    fn move_to(&mut self, number: u64)
        ensures { (self.new.from ≤ number) × (number < self.new.from + 10000000) }
    {
        if number < self.from || number - self.from >= UNIT {
            *self = Stamp::of(number);
        }
    }

    // Writes the units and so many ones behind them so that they end before a place, and gives where they start.
    fn lay_ones(&self, line: &mut [u8], ones: u64, end: usize) -> usize
        requires some { 0 < self.now.units }
        requires few { ones < 10000000 }
        requires fits { self.now.from + ones < 2 ^ 64 }
        requires room { (27 ≤ end) × (end ≤ length line.old) }
        ensures start { end ≤ result + 20 }
        ensures below { result ≤ end }
        ensures written { drop result line.new ≡ decimal (self.now.from + ones) ++ drop end line.old }
        ensures len { length line.new ≡ length line.old }
    {
        let _ = write_digits(UNIT + ones, line, end);
        let at = end - ONES;
        line[at - ROOM..at].copy_from_slice(&self.digits);
        at - (ROOM - self.start)
    }

    /// Writes a number so that it ends before a place, and gives where it starts.
    pub fn lay(&mut self, line: &mut [u8], number: u64, end: usize) -> usize
        requires { (27 ≤ end) × (end ≤ length line.old) }
        ensures start { end ≤ result + 20 }
        ensures below { result ≤ end }
        ensures written { drop result line.new ≡ decimal number ++ drop end line.old }
        ensures len { length line.new ≡ length line.old }
    {
        self.move_to(number);
        if self.units == 0 {
            return write_digits(number, line, end);
        }
        self.lay_ones(line, number - self.from, end)
    }
}

impl Stamps {
    /// Before the first line.
    pub fn new() -> Stamps {
        Stamps {
            accepted: Stamp::of(0),
            ended: Stamp::of(0),
            last: 0,
        }
    }
}
