//! Texts made of pieces, one for each packet of a list: the records of a capture, and the lines of fates.
ghost use Rattle.std.specs.Prelude.{◌≡◌, ◌+◌, ◌<◌, ◌++◌, [], All, ℕ, List, OnOk, length};
ghost use Rattle.lq_pcapng.specs.File.{packets_of_file};
ghost use Rattle.lq_files.specs.Parts.{lines_from, packets_from};

use lq_fates::{Fates, TapFate, push_fate_line, push_tap_fate_line};
use lq_model::NoMemory;
use lq_pcapng::CaptureFile;
use std::marker::Sync;

/// A text of numbered pieces, of which threads may make some each.
pub trait Source: Sync {
    /// How many pieces there are.
    ghost count: { Self → ℕ };

    /// Whether each of them can be made.
    ghost can_make: { Self → Type 0 };

    /// What stands in the text from a piece on.
    ghost from: { Self → ℕ → List ℕ };

    fn len(&self) -> usize
        ensures count { result ≡ count self.now }
        ensures ends { from self.now (count self.now) ≡ [] };

    /// Writes piece n to the end of a text. Where there is no room for it, the text may have the first of its bytes at its end.
    fn push_piece(&self, text: &mut Vec<u8>, n: usize) -> Result<(), NoMemory>
        requires can_make { can_make self.now }
        requires piece { n < count self.now }
        ensures { OnOk result (text.new.items ++ from self.now (n + 1) ≡ text.old.items ++ from self.now n) };
}

/// The records of these packets of a capture, in the order of the list.
#[derive(Drop)]
pub struct Packets<'a> {
    pub capture: &'a CaptureFile,
    pub numbers: &'a [u32],
}

impl<'a> Source for Packets<'a> {
    ghost count = { λ p. length p.numbers.now };

    ghost can_make = { λ p. All (λ n. n < (packets_of_file p.capture.now).count) p.numbers.now };

    ghost from = { λ p n. packets_from p.capture.now p.numbers.now n };

    fn len(&self) -> usize {
        self.numbers.len()
    }

    fn push_piece(&self, text: &mut Vec<u8>, n: usize) -> Result<(), NoMemory> {
        self.capture.push_packet(text, self.numbers[n] as usize)
    }
}

/// The lines of the fates of a run, of the packets from number 0 on.
#[derive(Drop)]
pub struct FateLines<'a, F: Fates> {
    pub fates: &'a F,
}

impl<'a, F: Fates> Source for FateLines<'a, F> {
    ghost use Rattle.std.specs.Prelude.{⊤};
    ghost use Rattle.lq_model.specs.Texts.{fate_words};

    ghost count = { λ l. length (F.fates l.fates.now) };

    ghost can_make = { λ _. ⊤ };

    ghost from = { λ l n. lines_from fate_words (F.fates l.fates.now) n };

    fn len(&self) -> usize {
        self.fates.len()
    }

    fn push_piece(&self, text: &mut Vec<u8>, n: usize) -> Result<(), NoMemory> {
        push_fate_line(text, n, self.fates.fate(n))
    }
}

/// The lines of the fates of a tap, of the packets from number 0 on.
#[derive(Drop)]
pub struct TapLines<'a> {
    pub fates: &'a [TapFate],
}

impl<'a> Source for TapLines<'a> {
    ghost use Rattle.std.specs.Prelude.{⊤};
    ghost use Rattle.lq_fates.specs.TapTexts.{tap_fate_words};

    ghost count = { λ l. length l.fates.now };

    ghost can_make = { λ _. ⊤ };

    ghost from = { λ l n. lines_from tap_fate_words l.fates.now n };

    fn len(&self) -> usize {
        self.fates.len()
    }

    fn push_piece(&self, text: &mut Vec<u8>, n: usize) -> Result<(), NoMemory> {
        push_tap_fate_line(text, n, self.fates[n])
    }
}
