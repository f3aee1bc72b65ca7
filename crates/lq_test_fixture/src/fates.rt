//! The lines of the text of fates, as docs/FORMATS.md has them.
use crate::flaw::Flaw;
use std::alloc::Global;

/// A fate, as its line tells it.
#[derive(Clone, Copy, Debug, PartialEq, Eq)]
pub enum Told {
    Sent { unit: u32, serial: u32 },
    Full { seen: u32 },
    Shrunk { event: u32 },
    Purged { event: u32 },
    PurgedHung,
    Refused { event: u32 },
}

impl Told {
    /// Whether a packet with this fate was let into its band, or past it to the device.
    pub fn is_let_in(self) -> bool {
        !matches!(self, Told::Full { seen: _ } | Told::Refused { event: _ })
    }
}

fn number_in(word: &str) -> Option<u32> {
    word.parse::<u32>().ok()
}

/// The fate of this kind, with the word behind it and what stands behind that.
fn fate_of(kind: &str, first: &str, second: Option<&str>) -> Option<Told> {
    if kind == "sent" {
        let unit = number_in(first)?;
        let serial = number_in(second?)?;
        return Some(Told::Sent { unit, serial });
    }
    if second.is_some() {
        return None;
    }
    if kind == "purged" && first == "hung" {
        return Some(Told::PurgedHung);
    }
    let number = number_in(first)?;
    match kind {
        "full" => Some(Told::Full { seen: number }),
        "shrunk" => Some(Told::Shrunk { event: number }),
        "purged" => Some(Told::Purged { event: number }),
        "refused" => Some(Told::Refused { event: number }),
        _ => None,
    }
}

/// What a line tells, which must be that of packet `n`.
fn told_by(line: &str, n: usize) -> Option<Told> {
    let mut words = line.split(' ');
    if words.next()?.parse::<usize>().ok()? != n {
        return None;
    }
    let kind = words.next()?;
    let first = words.next()?;
    let second = words.next();
    if words.next().is_some() {
        return None;
    }
    fate_of(kind, first, second)
}

/// The fates that a text tells of so many packets, one a line, in their order.
pub fn fates_told(alloc: Global, text: &[u8], packets: usize) -> Result<Vec<Told>, Flaw> {
    let Ok(text) = std::str::from_utf8(text) else {
        return Err(Flaw::Text);
    };
    let mut fates = Vec::new(alloc);
    for line in text.lines() {
        let n = fates.len();
        if n >= packets {
            return Err(Flaw::MoreLines);
        }
        match told_by(line, n) {
            Some(fate) => fates.push(fate)?,
            None => return Err(Flaw::Line(n)),
        }
    }
    if fates.len() < packets {
        return Err(Flaw::Line(fates.len()));
    }
    Ok(fates)
}
