//! Fates as words of a station's table.
ghost use Rattle.std.specs.Prelude.{◌≡◌, ◌<◌, ℕ, IfSome, IfNone};
ghost use Rattle.lq_model.specs.Words.{word_of, word_of_parts, HasWord, IsWordOf};
ghost use Rattle.lq_model.specs.declared.fate.Fate.{Fate};

use crate::fate::{Cause, Fate};

fn word_of_parts(kind: u8, small: u32, rest: u32) -> u64
    requires kind { kind < 8 }
    requires small { small < 256 }
    ensures { result ≡ word_of_parts kind small rest }
{
    kind as u64 + 8 * small as u64 + 2048 * rest as u64
}

/// The word that stands for a fate in its station's table. No other fate has it.
pub fn fate_word(fate: Fate) -> u64
    requires { HasWord fate }
    ensures word { result ≡ word_of fate }
    ensures stands { IsWordOf fate result }
{
    match fate {
        Fate::Sent { unit, serial } => word_of_parts(1, unit, serial),
        Fate::Full { seen } => word_of_parts(2, 0, seen),
        Fate::Shrunk { event } => word_of_parts(3, 0, event),
        Fate::Purged {
            cause: Cause::Event(event),
        } => word_of_parts(4, 0, event),
        Fate::Purged {
            cause: Cause::Hung(unit),
        } => word_of_parts(4, 1, unit),
        Fate::Refused { event } => word_of_parts(5, 0, event),
    }
}

/// The fate that a word stands for.
///
/// # None
///
/// It stands for no fate.
pub fn word_fate(word: u64) -> Option<Fate>
    ensures some { IfSome result (λ fate. IsWordOf fate word) }
    ensures none { IfNone result ((fate : Fate) → IsWordOf fate word → ⊥) }
{
    let Ok(rest) = u32::try_from(word / 2048) else {
        return None;
    };
    let small = (word / 8 % 256) as u32;
    match (word % 8, small) {
        (1, unit) => Some(Fate::Sent { unit, serial: rest }),
        (2, 0) => Some(Fate::Full { seen: rest }),
        (3, 0) => Some(Fate::Shrunk { event: rest }),
        (4, 0) => Some(Fate::Purged {
            cause: Cause::Event(rest),
        }),
        (4, 1) => Some(Fate::Purged {
            cause: Cause::Hung(rest),
        }),
        (5, 0) => Some(Fate::Refused { event: rest }),
        _ => None,
    }
}

/// No word stands for two fates.
pub fn one_fate_a_word()
    ensures { (f g : Fate) (word : ℕ) → IsWordOf f word → IsWordOf g word → f ≡ g }
{}

/// The word of a fate is read as that fate.
pub fn word_read_again(fate: Fate) -> Option<Fate>
    requires { HasWord fate }
    ensures { result ≡ Some fate }
{
    word_fate(fate_word(fate))
}

/// The fate of a word is written as that word.
pub fn fate_written_again(word: u64) -> Option<u64>
    ensures { IfSome result (λ again. again ≡ word) }
{
    match word_fate(word) {
        Some(fate) => Some(fate_word(fate)),
        None => None,
    }
}
