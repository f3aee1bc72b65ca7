// The options of an interface description block.
ghost use Rattle.std.specs.Prelude.{◌≡◌, ◌≤◌, length, IfSome, MatchOption, Some, None};
ghost use Rattle.lq_pcapng.specs.Pcapng.{are_whole_options, has_its_length as has_its_length_of, has_whole_options as has_whole_options_of, option_among, option_of, options_of};
ghost use Rattle.lq_pcapng.specs.Reading.{IsNextOption};

use crate::layout::{
    END_OF_OPTIONS, INTERFACE_OPTIONS, LENGTH_AGAIN, OFFSET, OFFSET_LENGTH, OPTION_CODE,
    OPTION_HEADER, OPTION_LENGTH, RESOLUTION, RESOLUTION_LENGTH,
};
use crate::numbers::short_number;
use crate::packets::padded;

/// What some options begin with.
#[derive(Clone, Copy)]
pub enum NextOption {
    /// Their end.
    End,
    /// An option that isn't whole.
    Cut,
    /// An option, with its header and its value.
    Whole { code: u16, len: u16 },
}

// The options of an interface description block.
fn options(interface: &[u8]) -> &[u8]
    requires { 20 ≤ length interface.now }
    ensures { result.now ≡ options_of interface.now }
{
    &interface[INTERFACE_OPTIONS..interface.len() - LENGTH_AGAIN]
}

fn next_option(options: &[u8], little_endian: bool) -> NextOption
    ensures { IsNextOption little_endian options.now result }
{
    if options.is_empty() {
        return NextOption::End;
    }
    if options.len() < OPTION_HEADER {
        return NextOption::Cut;
    }
    let code = short_number(options, little_endian, OPTION_CODE);
    if code == END_OF_OPTIONS {
        return NextOption::End;
    }
    let len = short_number(options, little_endian, OPTION_LENGTH);
    if options.len() < OPTION_HEADER + padded(u32::from(len)) {
        return NextOption::Cut;
    }
    NextOption::Whole { code, len }
}

// Whether an option with this code may have this length.
fn has_its_length(code: u16, len: u16) -> bool
    ensures { result ≡ has_its_length_of code len }
{
    match code {
        RESOLUTION => len == RESOLUTION_LENGTH,
        OFFSET => len == OFFSET_LENGTH,
        _ => true,
    }
}

/// Whether an interface's options are whole, and those that are read as long as they are to be.
pub fn has_whole_options(interface: &[u8], little_endian: bool) -> bool
    requires { 20 ≤ length interface.now }
    ensures { result ≡ has_whole_options_of little_endian interface.now }
{
    are_whole(options(interface), little_endian)
}

fn are_whole(options: &[u8], little_endian: bool) -> bool
    ensures { result ≡ are_whole_options little_endian (length options.now) options.now }
{
    let mut place = 0;
    while place < options.len() {
        match next_option(&options[place..], little_endian) {
            NextOption::End => return true,
            NextOption::Cut => return false,
            NextOption::Whole { code, len } => {
                if !has_its_length(code, len) {
                    return false;
                }
                place += OPTION_HEADER + padded(u32::from(len));
            }
        }
    }
    true
}

/// The value of an interface's first option with this code and this length.
pub fn option(interface: &[u8], little_endian: bool, wanted: u16, wanted_len: u16) -> Option<&[u8]>
    requires { 20 ≤ length interface.now }
    ensures value { MatchOption result (option_of little_endian wanted wanted_len interface.now ≡ None)
        (λ value. option_of little_endian wanted wanted_len interface.now ≡ Some value.now) }
    ensures len { IfSome result (λ value. length value.now ≡ wanted_len) }
{
    option_in(options(interface), little_endian, wanted, wanted_len)
}

fn option_in(options: &[u8], little_endian: bool, wanted: u16, wanted_len: u16) -> Option<&[u8]>
    ensures value { MatchOption result (option_among little_endian wanted wanted_len (length options.now) options.now ≡ None)
        (λ value. option_among little_endian wanted wanted_len (length options.now) options.now ≡ Some value.now) }
    ensures len { IfSome result (λ value. length value.now ≡ wanted_len) }
{
    let mut place = 0;
    while place < options.len() {
        let rest = &options[place..];
        match next_option(rest, little_endian) {
            NextOption::End | NextOption::Cut => return None,
            NextOption::Whole { code, len } => {
                if code == wanted && len == wanted_len {
                    return Some(&rest[OPTION_HEADER..OPTION_HEADER + len as usize]);
                }
                place += OPTION_HEADER + padded(u32::from(len));
            }
        }
    }
    None
}
