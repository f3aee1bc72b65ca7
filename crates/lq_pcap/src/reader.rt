//! Reading bytes as a capture.
ghost use Rattle.std.specs.Prelude.{◌≡◌, ◌≤◌, ◌-◌, length, IfOk};
ghost use Rattle.lq_model.specs.Capture.{capture_of, count_from, is_little_endian};
ghost use Rattle.lq_pcap.specs.Reading.{ArePlaces, Gives, IsEnd};

use crate::layout::{
    CAPTURED_LENGTH, HEADER, MAJOR_VERSION, MAX_CAPTURED_LENGTH, MAX_RECORDS, RECORD_HEADER,
    VERSION,
};
use crate::numbers::{begins_big_endian, begins_little_endian, major, number};
use crate::places::Places;
use crate::records::Capture;
use crate::refusal::CaptureRefusal;
use lq_model::CaptureReason;
use std::alloc::Global;

/// The capture that the bytes are. It keeps them, and the place of each record beside them.
///
/// # Refused
///
/// The first test that the bytes fail: `ShortHeader` at their length, `Magic` at 0, `Version` at 4, and then for each
/// record, at the place where it begins, `TooMany`, `CutRecordHeader`, `LongRecord` and `CutData`.
///
/// # NoMemory
///
/// There was no room for the places of the records, 4 bytes each, and 8 behind 4 GiB. The bytes are dropped.
pub fn read_capture(alloc: Global, bytes: Vec<u8>) -> Result<Capture, CaptureRefusal>
    ensures { Gives (λ capture. capture) result (capture_of bytes.items) }
{
    if bytes.len() < HEADER {
        return Err(refused_at(CaptureReason::ShortHeader, bytes.len()));
    }
    let little_endian = begins_little_endian(&bytes);
    if !little_endian && !begins_big_endian(&bytes) {
        return Err(refused_at(CaptureReason::Magic, 0));
    }
    if major(&bytes, little_endian) != MAJOR_VERSION {
        return Err(refused_at(CaptureReason::Version, VERSION));
    }
    let places = places_of(alloc, &bytes, little_endian)?;
    Ok(Capture { bytes, places })
}

fn refused_at(reason: CaptureReason, place: usize) -> CaptureRefusal
    ensures { result ≡ CaptureRefusal.Refused reason place }
{
    CaptureRefusal::Refused {
        reason,
        place: place as u64,
    }
}

// Where the records begin and the last one ends.
fn places_of(alloc: Global, bytes: &[u8], little_endian: bool) -> Result<Places, CaptureRefusal>
    requires header { 24 ≤ length bytes.now }
    requires order { little_endian ≡ is_little_endian bytes.now }
    ensures places { IfOk result (λ places. ArePlaces bytes.now places) }
    ensures count { Gives (λ places. length places - 1) result (count_from bytes.now 1000000 0) }
{
    let mut places = Places::new(alloc);
    let mut place = HEADER;
    places.push(place)?;
    while place < bytes.len() {
        if places.len() > MAX_RECORDS {
            return Err(refused_at(CaptureReason::TooMany, place));
        }
        match record_end(bytes, little_endian, place) {
            Ok(end) => place = end,
            Err(reason) => return Err(refused_at(reason, place)),
        }
        places.push(place)?;
    }
    Ok(places)
}

// Where the record at a place ends, or what keeps it from being whole.
fn record_end(bytes: &[u8], little_endian: bool, place: usize) -> Result<usize, CaptureReason>
    requires within { place ≤ length bytes.now }
    requires order { little_endian ≡ is_little_endian bytes.now }
    ensures { IsEnd bytes.now place result }
{
    if bytes.len() - place < RECORD_HEADER {
        return Err(CaptureReason::CutRecordHeader);
    }
    let captured_length = number(bytes, little_endian, place + CAPTURED_LENGTH);
    if captured_length > MAX_CAPTURED_LENGTH {
        return Err(CaptureReason::LongRecord);
    }
    let data = place + RECORD_HEADER;
    if bytes.len() - data < captured_length as usize {
        return Err(CaptureReason::CutData);
    }
    Ok(data + captured_length as usize)
}
