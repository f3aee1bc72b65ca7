//! Captures generated of a number and a count.
ghost use Rattle.std.specs.Prelude.{◌≡◌, ◌*◌, ◌/◌, ◌%◌, ◌≤◌, ◌<◌, IfOk};
ghost use Rattle.lq_model.specs.Generated.{generated_capture, generated_record, spread};

use crate::layout::HEADER;
use crate::writer::push_bytes;
use lq_model::NoMemory;
use std::alloc::Global;

const RECORD_BYTES: usize = 50;

// Microseconds, version 2.4, a snapshot length of 262,144, Ethernet.
const FILE_HEADER: [u8; HEADER] = [
    0xd4, 0xc3, 0xb2, 0xa1, 2, 0, 4, 0, 0, 0, 0, 0, 0, 0, 0, 0, 0, 0, 4, 0, 1, 0, 0, 0,
];

// A record: 8 bytes of time, two lengths of 34, an Ethernet header of 14 bytes, an IPv4 header of 20.
const TEMPLATE: [u8; RECORD_BYTES] = [
    0, 0, 0, 0, 0, 0, 0, 0, 34, 0, 0, 0, 34, 0, 0, 0, 2, 0, 0, 0, 0, 2, 2, 0, 0, 0, 0, 1, 8, 0,
    0x45, 0, 0, 20, 0, 0, 0, 0, 64, 253, 0, 0, 10, 0, 0, 0, 10, 0, 1, 0,
];

// Places in a record.
const TYPE_OF_SERVICE: usize = 31;

const IDENTIFICATION: usize = 34;

const SOURCE: usize = 45;

const DESTINATION: usize = 49;

/// A capture of `count` IPv4 packets in Ethernet frames, one each millisecond. Their types of service and addresses
/// vary with `number`.
///
/// # NoMemory
///
/// There was no room for its 24 + 50 * `count` bytes, which are reserved at once.
#[tactic(auto, using(crate::proofs::GeneratorLemmas::generated_none, crate::proofs::GeneratorLemmas::generated_more))]
pub fn gen_capture(alloc: Global, number: u32, count: u32) -> Result<Vec<u8>, NoMemory>
    requires { count ≤ 1000000 }
    ensures { IfOk result (λ text. text.items ≡ generated_capture number count) }
{
    let len = HEADER + RECORD_BYTES * count as usize;
    let mut text = Vec::with_capacity(alloc, len).map_err(|_| NoMemory)?;
    push_bytes(&mut text, &FILE_HEADER)?;
    for i in 0..count {
        push_bytes(&mut text, &record(number, i))?;
    }
    Ok(text)
}

// Record `i`, with its header: an Ethernet and an IPv4 header in which only these fields differ from the template.
fn record(number: u32, i: u32) -> [u8; RECORD_BYTES]
    ensures { result ≡ generated_record number i }
{
    let mut record = TEMPLATE;
    record[0..4].copy_from_slice(&(i / 1000).to_le_bytes());
    record[4..8].copy_from_slice(&(i % 1000 * 1000).to_le_bytes());
    record[TYPE_OF_SERVICE] = type_of_service(number, i);
    record[IDENTIFICATION..IDENTIFICATION + 2].copy_from_slice(&identification(i).to_be_bytes());
    record[SOURCE] = source(number, i);
    record[DESTINATION] = destination(i);
    record
}

fn identification(i: u32) -> u16
    ensures { result ≡ i % 65536 }
{
    (i % 0x1_0000) as u16
}

// What varies from packet to packet.
fn spread_of(number: u32, i: u32) -> u16
    ensures { result ≡ spread number i }
{
    ((u64::from(number) + 40503 * u64::from(i)) % 0x1_0000) as u16
}

fn type_of_service(number: u32, i: u32) -> u8
    ensures { result ≡ 2 * (spread number i % 16) }
{
    (2 * (spread_of(number, i) % 16)) as u8
}

fn source(number: u32, i: u32) -> u8
    ensures { result ≡ (spread number i / 16) % 256 }
{
    (spread_of(number, i) / 16 % 0x100) as u8
}

fn destination(i: u32) -> u8
    ensures { result ≡ i % 256 }
{
    (i % 0x100) as u8
}
