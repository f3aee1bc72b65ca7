// The files of a host in memory.
ghost use Rattle.std.specs.Prelude.{◌≡◌, ◌<◌, ◌≤◌, ◌+◌, ◌^◌, ◌++◌, [], None, length, take, drop, OnOk, OnErr, IsSome, MatchOption};
ghost use Rattle.lq_host.specs.Host.{with_file, extended, bytes_of};
ghost use Rattle.lq_host.specs.Files.{lookup, IsFirstAt};

use std::alloc::{AllocError, Global};

// A file of a host in memory.
#[derive(Drop)]
pub(crate) struct MemFile {
    // The name by which it is opened.
    pub(crate) name: String,
    // All of its bytes, from the first on.
    pub(crate) bytes: Vec<u8>,
}

// The place of the first file of this name.
pub(crate) fn find_file(files: &[MemFile], name: &str) -> Option<usize>
    ensures { MatchOption result (lookup files.now name.now ≡ None)
        (λ i. (i < length files.now) × IsFirstAt files.now i name.now × IsSome (lookup files.now name.now)) }
{
    for (i, file) in files.iter().enumerate() {
        if name == file.name.as_str() {
            return Some(i);
        }
    }
    None
}

// The bytes of a file, none where there is no such file.
pub(crate) fn bytes_in<'a>(files: &'a [MemFile], name: &str) -> &'a [u8]
    ensures { result.now ≡ bytes_of (lookup files.now) name.now }
{
    match find_file(files, name) {
        Some(i) => &files[i].bytes,
        None => &[],
    }
}

// Gives a file these bytes.
pub(crate) fn put(
    alloc: Global,
    files: &mut Vec<MemFile>,
    name: &str,
    bytes: Vec<u8>,
) -> Result<(), AllocError>
    ensures ok { OnOk result (lookup files.new.items ≡ with_file (lookup files.old.items) name.now bytes.items) }
    ensures err { OnErr result (files.new.items ≡ files.old.items) }
{
    match find_file(files, name) {
        Some(i) => {
            let file = &mut files[i];
            file.bytes = bytes;
            Ok(())
        }
        None => {
            let name = String::from_str(alloc, name)?;
            files.push(MemFile { name, bytes })?;
            Ok(())
        }
    }
}

// Gives a file these bytes more.
pub(crate) fn extend(files: &mut Vec<MemFile>, name: &str, more: &[u8]) -> Result<(), AllocError>
    ensures ok { OnOk result (lookup files.new.items ≡ extended (lookup files.old.items) name.now more.now) }
    ensures err { OnErr result (lookup files.new.items ≡ lookup files.old.items) }
{
    match find_file(files, name) {
        Some(i) => {
            let file = &mut files[i];
            match file.bytes.extend_from_slice(more) {
                Ok(()) => Ok(()),
                Err(error) => Err(error),
            }
        }
        None => Ok(()),
    }
}

// Fills the front of a buffer with the bytes at a place.
pub(crate) fn read_piece(bytes: &[u8], place: usize, buf: &mut [u8]) -> usize
    ensures within { result ≤ length buf.new }
    ensures bytes { drop place bytes.now ≡ take result buf.new ++ drop (place + result) bytes.now }
    ensures end { result ≡ 0 → 0 < length buf.old → drop place bytes.now ≡ [] }
    ensures fits { place + result < 2 ^ 64 }
{
    if place >= bytes.len() {
        return 0;
    }
    let rest = &bytes[place..];
    let count = rest.len().min(buf.len());
    buf[..count].copy_from_slice(&rest[..count]);
    count
}
