//! Hosts: what real files hold, faults that are told, and a host in memory that fails where it is told to.
ghost use Rattle.std.specs.Prelude.{◌<◌, ◌≤◌, length, IfOk};
ghost use Rattle.lq_host.specs.Host.{IsWriter};
ghost use Rattle.lq_host.specs.MemHost.{mem_state};

use lq_host::{FileHost, Host, HostCall, HostError, MemHost};
use std::alloc::{Allocator, Global};
use std::fmt::Display;
use std::fs;
use std::fs::{Metadata, OpenFile, OpenOptions};
use std::io::{Error, ErrorKind, Print, Read, Result as IoResult, Seek, SeekFrom, Write};
use std::process::Abort;
use std::rt::Files;

// Makes a file of these bytes.
fn write_file<H: Host>(host: &mut H, name: &str, bytes: &[u8]) -> Result<(), HostError>
    requires { H.may_create name.now }
{
    let h = host.create(name)?;
    host.write(h, bytes)?;
    host.finish(h)?;
    Ok(())
}

// Fills the front of a buffer with the first bytes of a file, and tells how many they are.
fn read_file<H: Host>(host: &mut H, name: &str, buf: &mut [u8]) -> Result<usize, HostError>
    requires may { H.may_open name.now }
    requires room { 0 < length buf.old }
    ensures { IfOk result (λ n. n ≤ length buf.new) }
{
    let h = host.open_read(name)?;
    let count = host.read(h, buf)?;
    host.finish(h)?;
    Ok(count)
}

const FOLDER: &str = "lq_host_files";

const NAME: &str = "lq_host_files/file";

/// A hundred bytes, and then fewer.
const TEXTS: [&[u8]; 2] = [
    b"0123456789abcdefghijklmnopqrstuvwxyzABCDEFGHIJKLMNOPQRSTUVWXYZ.,:;!?+-*/=<>()[]{}|~^_#@%&$ the end..",
    b"abc",
];

fn make_folder(rt: &(impl Abort + Files), name: &str) {
    assert!(rt; fs::create_dir_all(rt, name).is_ok());
}

fn remove_folder(rt: &(impl Abort + Files), name: &str) {
    assert!(rt; fs::remove_dir(rt, name).is_ok());
}

/// A file has these bytes, and no others, once they were written to it.
fn check_written<R: Files + Print + AllocGlobal + Drop>(
    rt: &impl Abort,
    host: &mut FileHost<R>,
    bytes: &[u8],
) {
    let mut buf = [0u8; 100];
    write_file(host, NAME, bytes).ok().expect(rt, "a file");
    let count = read_file(host, NAME, &mut buf).ok().expect(rt, "a file");
    assert_eq!(rt; &buf[..count], bytes);
}

/// A file that is created anew loses the bytes that it had.
fn check_all_written<R: Files + Print + AllocGlobal + Drop>(
    rt: &(impl Abort + Files),
    host: &mut FileHost<R>,
) {
    for &bytes in &TEXTS {
        check_written(rt, host, bytes);
    }
    assert!(rt; fs::remove_file(rt, NAME).is_ok());
}

#[test]
fn real_files_keep_what_was_written(rt: HostRuntime) {
    let mut host = FileHost::new(rt.clone().expect(&rt, "memory"));
    make_folder(&rt, FOLDER);
    check_all_written(&rt, &mut host);
    remove_folder(&rt, FOLDER);
    let faults = host.faults();
    let opened = host.open_read(NAME);
    assert_eq!(rt;
        (faults, opened, host.faults()),
        (0, Err(HostError::Failed), 1)
    );
}

/// A folder can be opened, and its bytes can't be read.
#[test]
fn a_folder_is_a_fault(rt: HostRuntime) {
    let mut buf = [0u8; 10];
    let mut host = FileHost::new(rt.clone().expect(&rt, "memory"));
    make_folder(&rt, "lq_host_folder");
    let read = read_file(&mut host, "lq_host_folder", &mut buf);
    let created = write_file(&mut host, "lq_host_folder", b"abc");
    remove_folder(&rt, "lq_host_folder");
    let failed = HostError::Failed;
    assert_eq!(rt;
        (read, created, host.faults()),
        (Err(failed), Err(failed), 2)
    );
}

/// A device that takes no bytes.
#[test]
fn a_full_device_is_a_fault(rt: HostRuntime) {
    let mut host = FileHost::new(rt.clone().expect(&rt, "memory"));
    let written = write_file(&mut host, "/dev/full", b"abc");
    assert_eq!(rt; (written, host.faults()), (Err(HostError::Failed), 1));
}

/// A file whose reading is interrupted so many times, and then gives one byte, or fails. All else that it is asked fails.
#[derive(Drop)]
struct Interrupted {
    times: u32,
    fails: bool,
}

fn full<T>() -> IoResult<T> {
    Err(Error::from(ErrorKind::StorageFull))
}

impl Read for Interrupted {
    fn read(&mut self, buf: &mut [u8]) -> IoResult<usize> {
        if self.times > 0 {
            self.times -= 1;
            return Err(Error::from(ErrorKind::Interrupted));
        }
        if self.fails || buf.is_empty() {
            return Err(Error::from(ErrorKind::BrokenPipe));
        }
        buf[0] = b'a';
        Ok(1)
    }
}

impl Write for Interrupted {
    fn write(&mut self, _buf: &[u8]) -> IoResult<usize> {
        Err(Error::from(ErrorKind::StorageFull))
    }

    fn flush(&mut self) -> IoResult<()> {
        full()
    }
}

impl Seek for Interrupted {
    fn seek(&mut self, _to: SeekFrom) -> IoResult<u64> {
        full()
    }
}

impl OpenFile for Interrupted {
    fn metadata(&self) -> IoResult<Metadata> {
        full()
    }

    fn set_len(&self, _size: u64) -> IoResult<()> {
        full()
    }

    fn sync_all(&self) -> IoResult<()> {
        full()
    }

    fn sync_data(&self) -> IoResult<()> {
        full()
    }
}

/// A standard output that takes no bytes, and files of which each is interrupted so many times, whatever its name.
#[derive(Drop)]
struct Faulty {
    times: u32,
    fails: bool,
}

impl Print for Faulty {
    fn print<D: Display + Drop>(&self, _value: D) -> IoResult<()> {
        full()
    }

    fn println<D: Display + Drop>(&self, _value: D) -> IoResult<()> {
        full()
    }

    fn write_all(&self, _bytes: &[u8]) -> IoResult<()> {
        full()
    }
}

impl Files for Faulty {
    type File = Interrupted;

    type Dir = Interrupted;

    fn open_file(&self, _how: &OpenOptions, _path: &str) -> IoResult<Interrupted> {
        Ok(Interrupted {
            times: self.times,
            fails: self.fails,
        })
    }

    fn open_dir(&self, _path: &str) -> IoResult<Self::Dir> {
        full()
    }

    fn metadata(&self, _path: &str) -> IoResult<Metadata> {
        full()
    }

    fn symlink_metadata(&self, _path: &str) -> IoResult<Metadata> {
        full()
    }

    fn copy(&self, _from: &str, _to: &str) -> IoResult<u64> {
        full()
    }

    fn rename(&self, _from: &str, _to: &str) -> IoResult<()> {
        full()
    }

    fn remove_file(&self, _path: &str) -> IoResult<()> {
        full()
    }

    fn create_dir(&self, _path: &str) -> IoResult<()> {
        full()
    }

    fn remove_dir(&self, _path: &str) -> IoResult<()> {
        full()
    }

    fn remove_dir_all<B: Allocator>(&self, _alloc: B, _path: &str) -> IoResult<()> {
        full()
    }
}

#[test]
fn a_full_output_is_a_fault(rt: HostRuntime) {
    let faulty = Faulty {
        times: 0,
        fails: false,
    };
    let mut host = FileHost::new((faulty, rt.alloc()));
    let written = host.write(0, b"abc");
    assert_eq!(rt; (written, host.faults()), (Err(HostError::Failed), 1));
}

/// What reading a file answers that is interrupted so many times and then fails or doesn't, whether a byte came, and whether there was
/// a fault.
fn reading_of(alloc: Global, times: u32, fails: bool) -> (Result<usize, HostError>, bool, bool) {
    let mut buf = [0u8; 2];
    let mut host = FileHost::new((Faulty { times, fails }, alloc));
    let read = read_file(&mut host, "any", &mut buf);
    (read, buf[0] == b'a', host.faults() > 0)
}

/// Both where the file then gives a byte, and where it then fails.
#[test]
fn an_interrupted_reading_goes_on(rt: HostRuntime) {
    for times in 0..3 {
        let given = reading_of(rt.alloc(), times, false);
        assert_eq!(rt; given, (Ok(1), true, false));
        let failed = reading_of(rt.alloc(), times, true);
        assert_eq!(rt; failed, (Err(HostError::Failed), false, true));
    }
}

/// Were the files kept open, some file had the number of the last one by then.
#[test]
fn a_finished_file_is_closed(rt: HostRuntime) {
    let mut buf = [0u8; 1];
    let mut host = FileHost::new(rt.clone().expect(&rt, "memory"));
    for _ in 0..100 {
        assert_eq!(rt; read_file(&mut host, "/dev/null", &mut buf), Ok(0));
    }
    assert_eq!(rt; host.open_read("/proc/self/fd/90"), Err(HostError::Failed));
}

fn check_file(rt: &impl Abort, host: &MemHost, name: &str, bytes: Option<&[u8]>) {
    assert_eq!(rt; host.file(name), bytes);
}

#[test]
fn memory_keeps_what_was_written(rt: HostRuntime) {
    let mut buf = [0u8; 4];
    let mut host = MemHost::new(rt.alloc());
    let put = host.put_file("given", b"abcdef");
    let written = write_file(&mut host, "made", b"xyz");
    let given = read_file(&mut host, "given", &mut buf);
    assert_eq!(rt;
        (put, written, given, buf),
        (Ok(()), Ok(()), Ok(4), *b"abcd")
    );
    check_file(&rt, &host, "made", Some(b"xyz"));
    check_file(&rt, &host, "other", None);
}

// Writes to the standard output, which can be written to again.
fn write_out(host: &mut MemHost, bytes: &[u8]) -> Result<(), HostError>
    requires { IsWriter ((mem_state host.old).handles 0) }
    ensures { IsWriter ((mem_state host.new).handles 0) }
{
    host.write(0, bytes)
}

#[test]
fn the_named_call_fails(rt: HostRuntime) {
    let mut host = MemHost::new(rt.alloc());
    for &k in &[2, 4, 0] {
        assert_eq!(rt; host.fail_at(HostCall::Write, k), Ok(()));
    }
    let first = write_out(&mut host, b"a");
    let second = write_out(&mut host, b"b");
    let third = write_out(&mut host, b"c");
    let fourth = write_out(&mut host, b"d");
    let failed = Err(HostError::Failed);
    assert_eq!(rt;
        (first, second, third, fourth),
        (Ok(()), failed, Ok(()), failed)
    );
    assert_eq!(rt; (host.output(), host.faults()), (b"ac".as_slice(), 2));
}
