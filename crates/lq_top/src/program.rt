//! What the program does: the top call over a host and the built-in bench.
ghost use Rattle.std.specs.Prelude.{◌≡◌, ℕ, List, IfOk, map, drop, string_bytes};
ghost use Rattle.std.specs.Process.{exit_status};
ghost use Rattle.std.specs.Vec.Iter.{into_iter_items};
ghost use Rattle.lq_device.specs.Bench.{bench_state};
ghost use Rattle.lq_host.specs.Host.{IsUnused};
ghost use Rattle.lq_files.specs.Command.{command_of_words, bytes_of_words};
ghost use Rattle.lq_top.specs.Names.{MayDo};
ghost use Rattle.lq_top.specs.Program.{IsCodeOfCall, IsCodeOfLine, IsCodeOfWords, TellsTexts, host_at, new_bench};

use crate::top::lqtx;
use lq_device::BenchDevice;
use lq_host::Host;
use lq_model::NoMemory;
use lq_senders::Free;
use std::alloc::{AllocError, Global};
use std::env::Args;
use std::io::{self, ErrorKind};
use std::marker::Sync;
use std::process::ExitCode;
use std::rt::Runtime;
use std::sync::Wait;
use std::thread::Threads;

/// The devices of the built-in bench.
const DEVICES: usize = 16;

/// The exit status where memory for the words, the devices or the host is wanting.
pub const NO_MEMORY: u8 = 6;

/// The exit status where the words can't be had for another cause, as one that isn't UTF-8.
const NO_WORDS: u8 = 9;

/// The words behind the program's own name.
fn texts_behind(alloc: Global, mut args: Args) -> Result<Vec<String>, AllocError>
    ensures { IfOk result (λ texts. texts.items ≡ drop 1 (into_iter_items args)) }
{
    let _ = args.next();
    args.collect::<Vec<String>>(alloc)
}

/// The words of a command line, or the exit status where they can't be had.
fn texts_of(alloc: Global, args: io::Result<Args>) -> Result<Vec<String>, u8>
    ensures { TellsTexts args result }
{
    match args {
        Ok(all) => match texts_behind(alloc, all) {
            Ok(texts) => Ok(texts),
            Err(_) => Err(NO_MEMORY),
        },
        Err(error) if error.kind() == ErrorKind::OutOfMemory => Err(NO_MEMORY),
        Err(_) => Err(NO_WORDS),
    }
}

/// The words as texts.
fn words_of(alloc: Global, texts: &[String]) -> Result<Vec<&str>, AllocError>
    ensures { IfOk result (λ words. bytes_of_words words.items ≡ map string_bytes texts.now) }
{
    let mut words = Vec::new(alloc);
    for text in texts {
        words.push(text.as_str())?;
    }
    Ok(words)
}

/// The 16 devices of the built-in bench, none of them configured.
fn bench_devices(alloc: Global) -> Result<Vec<BenchDevice>, NoMemory>
    ensures { IfOk result (λ devices. map bench_state devices.items ≡ new_bench) }
{
    let Ok(mut devices) = Vec::with_capacity(alloc, DEVICES) else {
        return Err(NoMemory);
    };
    while devices.len() < DEVICES {
        devices.push_reserved(BenchDevice::new(alloc));
    }
    Ok(devices)
}

/// The exit status of the program with these words over a host: the code of the status that [`lqtx`] answers on a bench of 16
/// built-in devices that were never configured; or 6 where there was no memory for the devices, and then nothing is done.
pub fn run_words<R: Threads + Wait + Sync, H: Host>(
    rt: &R,
    alloc: Global,
    words: &[&str],
    host: &mut H,
) -> u8
    requires may { MayDo H.may_open H.may_create (command_of_words (bytes_of_words words.now)) }
    ensures { IsCodeOfWords (bytes_of_words words.now) (host_at (H.state host.old) (H.fault_count host.old))
        (host_at (H.state host.new) (H.fault_count host.new)) result }
{
    let Ok(mut bench) = bench_devices(alloc) else {
        return NO_MEMORY;
    };
    let mut ended = Vec::new(alloc);
    let status = lqtx(rt, alloc, words, host, &mut bench, &mut ended, &Free);
    status.code()
}

/// All that `main` does with the arguments that the program was given and with a new host, over real files and standard output:
/// `lqtx` with the words behind the program's own name, on a bench of 16 built-in devices that were never configured. The exit
/// status is the code of the status that it answers; 6 where there was no memory for the words or the devices; 9 where the
/// arguments can't be had for another cause, as one that isn't UTF-8.
#[tactic(auto, using(crate::proofs::ProgramLemmas::code_without, crate::proofs::ProgramLemmas::code_for_memory, crate::proofs::ProgramLemmas::code_of_words))]
pub fn run_program<R: Runtime + AllocGlobal + Threads + Wait + Sync, H: Host>(
    rt: &R,
    args: io::Result<Args>,
    host: &mut H,
) -> ExitCode
    requires may_open { (name : List ℕ) → H.may_open name }
    requires may_create { (name : List ℕ) → H.may_create name }
    // What the host tells at the end is what this call did: nothing was asked of it before.
    requires unused { IsUnused (H.state host.old) }
    ensures { IsCodeOfLine args (host_at (H.state host.old) (H.fault_count host.old))
        (host_at (H.state host.new) (H.fault_count host.new)) (exit_status result) }
{
    let texts = match texts_of(rt.alloc(), args) {
        Ok(texts) => texts,
        Err(code) => return ExitCode::from(code),
    };
    let code = match words_of(rt.alloc(), &texts) {
        Ok(words) => run_words(rt, rt.alloc(), &words, host),
        Err(_) => NO_MEMORY,
    };
    ExitCode::from(code)
}
