//! The program: the top call over real files, standard output and the built-in bench.
#![tactic(auto)]

use lq_host::FileHost;
use lq_top::{NO_MEMORY, run_program};
use std::env;
use std::process::ExitCode;

fn main(rt: HostRuntime) -> ExitCode {
    let args = env::args(&rt);
    let Ok(own) = rt.clone() else {
        return ExitCode::from(NO_MEMORY);
    };
    let mut host = FileHost::new(own);
    run_program(&rt, args, &mut host)
}
