//! The program: reads a live text from standard input while it comes, writes its pictures to standard output, and tells of it on
//! standard error.
#![tactic(auto)]

mod stack;

use live_run::{Streamed, run};
use pf_io::{FreeGate, StdSink, StdSource};
use stack::take_stack;
use std::env;
use std::process::ExitCode;

/// Status: out of memory.
const NO_MEMORY: u8 = 7;

fn main(rt: HostRuntime) -> ExitCode {
    let arguments = env::args(&rt);
    // The two places differ, so the byte is 0; it is looked at so that the local stays.
    if take_stack(u8::from(arguments.is_ok()), u8::from(arguments.is_err())) != 0 {
        return ExitCode::from(NO_MEMORY);
    }
    run(
        rt.alloc(),
        &rt,
        arguments,
        &mut Streamed::new(StdSource::new(rt.stdin())),
        &mut StdSink::new(rt.stdout()),
        &mut StdSink::new(rt.stderr()),
        FreeGate,
    )
}
