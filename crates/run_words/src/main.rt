//! The program with its two sinks exchanged, for a stored run with words that are not right.
#![tactic(auto)]

use perfly_top::run;
use pf_io::{FreeGate, StdSink, StdSource};
use std::env;
use std::process::ExitCode;

fn main(rt: HostRuntime) -> ExitCode {
    run(
        rt.alloc(),
        &rt,
        env::args(&rt),
        &mut StdSource::new(rt.stdin()),
        &mut StdSink::new(rt.stderr()),
        &mut StdSink::new(rt.stdout()),
        FreeGate,
    )
}
