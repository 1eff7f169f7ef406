//! The program over standard input and output.
#![tactic(auto)]

mod launch;

use launch::run_args;
use outer_io::{StdSink, StdSource};
use std::process::ExitCode;
use std::{env, io};

fn main(rt: HostRuntime) -> ExitCode {
    let mut source = StdSource::new(rt.reader());
    let mut sink = StdSink::new(io::writer(&rt));
    run_args(&rt, rt.alloc(), env::args(&rt), &mut source, &mut sink)
}
