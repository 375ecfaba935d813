//! `clingcon`: solves the answer set program in one input and prints what was found.
//!
//! It makes the real files and streams and calls `run` of `clingcon_app`, which says what is printed and
//! with which status it ends. Status 73: the words of the command can't be had.
#![tactic(auto)]

use clingcon_app::run;
use outside_io::{HostFiles, HostSink};
use std::env;
use std::process::ExitCode;

fn main(rt: HostRuntime) -> ExitCode {
    let alloc = rt.alloc();
    let mut words = Vec::new(alloc);
    let Ok(mut arguments) = env::args(&rt) else {
        return ExitCode::from(73);
    };
    let _program = arguments.next();
    for word in arguments {
        if words.push(word).is_err() {
            return ExitCode::from(33);
        }
    }
    let mut files = HostFiles::new(&rt);
    let mut out = HostSink::new(&rt, true);
    let mut proof = HostSink::new(&rt, false);
    let report = run(alloc, &words, &mut files, &mut out, &mut proof);
    ExitCode::from(report.status)
}
