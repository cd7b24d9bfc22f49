//! The program `datalad`: what the host gives, one call over its files and outputs, and the exit status.
#![tactic(auto)]

mod calling;
mod hints;
mod start;

use crate::calling::call;
use crate::hints::hint;
use crate::start::{Failure, begin};
use host_edge::{HostFiles, HostSink};
use std::process::ExitCode;

fn run(rt: &HostRuntime) -> Result<u8, Failure> {
    let start = begin(rt)?;
    let mut files = HostFiles::new(rt.alloc(), rt.clone()?);
    let mut out = HostSink::new(rt.stdout());
    let mut err = HostSink::new(rt.stderr());
    let code = call(rt.alloc(), &start, &mut files, &mut out, &mut err).code();
    hint(rt, code, &files, &out);
    Ok(code)
}

fn main(rt: HostRuntime) -> ExitCode {
    match run(&rt) {
        Ok(code) => ExitCode::from(code),
        Err(failure) => {
            let _ = eprint!(rt; "{}", failure.text());
            ExitCode::from(failure.code())
        }
    }
}
