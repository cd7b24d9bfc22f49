// What helps a person at a terminal, after the defined text of a call that went wrong. Where the error output is no
// terminal nothing is added.

use host_edge::{HostFiles, HostSink, Reason};
use std::io::{Error, IsTerminal, Write};

// The place and the system's reason.
fn say_reason(rt: &HostRuntime, reason: &Reason) {
    match reason.place() {
        Some(place) => {
            let _ = eprint!(rt; "host: {place}: {}\n", reason.error());
        }
        None => {
            let _ = eprint!(rt; "host: {}\n", reason.error());
        }
    }
}

// Why files failed, or else an output.
fn say_failure(rt: &HostRuntime, files: Option<&Reason>, out: Option<Error>) {
    if let Some(reason) = files {
        say_reason(rt, reason);
    } else if let Some(error) = out {
        let _ = eprint!(rt; "host: the output: {error}\n");
    }
}

/// After wrong words where help is, and after a device that failed what the host said of it.
pub(crate) fn hint<O: Write + Drop>(
    rt: &HostRuntime,
    code: u8,
    files: &HostFiles<HostRuntime>,
    out: &HostSink<O>,
) {
    if !rt.stderr().is_terminal() {
        return;
    }
    match code {
        2 => {
            let _ = eprint!(rt; "see: datalad --help\n");
        }
        4 => say_failure(rt, files.reason(), out.reason()),
        _ => {}
    }
}
