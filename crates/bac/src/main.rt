//! The program `bac`: its words, its standard streams, the machine's sockets, its files and its
//! clock. What it does with them is in the crate bac_run.
#![tactic(auto)]

use bac_drive::SteadyClock;
use bac_invoke_ids::Onward;
use bac_run::{Console, DiskFiles, FolderFiles, Machine, run};
use bac_socket_notes::Heeding;
use bac_tools::{Fault, SystemClock, UdpSockets, UntilRefused, tell};
use bac_trace::{Traced, Writers};
use sqlite::Unknown;
use std::env::Args;
use std::io::{BufWriter, ErrorKind, Stderr};
use std::process::ExitCode;
use std::{env, io};

/// All words, the first of which is the program's name. `env::args` tells one that isn't UTF-8 by
/// an error for all of them.
fn words_of(rt: &HostRuntime) -> Result<Vec<String>, Fault> {
    let words = match env::args(rt) {
        Ok(words) => words,
        Err(error) if error.kind() == ErrorKind::OutOfMemory => return Err(Fault::Memory),
        Err(_) => return Err(Fault::NotText),
    };
    let mut list = Vec::new(rt.alloc());
    for word in words {
        if list.push(word).is_err() {
            return Err(Fault::Memory);
        }
    }
    Ok(list)
}

/// Standard error, once for each port.
#[derive(Drop)]
struct StandardErrors<'a> {
    rt: &'a HostRuntime,
}

impl<'a> Writers for StandardErrors<'a> {
    type Writer = Stderr;

    fn writer(&mut self) -> Stderr {
        self.rt.stderr()
    }
}

/// Runs the program, and answers its exit status.
fn started(rt: &HostRuntime) -> Result<u8, Fault> {
    let words = words_of(rt)?;
    // What the buffer holds after a refused write isn't written when it is dropped.
    let writer = UntilRefused::new(io::writer(rt));
    let Ok(output) = BufWriter::new(rt.alloc(), writer) else {
        return Err(Fault::Memory);
    };
    let mut machine = Machine {
        sockets: Onward::new(Traced::new(
            rt.alloc(),
            Heeding::new(UdpSockets::new(rt)),
            StandardErrors { rt },
        )),
        files: DiskFiles::new(rt, Unknown),
        parts: DiskFiles::new(rt, Unknown),
        folders: FolderFiles::new(rt),
        clock: SystemClock::new(rt),
    };
    let mut console = Console {
        input: rt.reader(),
        output,
        errors: rt.stderr(),
    };
    let waits = SteadyClock::new(rt);
    Ok(run(&mut machine, &mut console, rt.alloc(), waits, &words))
}

fn main(rt: HostRuntime) -> ExitCode {
    match started(&rt) {
        Ok(status) => ExitCode::from(status),
        Err(fault) => ExitCode::from(tell(rt.alloc(), fault, &mut rt.stderr())),
    }
}
