//! Plays the script on standard input as `bac replay` does, and prints the same. It stands on
//! bac_script alone, so `rt try` has its first lines sooner than those of `bac`. A fault is told in
//! one line, with status 1: what is to mend, `bac replay` tells.
#![tactic(auto)]

use bac_script::run_replay;
use std::io;
use std::io::{BufWriter, Write};
use std::process::ExitCode;

fn main(rt: HostRuntime) -> ExitCode {
    let Ok(mut output) = BufWriter::new(rt.alloc(), io::writer(&rt)) else {
        return ExitCode::FAILURE;
    };
    let played = run_replay(rt.alloc(), &mut rt.reader(), &mut output);
    let flushed = output.flush();
    match played {
        Ok(()) if flushed.is_ok() => ExitCode::SUCCESS,
        Ok(()) => ExitCode::FAILURE,
        Err(fault) => {
            let _ = writeln!(rt.stderr(), "{fault}");
            ExitCode::FAILURE
        }
    }
}
