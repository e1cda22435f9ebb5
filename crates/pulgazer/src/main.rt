//! The program `pulgazer`: its words, the real files and the standard streams, handed to
//! `pulgazer_top::run_words`.
#![tactic(auto)]

use answer_help::KeepingShelf;
use command_base::{NO_MEMORY, command_words};
use plan_io::{DiskShelf, StdSink};
use std::io;
use std::process::ExitCode;

fn main(rt: HostRuntime) -> ExitCode {
    match run_program(&rt) {
        Ok(status) => ExitCode::from(status),
        Err(_) => ExitCode::from(NO_MEMORY),
    }
}

/// Does what the program's words say, and gives the exit status. Fails only where memory runs out, and then
/// nothing is written.
fn run_program(rt: &HostRuntime) -> io::Result<u8> {
    let words = command_words(rt)?;
    let mut shelf = KeepingShelf::new(rt.alloc(), DiskShelf::new(rt));
    let mut out = StdSink::new(rt.stdout());
    let mut err = StdSink::new(rt.stderr());
    Ok(pulgazer_top::run_words(rt.alloc(), &words, &mut shelf, &mut out, &mut err)?)
}
