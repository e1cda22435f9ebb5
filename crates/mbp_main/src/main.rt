//! The program `mbp`: its words, the real files and the standard streams, and the world and the
//! monitors of a replay, handed to `mbp_top::run`.
#![tactic(auto)]

use command_base::{NO_MEMORY, command_words};
use mbp_top::run;
use plan_io::{DiskShelf, StdSink};
use run_replay::{ChangeMonitor, Monitor, RecordWorld, StepMonitor, World};
use std::io;
use std::process::ExitCode;

fn main(rt: HostRuntime) -> ExitCode {
    match run_words(&rt) {
        Ok(status) => ExitCode::from(status),
        Err(_) => ExitCode::from(NO_MEMORY),
    }
}

/// Does what the program's words say, and gives the exit status. A replay draws from the record,
/// and counts steps and changes. Fails only where memory runs out, and then nothing is written.
fn run_words(rt: &HostRuntime) -> io::Result<u8> {
    let alloc = rt.alloc();
    let words = command_words(rt)?;
    let world: Box<dyn World> = Box::new(alloc, RecordWorld::new(alloc))?;
    let mut monitors: Vec<Box<dyn Monitor>> = Vec::new(alloc);
    monitors.push(Box::new(alloc, StepMonitor::new())?)?;
    monitors.push(Box::new(alloc, ChangeMonitor::new())?)?;
    let mut shelf = DiskShelf::new(rt);
    let mut out = StdSink::new(rt.stdout());
    let mut err = StdSink::new(rt.stderr());
    Ok(run(
        alloc, &words, &mut shelf, &mut out, &mut err, world, monitors,
    ))
}
