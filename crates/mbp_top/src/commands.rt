//! From the words to the answer.

ghost use Rattle.command_base.specs.Shelves.{KeepsShelf};
ghost use Rattle.command_base.specs.Values.{answer_of};
ghost use Rattle.command_base.specs.Words.{Command as SaidCommand, SayNothing, Says};
ghost use Rattle.mbp_top.specs.Causes.{HasCause};
ghost use Rattle.mbp_top.specs.Fetching.{FetchesFiles};
ghost use Rattle.plan_io.specs.Fetches.{FailedLast};
ghost use Rattle.run_replay.specs.TraceTexts.{tallies_of};
ghost use Rattle.std.specs.Prelude.{◌≡◌, All, map, string_bytes};

use check_command::check_files;
use command_base::{Command, Refusal, Shown, read_words};
use drill_command::run_drill;
use ground_command::ground_files;
use plan_command::plan_files;
use plan_io::Shelf;
use refute_command::refute_files;
use replay_command::replay_files;
use run_replay::{Monitor, World};
use std::alloc::Global;

/// Does what the words say, and gives the answer. `replay` alone uses the world and the monitors.
pub(crate) fn answer<S: Shelf>(
    alloc: Global,
    words: &[String],
    shelf: &mut S,
    world: &mut Box<dyn World>,
    monitors: &mut Vec<Box<dyn Monitor>>,
) -> Result<Shown, Refusal>
    requires untold { All (λ monitor. (shown monitor).counted ≡ 0) monitors.old.items }
    ensures cause { let failed = FailedLast S.fetched S.faults shelf.old shelf.new in
        HasCause (S.held shelf.old) failed
        (tallies_of (map (λ monitor. shown monitor) monitors.old.items))
        (map string_bytes words.now) (answer_of result) }
    ensures fetches { let failed = FailedLast S.fetched S.faults shelf.old shelf.new in
        (command : SaidCommand) → Says (map string_bytes words.now) command
        → FetchesFiles (S.held shelf.old) failed S.fetched command (answer_of result)
        shelf.old shelf.new }
    ensures no_fetch { SayNothing (map string_bytes words.now) → shelf.new ≡ shelf.old }
    ensures shelf { KeepsShelf S.held S.faults (answer_of result) shelf.old shelf.new }
{
    match read_words(words) {
        Command::Plan(asked) => plan_files(alloc, shelf, &asked),
        Command::Ground(asked) => ground_files(alloc, shelf, &asked),
        Command::Check(asked) => check_files(alloc, shelf, &asked),
        Command::Replay(asked) => replay_files(alloc, shelf, &asked, world, monitors),
        Command::Drill(asked) => run_drill(alloc, &asked),
        Command::Refute(asked) => refute_files(alloc, shelf, &asked),
        Command::Nothing => Err(Refusal::NoCommand),
    }
}
