//! Records read, and the program's own world and monitors.

use run_replay::{ChangeMonitor, Monitor, RecordWorld, Step, StepMonitor, World, read_words};
use sexpr_text::{MAX_BYTES, ReadErr};
use std::alloc::Global;
use std::test::Fail;
use task_core::{ActionId, FluentId, State};

/// The record of a text as `FIRST/LINE:COLUMN/WORDS`, or its fault as `LINE:COLUMN CODE`.
fn told(alloc: Global, text: &str) -> Result<String, Fail> {
    if text.len() > MAX_BYTES {
        return Ok(String::new(alloc));
    }
    match read_words(alloc, text.as_bytes()) {
        Ok(recorded) => {
            let place = recorded.first_place;
            let mut line = format!(in alloc;
                "{}/{}:{}/",
                recorded.first, place.line, place.column
            )?;
            for word in &recorded.words {
                line.push_str(&format!(in alloc; "{word} ")?)?;
            }
            Ok(line)
        }
        Err(ReadErr::Fault(fault)) => Ok(format!(in alloc;
            "{}:{} {}",
            fault.place.line,
            fault.place.column,
            fault.kind.code()
        )?),
        Err(ReadErr::Memory) => Ok(String::from_str(alloc, "memory")?),
    }
}

#[test]
fn records_and_their_faults(rt: HostRuntime) -> Result<(), Fail> {
    let wanted = [
        ("(record 0 0 1 0)", "0/1:9/0 1 0 "),
        ("; a run\n(other) (RECORD 007)(record 1)", "7/2:17/"),
        ("", "1:1 5"),
        ("(other 1)", "1:1 5"),
        ("(record)", "1:1 6"),
        ("(record (1))", "1:9 6"),
        ("(record 0 1 (2) x)", "1:13 6"),
        ("(record 0 x (2))", "1:11 21"),
        ("(record 1234567890)", "1:9 21"),
        ("(record 0\n -1)", "2:2 21"),
        ("(record 0", "1:1 3"),
    ];
    for (text, line) in wanted {
        assert_eq!(rt; told(rt.alloc(), text)?.as_str(), line, "{text}");
    }
    Ok(())
}

#[test]
fn a_world_gives_its_numbers_in_order(rt: HostRuntime) -> Result<(), Fail> {
    let mut world = RecordWorld::new(rt.alloc());
    assert_eq!(rt; world.choose(), None);
    world.load(rt.alloc(), vec![in rt.alloc(); 4, 0]?)?;
    assert_eq!(rt; world.choose(), Some(4));
    world.load(rt.alloc(), vec![in rt.alloc(); 7]?)?;
    assert_eq!(rt; world.choose(), Some(7));
    assert_eq!(rt; world.choose(), None);
    Ok(())
}

#[test]
fn monitors_count(rt: HostRuntime) -> Result<(), Fail> {
    let before = State::none();
    let after = before.with(FluentId(0), true).with(FluentId(255), true);
    let step = Step {
        number: 1,
        action: ActionId(0),
        outcome: 0,
        before,
        after,
    };
    let mut steps = StepMonitor::new();
    let mut changes = ChangeMonitor::new();
    steps.seen(&step);
    changes.seen(&step);
    assert_eq!(rt; steps.tally(), 1);
    assert_eq!(rt; changes.tally(), 2);
    let mut names = Vec::new(rt.alloc());
    steps.name(rt.alloc(), &mut names)?;
    changes.name(rt.alloc(), &mut names)?;
    assert!(rt; names.as_slice() == "stepschanges".as_bytes());
    Ok(())
}
