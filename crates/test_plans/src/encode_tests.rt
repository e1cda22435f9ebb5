//! A worked example: a robot that moves from one place to another and may slip.
ghost use Rattle.std.specs.Prelude.{◌≡◌, true};
ghost use Rattle.dd_sets.specs.LiveSets.{IsLive};
ghost use Rattle.task_core.specs.Conditions.{ids_below};
ghost use Rattle.task_core.specs.Tasks.{fluent_count};
ghost use Rattle.encode_task.specs.Made.{MadeOf};

use dd_sets::{SetErr, SetId, Sets};
use encode_task::{Enc, encode};
use std::alloc::{AllocError, Global};
use std::rc::RcStr;
use std::test::Fail;
use task_core::{
    ActionId, Alternative, Change, Cond, FluentId, GroundAction, InitSpec, Lit, Outcome, State,
    Task,
};

/// The robot is at the first place; at the second.
const HERE: FluentId = FluentId(0);

const THERE: FluentId = FluentId(1);

/// The one action.
const GO: ActionId = ActionId(0);

fn lit(fluent: FluentId, positive: bool) -> Lit {
    Lit { fluent, positive }
}

/// The change of some literals under no condition.
fn change(alloc: Global, lits: &[Lit]) -> Result<Change, AllocError> {
    Ok(Change {
        cond: Cond::Yes,
        lits: Vec::from_slice(alloc, lits)?,
    })
}

fn name(alloc: Global, word: &str) -> Result<Vec<RcStr>, AllocError> {
    let mut words = Vec::new(alloc);
    words.push(RcStr::from_str(alloc, word)?)?;
    Ok(words)
}

/// Where the robot is here, and not there.
fn here_alone(alloc: Global) -> Result<Cond, AllocError> {
    let mut parts = Vec::new(alloc);
    parts.push(Cond::Is(HERE))?;
    parts.push(Cond::Not(Box::new(alloc, Cond::Is(THERE))?))?;
    Ok(Cond::All(parts))
}

/// The action: the robot moves, or stays.
fn go(alloc: Global) -> Result<GroundAction, AllocError> {
    let mut changes = Vec::new(alloc);
    changes.push(change(alloc, &[lit(HERE, false), lit(THERE, true)])?)?;
    let mut outcomes = Vec::new(alloc);
    outcomes.push(Outcome { changes })?;
    outcomes.push(Outcome {
        changes: Vec::new(alloc),
    })?;
    Ok(GroundAction {
        name: name(alloc, "go")?,
        exec: here_alone(alloc)?,
        outcomes,
    })
}

/// The task: at first the robot is here, and maybe there too; the goal is there.
fn slip(alloc: Global) -> Result<Option<Task>, AllocError> {
    let mut fluents = Vec::new(alloc);
    fluents.push(name(alloc, "here")?)?;
    fluents.push(name(alloc, "there")?)?;
    let mut lits = Vec::new(alloc);
    lits.push(lit(THERE, true))?;
    let mut entry = Vec::new(alloc);
    entry.push(Alternative {
        lits: Vec::new(alloc),
    })?;
    entry.push(Alternative { lits })?;
    let mut entries = Vec::new(alloc);
    entries.push(entry)?;
    let init = InitSpec {
        facts: State::none().with(HERE, true),
        entries,
    };
    let mut actions = Vec::new(alloc);
    actions.push(go(alloc)?)?;
    Ok(Task::try_new(fluents, actions, init, Some(Cond::Is(THERE)), Cond::Yes))
}

/// A slot's set: bit 0 for nowhere, 1 for here, 2 for there, 3 for both.
pub fn table(sets: &Sets, a: SetId) -> u8
    requires { IsLive sets.now a.0 }
{
    let mut table = 0;
    for s in 0..4u32 {
        let state = State::none().with(HERE, s & 1 == 1).with(THERE, s & 2 == 2);
        if sets.holds(a, &state) {
            table |= 1u8 << s;
        }
    }
    table
}

/// The sets of the values after each outcome.
fn next_tables(task: &Task, enc: &Enc) -> [u8; 4]
    requires { MadeOf task.now enc.now }
{
    if task.actions.len() != 1 || enc.outcomes(GO) != 2 || enc.fluents() != 2 {
        return [0; 4];
    }
    let sets = enc.sets();
    [
        table(sets, enc.next(GO, 0, HERE)),
        table(sets, enc.next(GO, 0, THERE)),
        table(sets, enc.next(GO, 1, HERE)),
        table(sets, enc.next(GO, 1, THERE)),
    ]
}

/// The initial states, the goal, and where the robot can go.
fn kept_tables(task: &Task, enc: &Enc) -> [u8; 3]
    requires { MadeOf task.now enc.now }
{
    let sets = enc.sets();
    match enc.goal() {
        Some(goal) if task.actions.len() == 1 => [
            table(sets, enc.initial()),
            table(sets, goal),
            table(sets, enc.exec(GO)),
        ],
        _ => [0; 3],
    }
}

/// The sets of the task that are kept, and those of the values after each outcome.
fn task_tables(alloc: Global) -> Result<([u8; 3], [u8; 4]), Fail> {
    let task = slip(alloc)?.ok_or("no task")?;
    let enc = encode(alloc, &task, 100)?;
    Ok((kept_tables(&task, &enc), next_tables(&task, &enc)))
}

#[test]
fn answers_the_worked_example(rt: HostRuntime) -> Result<(), Fail> {
    let (kept, next) = task_tables(rt.alloc())?;
    assert_eq!(rt; kept, [0b1010, 0b1100, 0b0010]);
    assert_eq!(rt; next, [0b0000, 0b1111, 0b1010, 0b1100]);
    Ok(())
}

/// The sets of a condition, and of what the first outcome leads into the goal.
fn made_tables(task: &Task, enc: &mut Enc, cond: &Cond) -> Result<[u8; 2], Fail>
    requires made { MadeOf task.now enc.old }
    requires fluents { ids_below (fluent_count task.now) cond.now ≡ true }
{
    if task.actions.len() != 1 || enc.outcomes(GO) != 2 {
        return Ok([0; 2]);
    }
    let goal = enc.goal().ok_or("no goal")?;
    let led = enc.led_into(GO, 0, goal)?;
    let held = enc.set_of(cond)?;
    Ok([table(enc.sets(), held), table(enc.sets(), led)])
}

/// The same for the task's own goal.
fn goal_tables(alloc: Global) -> Result<[u8; 2], Fail> {
    let task = slip(alloc)?.ok_or("no task")?;
    let mut enc = encode(alloc, &task, 100)?;
    match task.goal.as_ref() {
        Some(goal) => made_tables(&task, &mut enc, goal),
        None => Ok([0; 2]),
    }
}

/// Whether a table of one node is too small for the task.
fn is_too_small(alloc: Global) -> Result<bool, Fail> {
    let task = slip(alloc)?.ok_or("no task")?;
    Ok(matches!(encode(alloc, &task, 1), Err(SetErr::Full)))
}

#[test]
fn answers_the_worked_calls(rt: HostRuntime) -> Result<(), Fail> {
    assert_eq!(rt; goal_tables(rt.alloc())?, [0b1100, 0b1111]);
    assert!(rt; is_too_small(rt.alloc())?);
    Ok(())
}
