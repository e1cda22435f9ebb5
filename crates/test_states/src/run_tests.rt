//! Whole runs, with the program's own world and monitors and with those of a caller, and their
//! texts. What is expected was worked out by hand.

ghost use Rattle.plan_rules.specs.Plans.{IsPlanOf};
ghost use Rattle.run_replay.specs.Runs.{IsStepOf};
ghost use Rattle.run_replay.specs.declared.worlds.Step.{Step};
ghost use Rattle.task_core.specs.Tasks.{action_count, fluent_count};
ghost use Rattle.std.specs.Prelude.{if◌then◌else◌, ◌≡◌, ◌==◌, All, IfOk, codes};

use plan_rules::{Plan, read_plan};
use run_replay::{
    ChangeMonitor, Monitor, RecordWorld, RunErr, Start, Step, StepMonitor, Trace, World, execute,
    write_trace,
};
use sexpr_text::MAX_BYTES;
use std::alloc::{AllocError, Global};
use std::cell::Cell;
use std::collections::VecDeque;
use std::fmt::Write;
use std::rc::{Rc, RcStr};
use std::test::Fail;
use task_core::{
    ActionId, Change, Cond, FluentId, GroundAction, InitSpec, Lit, Outcome, State, Task,
};

/// A world of a caller: it draws from a queue.
#[derive(Drop)]
struct Queue {
    numbers: VecDeque<u32>,
}

impl World for Queue {
    ghost left = { λ world. world.numbers.items };

    fn load(&mut self, _: Global, words: Vec<u32>) -> Result<(), AllocError> {
        self.numbers = VecDeque::from(words);
        Ok(())
    }

    fn choose(&mut self) -> Option<u32> {
        self.numbers.pop_front()
    }
}

/// A monitor of a caller: it counts the steps with one action, under the title `own`, and counts in
/// `drops` that it was dropped.
struct ActionMonitor {
    action: ActionId,
    count: u128,
    drops: Rc<Cell<u32>>,
}

impl ActionMonitor {
    fn new(action: u32, drops: Rc<Cell<u32>>) -> ActionMonitor
        ensures { result.count ≡ 0 }
    {
        ActionMonitor {
            action: ActionId(action),
            count: 0,
            drops,
        }
    }
}

impl Monitor for ActionMonitor {
    ghost shown = { λ monitor. record {
      counted = monitor.count;
      title = codes "own";
      weight = λ step. if step.action.0 == monitor.action.0 then 1 else 0;
    } };

    fn seen(&mut self, step: &Step) {
        if step.action == self.action {
            self.count += 1;
        }
    }

    fn tally(&self) -> u128 {
        self.count
    }

    fn name(&self, _: Global, out: &mut Vec<u8>) -> Result<(), AllocError> {
        out.extend_from_slice(b"own")
    }
}

impl Drop for ActionMonitor {
    fn drop(self) {
        let ActionMonitor {
            action: _,
            count: _,
            drops,
        } = self;
        drops.set(drops.get().wrapping_add(1));
    }
}

fn action(
    alloc: Global,
    word: &str,
    exec: Cond,
    outcomes: Vec<Outcome>,
) -> Result<GroundAction, AllocError> {
    let mut name = Vec::new(alloc);
    name.push(RcStr::from_str(alloc, word)?)?;
    Ok(GroundAction {
        name,
        exec,
        outcomes,
    })
}

fn sets(alloc: Global, fluent: u32, positive: bool) -> Result<Outcome, AllocError> {
    let lit = Lit {
        fluent: FluentId(fluent),
        positive,
    };
    let change = Change {
        cond: Cond::Yes,
        lits: vec![in alloc; lit]?,
    };
    Ok(Outcome {
        changes: vec![in alloc; change]?,
    })
}

/// An action with one outcome, which gives one fluent a value.
fn setting(
    alloc: Global,
    word: &str,
    exec: Cond,
    fluent: u32,
    positive: bool,
) -> Result<GroundAction, AllocError> {
    let outcomes = vec![in alloc; sets(alloc, fluent, positive)?]?;
    action(alloc, word, exec, outcomes)
}

/// The action that gives p either value, or sets q.
fn toss(alloc: Global) -> Result<GroundAction, AllocError> {
    let mut outcomes = Vec::new(alloc);
    for (fluent, positive) in [(0, true), (0, false), (1, true)] {
        outcomes.push(sets(alloc, fluent, positive)?)?;
    }
    action(alloc, "toss", Cond::Yes, outcomes)
}

/// `on` and `off` set p; `toss` gives it either value or sets q; `use` can be executed where q
/// holds, and clears it.
fn actions(alloc: Global) -> Result<Vec<GroundAction>, AllocError> {
    let mut actions = Vec::new(alloc);
    actions.push(setting(alloc, "on", Cond::Yes, 0, true)?)?;
    actions.push(setting(alloc, "off", Cond::Yes, 0, false)?)?;
    actions.push(toss(alloc)?)?;
    actions.push(setting(alloc, "use", Cond::Is(FluentId(1)), 1, false)?)?;
    Ok(actions)
}

/// The names of the two switches.
fn fluents(alloc: Global) -> Result<Vec<Vec<RcStr>>, AllocError> {
    let mut fluents = Vec::new(alloc);
    for word in ["p", "q"] {
        fluents.push(vec![in alloc; RcStr::from_str(alloc, word)?]?)?;
    }
    Ok(fluents)
}

/// Two switches, p and q, of which the vectors are states in which the invariant holds.
fn switches(alloc: Global, invariant: Cond) -> Result<Option<Task>, AllocError> {
    let fluents = fluents(alloc)?;
    let actions = actions(alloc)?;
    let init = InitSpec {
        facts: State::none(),
        entries: Vec::new(alloc),
    };
    Ok(Task::try_new(fluents, actions, init, None, invariant))
}

fn text_of(
    alloc: Global,
    task: &Task,
    trace: &Trace,
    monitors: &[Box<dyn Monitor>],
) -> Result<String, AllocError>
    requires { All (IsStepOf (fluent_count task.now) (action_count task.now))
        trace.now.steps.items }
{
    let mut out = String::new(alloc);
    for byte in write_trace(alloc, task, trace, monitors)? {
        out.push(char::from(byte))?;
    }
    Ok(out)
}

fn refusal_of(alloc: Global, refusal: RunErr) -> Result<String, Fail> {
    Ok(match refusal {
        RunErr::StrayOutcome {
            step,
            word,
            outcomes,
        } => format!(in alloc; "stray {step} {word} {outcomes} ")?,
        RunErr::Unexecutable { step } => format!(in alloc; "unexecutable {step} ")?,
        RunErr::Memory => String::from_str(alloc, "memory ")?,
    })
}

/// What a run of a plan gives from the state in which both are off: its text or its refusal.
fn told_of_plan<'a>(
    alloc: Global,
    task: &'a Task,
    plan: &'a Plan,
    world: &mut Box<dyn World>,
    monitors: &mut Vec<Box<dyn Monitor>>,
) -> Result<String, Fail>
    requires plan_of_task { IsPlanOf (fluent_count task.now) (action_count task.now) plan.now }
    requires untold { All (λ monitor. (shown monitor).counted ≡ 0) monitors.old.items }
{
    let start = Start {
        task,
        plan,
        first: State::none(),
    };
    match execute(alloc, &start, world, monitors) {
        Ok(trace) => Ok(text_of(alloc, task, &trace, monitors)?),
        Err(refusal) => refusal_of(alloc, refusal),
    }
}

/// Adds the outcome numbers that a world has left.
fn push_left(out: &mut String, world: &mut Box<dyn World>) -> Result<(), Fail> {
    out.push_str("left")?;
    for _ in 0..9 {
        if let Some(word) = world.choose() {
            write!(out, " {word}")?;
        }
    }
    Ok(())
}

/// What a run of the two switches gives, and then the outcome numbers that the world has left.
fn told(
    alloc: Global,
    invariant: Cond,
    plan: &str,
    world: &mut Box<dyn World>,
    monitors: &mut Vec<Box<dyn Monitor>>,
) -> Result<String, Fail>
    requires { All (λ monitor. (shown monitor).counted ≡ 0) monitors.old.items }
{
    if plan.len() > MAX_BYTES {
        return Ok(String::new(alloc));
    }
    let task = switches(alloc, invariant)?.ok_or("no task")?;
    match read_plan(alloc, plan.as_bytes(), &task) {
        Ok(read) => {
            let mut out = told_of_plan(alloc, &task, &read.plan, world, monitors)?;
            push_left(&mut out, world)?;
            Ok(out)
        }
        Err(_) => Ok(String::new(alloc)),
    }
}

/// The program's own world, which has these numbers to give.
fn record_world(alloc: Global, words: Vec<u32>) -> Result<Box<dyn World>, AllocError> {
    let mut world: Box<dyn World> = Box::new(alloc, RecordWorld::new(alloc))?;
    world.load(alloc, words)?;
    Ok(world)
}

/// The program's own monitors, which have seen nothing.
fn own_monitors(alloc: Global) -> Result<Vec<Box<dyn Monitor>>, AllocError>
    ensures { IfOk result (λ monitors.
        All (λ monitor. (shown monitor).counted ≡ 0) monitors.items) }
{
    let mut monitors: Vec<Box<dyn Monitor>> = Vec::new(alloc);
    monitors.push(Box::new(alloc, StepMonitor::new())?)?;
    monitors.push(Box::new(alloc, ChangeMonitor::new())?)?;
    Ok(monitors)
}

/// The same with the program's own world and monitors.
fn told_by_record(
    alloc: Global,
    invariant: Cond,
    plan: &str,
    words: &[u32],
) -> Result<String, Fail> {
    let mut world = record_world(alloc, Vec::from_slice(alloc, words)?)?;
    let mut monitors = own_monitors(alloc)?;
    told(alloc, invariant, plan, &mut world, &mut monitors)
}

/// A plan, the outcome numbers that the world is given, and what the run gives.
struct Case {
    plan: &'static str,
    words: &'static [u32],
    told: &'static str,
}

/// A coin tossed until it shows q, and then used.
const TOSS: &str = "(plan table cyclic (rule ((not (q))) (toss)) (rule ((p) (q)) (use)))";

static CASES: [Case; 9] = [
    // The first rule that matches counts, and the end is looked at before a number is taken.
    Case {
        plan: "(plan table weak (rule ((not (p))) (on)) (rule () (off)) (rule () (on)))",
        words: &[0, 0, 0],
        told: "step 1 (on) outcome 0\nstep 2 (off) outcome 0\nstep 3 (on) outcome 0\n\
            end record\ntally steps 3\ntally changes 3\nleft",
    },
    Case {
        plan: "(plan table weak (rule ((not (p))) (on)))",
        words: &[0, 7],
        told: "step 1 (on) outcome 0\nend terminal\ntally steps 1\ntally changes 1\nleft 7",
    },
    // A stray number at the sixth step, of an action with one outcome.
    Case {
        plan: TOSS,
        words: &[1, 0, 2, 0, 2, 5],
        told: "stray 6 5 1 left",
    },
    // A stray number has been taken, and those behind it have not.
    Case {
        plan: TOSS,
        words: &[0, 3, 1],
        told: "stray 2 3 3 left 1",
    },
    // What can't be executed is refused before a number is taken, also where none is left.
    Case {
        plan: "(plan table weak (rule ((p)) (use)) (rule () (on)))",
        words: &[0, 4],
        told: "unexecutable 2 left 4",
    },
    Case {
        plan: "(plan table weak (rule () (use)))",
        words: &[],
        told: "unexecutable 1 left",
    },
    // The next context is read on the new state, the first case that matches.
    Case {
        plan: "(plan automaton 2 (rule 1 () (on) ((((p)) 2) (() 1))) (rule 2 () (off) 1))",
        words: &[0, 0, 0],
        told: "step 1 (on) outcome 0\nstep 2 (off) outcome 0\nstep 3 (on) outcome 0\n\
            end record\ntally steps 3\ntally changes 3\nleft",
    },
    // Where no case matches, no rule does.
    Case {
        plan: "(plan automaton 1 (rule 1 () (on) ((((q)) 1))))",
        words: &[0, 0],
        told: "step 1 (on) outcome 0\nend terminal\ntally steps 1\ntally changes 1\nleft 0",
    },
    // No rule at all.
    Case {
        plan: "(plan table strong)",
        words: &[1, 2],
        told: "end terminal\ntally steps 0\ntally changes 0\nleft 1 2",
    },
];

#[test]
fn runs_and_their_texts(rt: HostRuntime) -> Result<(), Fail> {
    for case in &CASES {
        let told = told_by_record(rt.alloc(), Cond::Yes, case.plan, case.words)?;
        assert_eq!(rt; told.as_str(), case.told, "{}", case.plan);
    }
    Ok(())
}

/// The condition that p doesn't hold.
fn without_p(alloc: Global) -> Result<Cond, AllocError> {
    Ok(Cond::Not(Box::new(alloc, Cond::Is(FluentId(0)))?))
}

/// Runs where p holds in no state: `on`, and outcome 0 of `toss`, lead to none.
static CASES_WITHOUT_P: [Case; 3] = [
    // The outcomes that take place keep their numbers.
    Case {
        plan: "(plan table weak (rule ((q)) (use)) (rule () (toss)))",
        words: &[1, 2, 0],
        told: "step 1 (toss) outcome 1\nstep 2 (toss) outcome 2\nstep 3 (use) outcome 0\n\
            end record\ntally steps 3\ntally changes 2\nleft",
    },
    // An outcome that leads to no state is a stray number.
    Case {
        plan: TOSS,
        words: &[1, 0, 1],
        told: "stray 2 0 3 left 1",
    },
    // An action can't be executed where none of its outcomes leads to a state.
    Case {
        plan: "(plan table weak (rule () (on)))",
        words: &[0, 4],
        told: "unexecutable 1 left 0 4",
    },
];

#[test]
fn runs_in_a_set_of_states(rt: HostRuntime) -> Result<(), Fail> {
    for case in &CASES_WITHOUT_P {
        let told = told_by_record(rt.alloc(), without_p(rt.alloc())?, case.plan, case.words)?;
        assert_eq!(rt; told.as_str(), case.told, "{}", case.plan);
    }
    Ok(())
}

#[test]
fn a_caller_s_own_world_and_monitors(rt: HostRuntime) -> Result<(), Fail> {
    let alloc = rt.alloc();
    let drops = Rc::new(alloc, Cell::new(0))?;
    let mut world: Box<dyn World> = Box::new(
        alloc,
        Queue {
            numbers: VecDeque::new(alloc),
        },
    )?;
    world.load(alloc, vec![in alloc; 0, 2, 0, 1]?)?;
    let mut monitors: Vec<Box<dyn Monitor>> = Vec::new(alloc);
    monitors.push(Box::new(alloc, ActionMonitor::new(2, drops.clone()?))?)?;
    monitors.push(Box::new(alloc, ActionMonitor::new(3, drops.clone()?))?)?;
    let told = told(alloc, Cond::Yes, TOSS, &mut world, &mut monitors)?;
    assert_eq!(rt;
        told.as_str(),
        "step 1 (toss) outcome 0\nstep 2 (toss) outcome 2\n\
        step 3 (use) outcome 0\nstep 4 (toss) outcome 1\nend record\n\
        tally own 3\ntally own 1\nleft"
    );
    assert_eq!(rt; drops.get(), 0);
    drop(monitors);
    assert_eq!(rt; drops.get(), 2);
    Ok(())
}

/// How a run of a plan ends: the word for the end and the number of steps, and nothing where it is
/// refused.
fn end_of_plan<'a>(
    alloc: Global,
    task: &'a Task,
    plan: &'a Plan,
    world: &mut Box<dyn World>,
    monitors: &mut Vec<Box<dyn Monitor>>,
) -> Result<String, Fail>
    requires plan_of_task { IsPlanOf (fluent_count task.now) (action_count task.now) plan.now }
    requires untold { All (λ monitor. (shown monitor).counted ≡ 0) monitors.old.items }
{
    let start = Start {
        task,
        plan,
        first: State::none(),
    };
    match execute(alloc, &start, world, monitors) {
        Ok(trace) => Ok(format!(in alloc; "{:?} {}", trace.end, trace.steps.len())?),
        Err(_) => Ok(String::new(alloc)),
    }
}

/// Adds the tallies, and whether the world has a number left.
fn push_rest(
    out: &mut String,
    world: &mut Box<dyn World>,
    monitors: &[Box<dyn Monitor>],
) -> Result<(), Fail> {
    for monitor in monitors {
        write!(out, " {}", monitor.tally())?;
    }
    write!(out, " {}", world.choose().is_some())?;
    Ok(())
}

/// How a run ends that switches p on again and again: the word for the end, the number of steps,
/// the tallies, and whether the world has a number left.
fn told_at_the_end(
    alloc: Global,
    world: &mut Box<dyn World>,
    monitors: &mut Vec<Box<dyn Monitor>>,
) -> Result<String, Fail>
    requires { All (λ monitor. (shown monitor).counted ≡ 0) monitors.old.items }
{
    let task = switches(alloc, Cond::Yes)?.ok_or("no task")?;
    match read_plan(alloc, b"(plan table cyclic (rule () (on)))", &task) {
        Ok(read) => end_of_plan(alloc, &task, &read.plan, world, monitors),
        Err(_) => Ok(String::new(alloc)),
    }
}

fn zeros(alloc: Global, count: u32) -> Result<Vec<u32>, AllocError> {
    let mut zeros = Vec::new(alloc);
    for _ in 0..count {
        zeros.push(0)?;
    }
    Ok(zeros)
}

/// The same with the program's own world, which is given so many zeros, and its own monitors.
fn told_of_zeros(alloc: Global, count: u32) -> Result<String, Fail> {
    let mut world = record_world(alloc, zeros(alloc, count)?)?;
    let mut monitors = own_monitors(alloc)?;
    let mut out = told_at_the_end(alloc, &mut world, &mut monitors)?;
    push_rest(&mut out, &mut world, &monitors)?;
    Ok(out)
}

#[test]
fn a_run_ends_after_a_million_steps(rt: HostRuntime) -> Result<(), Fail> {
    for (zeros, told) in [
        (999_999, "Ended 999999 999999 1 false"),
        (1_000_000, "Capped 1000000 1000000 1 false"),
        (1_000_001, "Capped 1000000 1000000 1 true"),
    ] {
        assert_eq!(rt; told_of_zeros(rt.alloc(), zeros)?.as_str(), told, "{zeros}");
    }
    Ok(())
}
