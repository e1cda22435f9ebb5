//! Tables for a task with an action that is sure to do it, one that may be tried on and on, one that
//! takes a risk, and one that waits.

ghost use Rattle.std.specs.Prelude.{All, IfOk, IsSome, map};
ghost use Rattle.task_core.specs.Tasks.{action_count, fluent_count};
ghost use Rattle.plan_rules.specs.Plans.{IsRuleOf};
ghost use Rattle.plan_rules.specs.Rules.{rule_of};

use dd_sets::SetErr;
use encode_task::encode;
use judge_sets::{TableVerdict, judge_table};
use plan_rules::{Class, Plan, Rule, read_plan};
use sexpr_text::MAX_BYTES;
use std::alloc::{AllocError, Global};
use std::rc::RcStr;
use std::test::Fail;
use task_core::{Change, Cond, FluentId, GroundAction, InitSpec, Lit, Outcome, State, Task};

/// The fluent of the goal, and that of states in which nothing can be executed.
const DONE: u32 = 0;

const DEAD: u32 = 1;

fn adds(alloc: Global, fluent: u32) -> Result<Outcome, AllocError> {
    let lit = Lit {
        fluent: FluentId(fluent),
        positive: true,
    };
    let change = Change {
        cond: Cond::Yes,
        lits: vec![in alloc; lit]?,
    };
    Ok(Outcome {
        changes: vec![in alloc; change]?,
    })
}

fn nothing(alloc: Global) -> Outcome {
    Outcome {
        changes: Vec::new(alloc),
    }
}

fn name(alloc: Global, word: &str) -> Result<Vec<RcStr>, AllocError> {
    Ok(vec![in alloc; RcStr::from_str(alloc, word)?]?)
}

/// An action that can be executed in states that aren't dead.
fn action(alloc: Global, word: &str, outcomes: Vec<Outcome>) -> Result<GroundAction, AllocError> {
    Ok(GroundAction {
        name: name(alloc, word)?,
        exec: Cond::Not(Box::new(alloc, Cond::Is(FluentId(DEAD)))?),
        outcomes,
    })
}

fn actions(alloc: Global) -> Result<Vec<GroundAction>, AllocError> {
    let wait = action(alloc, "wait", vec![in alloc; nothing(alloc)]?)?;
    let risk = action(
        alloc,
        "risk",
        vec![in alloc; adds(alloc, DONE)?, adds(alloc, DEAD)?]?,
    )?;
    let retry = action(
        alloc,
        "try",
        vec![in alloc; adds(alloc, DONE)?, nothing(alloc)]?,
    )?;
    let finish = action(alloc, "finish", vec![in alloc; adds(alloc, DONE)?]?)?;
    Ok(vec![in alloc; wait, risk, retry, finish]?)
}

/// A task that is to be done, and is neither done nor dead at first.
fn hazard(alloc: Global) -> Result<Task, Fail>
    ensures goal { IfOk result (λ t. IsSome t.goal) }
{
    let fluents = vec![in alloc; name(alloc, "done")?, name(alloc, "dead")?]?;
    let init = InitSpec {
        facts: State::none(),
        entries: Vec::new(alloc),
    };
    let goal = Some(Cond::Is(FluentId(DONE)));
    let task = Task::try_new(fluents, actions(alloc)?, init, goal, Cond::Yes);
    Ok(task.ok_or("these are the parts of a task")?)
}

/// The verdict on rules for a class, in a table of 1,000 nodes.
fn verdict(alloc: Global, task: &Task, class: Class, rules: &[Rule]) -> Result<TableVerdict, SetErr>
    requires goal { IsSome task.now.goal }
    requires in_task { All (IsRuleOf (fluent_count task.now) (action_count task.now))
        (map rule_of rules.now) }
{
    let mut enc = encode(alloc, task, 1000)?;
    judge_table(alloc, task, &mut enc, class, rules)
}

/// Whether the verdicts on rules are these: whether they are a weak, a strong and a strong cyclic
/// solution, agree, and each count.
fn has_verdicts(alloc: Global, task: &Task, rules: &[Rule], told: Told) -> Result<bool, SetErr>
    requires goal { IsSome task.now.goal }
    requires in_task { All (IsRuleOf (fluent_count task.now) (action_count task.now))
        (map rule_of rules.now) }
{
    let weak = verdict(alloc, task, Class::Weak, rules)?;
    let strong = verdict(alloc, task, Class::Strong, rules)?;
    let cyclic = verdict(alloc, task, Class::Cyclic, rules)?;
    Ok(
        weak.solves == told.weak
            && strong.solves == told.strong
            && cyclic.solves == told.cyclic
            && strong.agrees == told.agrees
            && strong.each_counts == told.each_counts,
    )
}

/// What is told of rules: whether they are a solution by class, agree, and each count.
#[derive(Clone, Copy)]
struct Told {
    weak: bool,
    strong: bool,
    cyclic: bool,
    agrees: bool,
    each_counts: bool,
}

/// What is told of rules that agree and each count.
fn of_classes(weak: bool, strong: bool, cyclic: bool) -> Told {
    Told {
        weak,
        strong,
        cyclic,
        agrees: true,
        each_counts: true,
    }
}

/// Whether the verdicts on the rules of a text are these.
fn are_told(alloc: Global, text: &str, told: Told) -> Result<bool, Fail> {
    let task = hazard(alloc)?;
    if text.len() > MAX_BYTES {
        return Err("the text is short".into());
    }
    match read_plan(alloc, text.as_bytes(), &task)?.plan {
        Plan::Table(plan) => Ok(has_verdicts(alloc, &task, &plan.rules, told)?),
        Plan::Auto(_) => Err("it is a table".into()),
    }
}

// By an action that is sure to do it, by one that is tried on and on, and by one that may leave one
// dead: each is a solution of fewer classes than the one before.
#[test]
fn each_class(rt: HostRuntime) -> Result<(), Fail> {
    let alloc = rt.alloc();
    let sure = "(plan table strong (rule ((not (done)) (not (dead))) (finish)))";
    assert!(rt; are_told(alloc, sure, of_classes(true, true, true))?);
    let retried = "(plan table strong (rule ((not (done)) (not (dead))) (try)))";
    assert!(rt; are_told(alloc, retried, of_classes(true, false, true))?);
    let risked = "(plan table strong (rule ((not (done)) (not (dead))) (risk)))";
    assert!(rt; are_told(alloc, risked, of_classes(true, false, false))?);
    Ok(())
}

// By waiting, by no rule, by an action that can't be executed where the risk leads, and by one that
// goes on in the goal.
#[test]
fn no_class(rt: HostRuntime) -> Result<(), Fail> {
    let alloc = rt.alloc();
    let waited = "(plan table strong (rule ((not (done)) (not (dead))) (wait)))";
    assert!(rt; are_told(alloc, waited, of_classes(false, false, false))?);
    let none = "(plan table strong)";
    assert!(rt; are_told(alloc, none, of_classes(false, false, false))?);
    let failing =
        "(plan table strong (rule ((not (done)) (not (dead))) (risk)) (rule ((dead)) (finish)))";
    assert!(rt; are_told(alloc, failing, of_classes(false, false, false))?);
    let endless = "(plan table strong (rule () (finish)))";
    assert!(rt; are_told(alloc, endless, of_classes(false, false, false))?);
    Ok(())
}

// The first rule that matches counts; one that only matches where others do is dead.
#[test]
fn first_counts(rt: HostRuntime) -> Result<(), Fail> {
    let alloc = rt.alloc();
    let first =
        "(plan table strong (rule ((not (done)) (not (dead))) (finish)) (rule ((not (done))) (wait)))";
    let differ = Told {
        agrees: false,
        ..of_classes(true, true, true)
    };
    assert!(rt; are_told(alloc, first, differ)?);
    let later =
        "(plan table strong (rule ((not (done))) (wait)) (rule ((not (done)) (not (dead))) (finish)))";
    let dead = Told {
        weak: false,
        strong: false,
        cyclic: false,
        agrees: false,
        each_counts: false,
    };
    assert!(rt; are_told(alloc, later, dead)?);
    Ok(())
}
