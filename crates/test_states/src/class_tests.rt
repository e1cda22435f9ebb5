//! Small plans with their verdicts, worked out by hand.

ghost use Rattle.std.specs.Prelude.{IfOk, IsSome};
ghost use Rattle.task_core.specs.Tasks.{action_count, fluent_count};
ghost use Rattle.plan_rules.specs.Plans.{IsPlanOf};

use exec_graph::explore;
use plan_check::{Reason, Verdict, judge_class};
use plan_rules::{Plan, read_plan};
use sexpr_text::MAX_BYTES;
use std::alloc::{AllocError, Global};
use std::rc::RcStr;
use std::test::Fail;
use task_core::{
    Alternative, Change, Class, Cond, FluentId, GroundAction, InitSpec, Lit, Outcome, State, Task,
};

const P: u32 = 0;

const Q: u32 = 1;

fn literal(fluent: u32, positive: bool) -> Lit {
    Lit {
        fluent: FluentId(fluent),
        positive,
    }
}

fn is(fluent: u32) -> Cond {
    Cond::Is(FluentId(fluent))
}

fn name(alloc: Global, word: &str) -> Result<Vec<RcStr>, AllocError> {
    Ok(vec![in alloc; RcStr::from_str(alloc, word)?]?)
}

/// The outcome that adds a fluent, or deletes it.
fn outcome(alloc: Global, fluent: u32, positive: bool) -> Result<Outcome, AllocError> {
    let change = Change {
        cond: Cond::Yes,
        lits: vec![in alloc; literal(fluent, positive)]?,
    };
    Ok(Outcome {
        changes: vec![in alloc; change]?,
    })
}

/// An action with one outcome: a fluent is added, or deleted.
fn action(
    alloc: Global,
    word: &str,
    exec: Cond,
    fluent: u32,
    positive: bool,
) -> Result<GroundAction, AllocError> {
    Ok(GroundAction {
        name: name(alloc, word)?,
        exec,
        outcomes: vec![in alloc; outcome(alloc, fluent, positive)?]?,
    })
}

/// One entry: the second fluent is false, or true.
fn either(alloc: Global) -> Result<Vec<Vec<Alternative>>, AllocError> {
    let mut entry = Vec::new(alloc);
    for positive in [false, true] {
        entry.push(Alternative {
            lits: Vec::from_slice(alloc, &[literal(Q, positive)])?,
        })?;
    }
    Ok(vec![in alloc; entry]?)
}

/// `push` sets p, `try` may set it, `pull` clears it where it is set, `set` sets q where it is
/// clear, and `clear` clears it where it is set. At first p is clear and q may be either. The goal
/// is p.
pub(crate) fn task(alloc: Global) -> Result<Task, Fail>
    ensures { IfOk result (λ task. IsSome task.goal) }
{
    let not_q = Cond::Not(Box::new(alloc, is(Q))?);
    let same = Outcome {
        changes: Vec::new(alloc),
    };
    let tries = GroundAction {
        name: name(alloc, "try")?,
        exec: Cond::Yes,
        outcomes: vec![in alloc; outcome(alloc, P, true)?, same]?,
    };
    let actions = vec![in alloc;
        action(alloc, "push", Cond::Yes, P, true)?,
        tries,
        action(alloc, "pull", is(P), P, false)?,
        action(alloc, "set", not_q, Q, true)?,
        action(alloc, "clear", is(Q), Q, false)?,
    ]?;
    let fluents = vec![in alloc; name(alloc, "p")?, name(alloc, "q")?]?;
    let init = InitSpec {
        facts: State::none(),
        entries: either(alloc)?,
    };
    let task = Task::try_new(fluents, actions, init, Some(is(P)), Cond::Yes);
    Ok(task.ok_or("these are the parts of a task")?)
}

fn word(verdict: Verdict) -> &'static str {
    match verdict {
        Verdict::Yes { bound: None } => "yes",
        Verdict::Yes { bound: Some(0) } => "yes 0",
        Verdict::Yes { bound: Some(1) } => "yes 1",
        Verdict::Yes { bound: Some(2) } => "yes 2",
        Verdict::Yes { bound: Some(3) } => "yes 3",
        Verdict::Yes { bound: Some(_) } => "yes, more",
        Verdict::No(Reason::Unexecutable) => "unexecutable",
        Verdict::No(Reason::Stuck) => "stuck",
        Verdict::No(Reason::Terminal) => "terminal",
        Verdict::No(Reason::Cycle) => "cycle",
        Verdict::No(Reason::Unreachable) => "unreachable",
        Verdict::No(Reason::Formula) => "formula",
    }
}

fn plan_verdict(alloc: Global, task: &Task, plan: &Plan, class: Class) -> Result<&'static str, Fail>
    requires goal { IsSome task.now.goal }
    requires plan { IsPlanOf (fluent_count task.now) (action_count task.now) plan.now }
{
    match plan {
        Plan::Table(_) => {
            let graph = explore(alloc, task, plan)?;
            Ok(word(judge_class(alloc, task, &graph, class)?))
        }
        Plan::Auto(_) => Ok("no table"),
    }
}

fn verdict(alloc: Global, task: &Task, text: &str, class: Class) -> Result<&'static str, Fail>
    requires { IsSome task.now.goal }
{
    let bytes = text.as_bytes();
    if bytes.len() > MAX_BYTES {
        return Ok("too long");
    }
    match read_plan(alloc, bytes, task) {
        Ok(read) => plan_verdict(alloc, task, &read.plan, class),
        Err(_) => Ok("no plan"),
    }
}

#[test]
fn plans_and_their_verdicts(rt: HostRuntime) -> Result<(), Fail> {
    let alloc = rt.alloc();
    let task = task(alloc)?;
    // A plan, and the verdicts on it as a weak, a strong and a strong cyclic one. A state is
    // written as p and q: 00 and 01 are initial.
    let table: [[&str; 4]; 14] = [
        // 00 to 10, 01 to 11.
        [
            "(plan table strong (rule ((not (p))) (push)))",
            "yes",
            "yes 1",
            "yes",
        ],
        // Nothing is done.
        ["(plan table weak)", "unreachable", "terminal", "terminal"],
        // It may be tried for ever.
        [
            "(plan table weak (rule ((not (p))) (try)))",
            "yes",
            "cycle",
            "yes",
        ],
        // It doesn't stop in the goal.
        [
            "(plan table weak (rule () (push)))",
            "unreachable",
            "cycle",
            "unreachable",
        ],
        [
            "(plan table weak (rule ((not (p))) (pull)))",
            "unexecutable",
            "unexecutable",
            "unexecutable",
        ],
        // From the second initial state it goes round, from the first it doesn't.
        [
            "(plan table weak (rule ((not (p))) (push)) (rule ((p) (q)) (pull)))",
            "unreachable",
            "cycle",
            "unreachable",
        ],
        // 00 to 01 to 11.
        [
            "(plan table weak (rule ((not (p)) (not (q))) (set)) (rule ((not (p)) (q)) (push)))",
            "yes",
            "yes 2",
            "yes",
        ],
        // There is a shorter way too.
        [
            "(plan table weak (rule ((not (p)) (not (q))) (set)) (rule ((not (p))) (push)))",
            "yes",
            "yes 2",
            "yes",
        ],
        // 01 has no rule.
        [
            "(plan table weak (rule ((not (p)) (not (q))) (try)))",
            "unreachable",
            "terminal",
            "terminal",
        ],
        // 10 and 11 lead to one another, and neither is initial.
        [
            "(plan table weak (rule ((not (p))) (push)) (rule ((p) (not (q))) (set)) (rule ((p) (q)) (clear)))",
            "unreachable",
            "cycle",
            "unreachable",
        ],
        // The second rule that matches 11 can't be followed there.
        [
            "(plan table weak (rule ((not (p))) (push)) (rule ((p) (q)) (clear)) (rule ((p) (q)) (set)))",
            "unexecutable",
            "unexecutable",
            "unexecutable",
        ],
        // The rule that can't be followed matches no state.
        [
            "(plan table weak (rule ((not (p))) (push)) (rule ((p) (not (p))) (pull)))",
            "yes",
            "yes 1",
            "yes",
        ],
        // 00 to 10 to 11, 01 to 11.
        [
            "(plan table weak (rule ((not (p))) (push)) (rule ((p) (not (q))) (set)))",
            "yes",
            "yes 2",
            "yes",
        ],
        // 01 may go to 00, which has no rule; it may be pushed too.
        [
            "(plan table weak (rule ((q) (not (p))) (clear)) (rule ((q) (not (p))) (push)))",
            "unreachable",
            "terminal",
            "terminal",
        ],
    ];
    for [text, weak, strong, cyclic] in table {
        assert_eq!(rt; verdict(alloc, &task, text, Class::Weak)?, weak);
        assert_eq!(rt; verdict(alloc, &task, text, Class::Strong)?, strong);
        assert_eq!(rt; verdict(alloc, &task, text, Class::Cyclic)?, cyclic);
    }
    Ok(())
}
