//! Goals with up to two operators on small plans, against a direct reading of their definition: the
//! paths of as many steps as there are configurations are tried one by one.

ghost use Rattle.std.specs.Prelude.{◌≡◌, ◌<◌, ◌≤◌, ◌^◌, IfOk, List, length, ℕ};
ghost use Rattle.task_core.specs.Tasks.{action_count, fluent_count, system_of};
ghost use Rattle.ctl_syntax.specs.Values.{NamesBelow, ctl_value};
ghost use Rattle.plan_rules.specs.Plans.{IsPlanOf};
ghost use Rattle.plan_rules.specs.Rules.{ContextRule, automaton};
ghost use Rattle.exec_graph.specs.Graphs.{IsGraphOf};
ghost use Rattle.exec_graph.specs.Values.{plain_graph};

use crate::class_tests::task;
use ctl_syntax::Ctl;
use exec_graph::{Graph, Steps, explore};
use plan_check::{Reason, Verdict, judge_ctl};
use plan_rules::{Plan, read_plan};
use sexpr_text::MAX_BYTES;
use std::alloc::{AllocError, Global};
use std::marker::Brand;
use std::sync::ledger::{Blank, Ledger};
use std::test::Fail;
use task_core::{Cond, FluentId, Task};

/// The operators, by their number in this list: `ax`, `ex`, `af`, `ef`, `ag`, `eg`, `au`, `eu`,
/// `aw`, `ew`; and 10 stands for `not`, 11 for `imply`.
const OPERATORS: u32 = 12;

fn is_marked(marks: &[bool], number: u32) -> bool {
    marks.get(number as usize).copied().unwrap_or(false)
}

/// What follows each configuration.
fn followers(alloc: Global, graph: &Graph) -> Result<Vec<Vec<u32>>, AllocError>
    ensures { IfOk result (λ lists. length lists.items < 2 ^ 32) }
{
    followers_in::<Brand>(alloc, graph, Blank::new(1))
}

fn followers_in<L: Ledger>(
    alloc: Global,
    graph: &Graph,
    blank: Blank,
) -> Result<Vec<Vec<u32>>, AllocError>
    requires name { blank.name ≡ L.name }
    requires parts { blank.parts ≡ L.parts }
    requires some { 0 < blank.parts }
    ensures { IfOk result (λ lists. length lists.items < 2 ^ 32) }
{
    let mut steps = Steps::<L>::new(blank);
    let mut lists = Vec::new(alloc);
    for number in 0..graph.len() {
        let mut list = Vec::new(alloc);
        for k in 0..graph.next_len(number) {
            list.push(graph.next_at(number, k, &mut steps))?;
        }
        lists.push(list)?;
    }
    Ok(lists)
}

/// What is asked of a path: to meet the target, with the guard until then, or, where `weak` says so, to
/// keep the guard.
#[derive(Clone, Copy)]
struct Until<'a> {
    guard: &'a [bool],
    target: &'a [bool],
    weak: bool,
}

/// Whether every path of so many steps does what is asked.
fn every_path(lists: &[Vec<u32>], until: &Until<'_>, number: u32, steps: u32) -> bool {
    if number as usize >= lists.len() || is_marked(until.target, number) {
        return true;
    }
    if !is_marked(until.guard, number) {
        return false;
    }
    if steps == 0 {
        return until.weak;
    }
    for next in &lists[number as usize] {
        if !every_path(lists, until, *next, steps - 1) {
            return false;
        }
    }
    true
}

fn some_path(lists: &[Vec<u32>], until: &Until<'_>, number: u32, steps: u32) -> bool {
    if number as usize >= lists.len() {
        return false;
    }
    if is_marked(until.target, number) {
        return true;
    }
    if !is_marked(until.guard, number) {
        return false;
    }
    if steps == 0 {
        return until.weak;
    }
    for next in &lists[number as usize] {
        if some_path(lists, until, *next, steps - 1) {
            return true;
        }
    }
    false
}

fn every_next(lists: &[Vec<u32>], label: &[bool], number: u32) -> bool {
    if number as usize >= lists.len() {
        return false;
    }
    for next in &lists[number as usize] {
        if !is_marked(label, *next) {
            return false;
        }
    }
    true
}

fn some_next(lists: &[Vec<u32>], label: &[bool], number: u32) -> bool {
    if number as usize >= lists.len() {
        return false;
    }
    for next in &lists[number as usize] {
        if is_marked(label, *next) {
            return true;
        }
    }
    false
}

/// Where the parts of a goal hold, where what is always true does, and where what is never true does.
#[derive(Clone, Copy)]
struct Labels<'a> {
    left: &'a [bool],
    right: &'a [bool],
    all: &'a [bool],
    none: &'a [bool],
}

/// What an operator asks of paths, where it asks something of them.
fn until_of<'a>(operator: u32, labels: &Labels<'a>) -> Until<'a> {
    let Labels {
        left,
        right,
        all,
        none,
    } = *labels;
    match operator {
        2 | 3 => Until {
            guard: all,
            target: left,
            weak: false,
        },
        4 | 5 => Until {
            guard: left,
            target: none,
            weak: true,
        },
        6 | 7 => Until {
            guard: left,
            target: right,
            weak: false,
        },
        _ => Until {
            guard: left,
            target: right,
            weak: true,
        },
    }
}

/// Whether an operator's goal holds in a configuration, where its parts hold as the labels say. A
/// path of as many steps as there are configurations shows all that a longer one would.
fn holds_by(lists: &[Vec<u32>], operator: u32, labels: &Labels<'_>, number: u32) -> bool
    requires { length lists.now < 2 ^ 32 }
{
    let steps = lists.len() as u32;
    let until = until_of(operator, labels);
    match operator {
        0 => every_next(lists, labels.left, number),
        1 => some_next(lists, labels.left, number),
        2 | 4 | 6 | 8 => every_path(lists, &until, number, steps),
        3 | 5 | 7 | 9 => some_path(lists, &until, number, steps),
        10 => !is_marked(labels.left, number),
        _ => !is_marked(labels.left, number) || is_marked(labels.right, number),
    }
}

/// The label of an operator's goal, from those of its parts.
fn reading<'a>(
    alloc: Global,
    graph: &Graph,
    operator: u32,
    left: &'a [bool],
    right: &'a [bool],
) -> Result<Vec<bool>, AllocError> {
    let lists = followers(alloc, graph)?;
    let all = vec![in alloc; true; graph.len() as usize]?;
    let none = vec![in alloc; false; graph.len() as usize]?;
    let labels = Labels {
        left,
        right,
        all: &all,
        none: &none,
    };
    let mut marks = Vec::new(alloc);
    for number in 0..graph.len() {
        marks.push(holds_by(&lists, operator, &labels, number))?;
    }
    Ok(marks)
}

fn fluent_label(alloc: Global, graph: &Graph, fluent: u32) -> Result<Vec<bool>, AllocError>
    requires { fluent < 2 }
{
    let mut marks = Vec::new(alloc);
    for number in 0..graph.len() {
        marks.push(graph.state(number).get(FluentId(fluent)))?;
    }
    Ok(marks)
}

fn fluent_goal(fluent: u32) -> Ctl
    ensures { (n : ℕ) → fluent < n → NamesBelow n (ctl_value result) }
{
    Ctl::Plain(Cond::Is(FluentId(fluent)))
}

fn goal_of(alloc: Global, operator: u32, left: Ctl, right: Ctl) -> Result<Ctl, AllocError>
    ensures { (n : ℕ) → NamesBelow n (ctl_value left) → NamesBelow n (ctl_value right)
        → IfOk result (λ goal. NamesBelow n (ctl_value goal)) }
{
    let left = Box::new(alloc, left)?;
    match operator {
        0 => Ok(Ctl::Ax(left)),
        1 => Ok(Ctl::Ex(left)),
        2 => Ok(Ctl::Af(left)),
        3 => Ok(Ctl::Ef(left)),
        4 => Ok(Ctl::Ag(left)),
        5 => Ok(Ctl::Eg(left)),
        6 => Ok(Ctl::Au(left, Box::new(alloc, right)?)),
        7 => Ok(Ctl::Eu(left, Box::new(alloc, right)?)),
        8 => Ok(Ctl::Aw(left, Box::new(alloc, right)?)),
        9 => Ok(Ctl::Ew(left, Box::new(alloc, right)?)),
        10 => Ok(Ctl::Not(left)),
        _ => Ok(Ctl::Imply(left, Box::new(alloc, right)?)),
    }
}

fn wanted(graph: &Graph, label: &[bool]) -> Verdict {
    if graph.unexecutable() {
        return Verdict::No(Reason::Unexecutable);
    }
    if graph.stuck() {
        return Verdict::No(Reason::Stuck);
    }
    for number in 0..graph.len() {
        if graph.initial(number) && !is_marked(label, number) {
            return Verdict::No(Reason::Formula);
        }
    }
    Verdict::Yes { bound: None }
}

/// An operator on two fluents.
#[derive(Clone, Copy)]
struct Pair {
    operator: u32,
    left: u32,
    right: u32,
}

/// The goal of an operator on two fluents.
fn pair_goal(alloc: Global, pair: Pair) -> Result<Ctl, AllocError>
    requires left { pair.left < 2 }
    requires right { pair.right < 2 }
    ensures { (n : ℕ) → 2 ≤ n → IfOk result (λ goal. NamesBelow n (ctl_value goal)) }
{
    goal_of(
        alloc,
        pair.operator,
        fluent_goal(pair.left),
        fluent_goal(pair.right),
    )
}

fn agrees(
    alloc: Global,
    task: &Task,
    graph: &Graph,
    goal: &Ctl,
    label: &[bool],
) -> Result<bool, AllocError>
    requires names { NamesBelow (fluent_count task.now) (ctl_value goal.now) }
    requires graph { (contexts : ℕ) × ((rules : List ContextRule)
        × IsGraphOf (system_of task.now) (automaton contexts rules)
        (plain_graph (fluent_count task.now) graph.now)) }
{
    let verdict = judge_ctl(alloc, task, graph, goal)?;
    Ok(verdict == wanted(graph, label))
}

/// The same for a goal of an operator on two fluents, with this label, and for all goals of one
/// more operator.
fn agrees_around(
    alloc: Global,
    task: &Task,
    graph: &Graph,
    pair: Pair,
    part: &[bool],
) -> Result<bool, AllocError>
    requires fluents { 2 ≤ fluent_count task.now }
    requires left { pair.left < 2 }
    requires right { pair.right < 2 }
    requires graph { (contexts : ℕ) × ((rules : List ContextRule)
        × IsGraphOf (system_of task.now) (automaton contexts rules)
        (plain_graph (fluent_count task.now) graph.now)) }
{
    let goal = pair_goal(alloc, pair)?;
    if !agrees(alloc, task, graph, &goal, part)? {
        return Ok(false);
    }
    for outer in 0..OPERATORS {
        for fluent in 0..2 {
            let other = fluent_label(alloc, graph, fluent)?;
            let goal = pair_goal(alloc, pair)?;
            let goal = goal_of(alloc, outer, goal, fluent_goal(fluent))?;
            let label = reading(alloc, graph, outer, part, &other)?;
            if !agrees(alloc, task, graph, &goal, &label)? {
                return Ok(false);
            }
            let goal = pair_goal(alloc, pair)?;
            let goal = goal_of(alloc, outer, fluent_goal(fluent), goal)?;
            let label = reading(alloc, graph, outer, &other, part)?;
            if !agrees(alloc, task, graph, &goal, &label)? {
                return Ok(false);
            }
        }
    }
    Ok(true)
}

/// The same for all goals of up to two operators.
fn agrees_on_all(alloc: Global, task: &Task, graph: &Graph) -> Result<bool, AllocError>
    requires fluents { 2 ≤ fluent_count task.now }
    requires graph { (contexts : ℕ) × ((rules : List ContextRule)
        × IsGraphOf (system_of task.now) (automaton contexts rules)
        (plain_graph (fluent_count task.now) graph.now)) }
{
    for operator in 0..OPERATORS {
        for left in 0..2 {
            let first = fluent_label(alloc, graph, left)?;
            for right in 0..2 {
                let second = fluent_label(alloc, graph, right)?;
                let part = reading(alloc, graph, operator, &first, &second)?;
                let pair = Pair {
                    operator,
                    left,
                    right,
                };
                if !agrees_around(alloc, task, graph, pair, &part)? {
                    return Ok(false);
                }
            }
        }
    }
    Ok(true)
}

fn agrees_on_plan(alloc: Global, task: &Task, plan: &Plan) -> Result<bool, Fail>
    requires fluents { 2 ≤ fluent_count task.now }
    requires plan { IsPlanOf (fluent_count task.now) (action_count task.now) plan.now }
{
    match plan {
        Plan::Table(_) => Ok(false),
        Plan::Auto(_) => {
            let graph = explore(alloc, task, plan)?;
            Ok(agrees_on_all(alloc, task, &graph)?)
        }
    }
}

fn agrees_on_text(alloc: Global, task: &Task, text: &str) -> Result<bool, Fail>
    requires { 2 ≤ fluent_count task.now }
{
    let bytes = text.as_bytes();
    if bytes.len() > MAX_BYTES {
        return Ok(false);
    }
    match read_plan(alloc, bytes, task) {
        Ok(read) => agrees_on_plan(alloc, task, &read.plan),
        Err(_) => Ok(false),
    }
}

/// Twenty plans for the task of the other tests, in which p and q are false at first, or q is true.
/// Some come round, some may stand still, some branch; the 9th and the 19th get stuck, the 10th
/// can't be executed.
static PLANS: [&str; 20] = [
    "(plan automaton 1 (rule 1 () (push) 1))",
    "(plan automaton 1 (rule 1 () (try) 1))",
    "(plan automaton 2 (rule 1 () (push) 2) (rule 2 () (pull) 1))",
    "(plan automaton 1 (rule 1 ((p)) (pull) 1) (rule 1 () (push) 1))",
    "(plan automaton 1 (rule 1 ((p)) (pull) 1) (rule 1 () (try) 1))",
    "(plan automaton 1 (rule 1 ((q)) (clear) 1) (rule 1 () (set) 1))",
    "(plan automaton 2 (rule 1 ((q)) (clear) 2) (rule 1 () (set) 2) (rule 2 () (try) 1))",
    "(plan automaton 2 (rule 1 () (try) ((((p)) 2) (() 1))) (rule 2 () (pull) 1))",
    "(plan automaton 1 (rule 1 ((not (q))) (push) 1))",
    "(plan automaton 1 (rule 1 () (pull) 1))",
    "(plan automaton 3 (rule 1 () (try) 2) (rule 2 () (try) 3) (rule 3 () (try) 1))",
    "(plan automaton 2 (rule 1 ((q)) (push) 2) (rule 1 () (set) 1) (rule 2 ((p)) (pull) 2) (rule 2 () (try) 2))",
    "(plan automaton 2 (rule 1 () (try) ((((p) (q)) 2) (() 1))) (rule 2 () (clear) 1))",
    "(plan automaton 1 (rule 1 ((p) (q)) (clear) 1) (rule 1 ((p)) (pull) 1) (rule 1 ((q)) (try) 1) (rule 1 () (set) 1))",
    "(plan automaton 2 (rule 1 ((p)) (try) 2) (rule 1 () (try) 1) (rule 2 () (push) 2))",
    "(plan automaton 2 (rule 1 () (push) 2) (rule 2 ((q)) (clear) 2) (rule 2 () (set) 2))",
    "(plan automaton 2 (rule 1 ((q)) (clear) 1) (rule 1 () (try) 2) (rule 2 ((p)) (pull) 1) (rule 2 () (set) 1))",
    "(plan automaton 4 (rule 1 () (try) 2) (rule 2 ((p)) (pull) 3) (rule 2 () (push) 3) (rule 3 () (try) 4) (rule 4 () (push) 4))",
    "(plan automaton 2 (rule 1 () (try) ((((p)) 2))) (rule 2 () (pull) 1))",
    "(plan automaton 1 (rule 1 ((p) (q)) (pull) 1) (rule 1 ((p)) (set) 1) (rule 1 ((q)) (try) 1) (rule 1 () (push) 1))",
];

#[test]
fn goals_are_true_where_their_paths_say(rt: HostRuntime) -> Result<(), Fail> {
    let alloc = rt.alloc();
    let task = task(alloc)?;
    if task.fluents.len() < 2 {
        return Err(Fail::from("the task has two fluents"));
    }
    for text in &PLANS {
        assert!(rt; agrees_on_text(alloc, &task, text)?);
    }
    Ok(())
}
