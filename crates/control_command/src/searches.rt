//! The search for a plan, which is then followed from the initial states.

ghost use Rattle.control_command.specs.Followed.{AreReachedWithin, AreSlotsLive};
ghost use Rattle.ctl_syntax.specs.Values.{IsAtMostDeep, NamesBelow, ctl_value};
ghost use Rattle.encode_task.specs.Made.{MadeOf};
ghost use Rattle.command_base.specs.Words.{IsNodeLimit};
ghost use Rattle.plan_rules.specs.Plans.{IsPlanOf};
ghost use Rattle.plan_theory.specs.Classes.{IsFoundByLayers};
ghost use Rattle.std.specs.Prelude.{◌≡◌, ◌≤◌, IfOk, IfSome, IsSome, OnOk};
ghost use Rattle.task_core.specs.Tasks.{action_count, fluent_count};

use crate::allowances::allowance_for;
use crate::context_searches::follow_contexts;
use crate::followed::Followed;
use crate::movers::{ContextTakers, TakerSets};
use crate::set_outcomes::{SetOutcome, followed_in_tries, outcome_of_try};
use crate::staged::{follow_forward, follow_nearest};
use crate::state_plans::StatePlan;
use command_base::{PlanKind, PlanWords};
use cyclic_plan::{cyclic_takers, takers_of};
use dd_sets::SetErr;
use encode_task::Enc;
use exec_graph::MAX_CONFIGURATIONS;
use explicit_plan::plan_reached;
use ground_task::Grounded;
use heuristic_search::{Allowance, GuidedAnswer, plan_guided};
use plan_rules::{Class, Plan, Rule};
use reach_plan::{Takers, find_takers};
use rule_lookup::Guide;
use short_conditions::short_task;
use std::alloc::{AllocError, AllocFailed, Global};
use task_core::{ActionId, InitErr, Lit, Task, init_states};
use task_sets::{SetSearch, search_in_tries};

/// How many states are gone through before anything else is tried.
const FEW_STATES: usize = 4_096;

/// What a heuristic search may do before all states are gone through.
const LITTLE: Allowance = Allowance {
    expanded: 50_000,
    states: 200_000,
};

/// What it may do where nothing else finds a plan.
const MUCH: Allowance = Allowance {
    expanded: 2_000_000,
    states: 4_000_000,
};

/// How much a search may do.
#[derive(Clone, Copy)]
pub(crate) enum Effort {
    /// It goes through a few states, or by estimates from a few.
    Little,
    /// It goes through all states that can be reached, or over sets of states, or where these don't fit
    /// by estimates from many states.
    Thorough,
    /// It goes by estimates from many states.
    Much,
}

/// What came of a search.
#[derive(Drop)]
pub(crate) enum Searched {
    /// This is what a plan reaches, and what it does there.
    Followed(Followed),
    /// The rules of a table, of which the first that matches counts.
    Rules(Vec<Rule>),
    /// There is no plan, as far as the search knows: these sets, of cubes, are to be a certificate.
    NoPlan(Vec<Vec<Vec<Lit>>>),
    /// No plan was found, or more is reached than may be followed, or for whatever other reason there is
    /// nothing to be shown.
    Nothing,
}

/// Why a search ends early.
#[derive(Clone, Copy)]
pub(crate) enum Stop {
    /// The table of diagram nodes is full.
    Full,
    /// There are too many initial states, or the plan reaches too many configurations.
    TooMany,
    Memory,
}

impl From<AllocError> for Stop {
    fn from(_: AllocError) -> Stop {
        Stop::Memory
    }
}

impl<T: Drop> From<AllocFailed<T>> for Stop {
    fn from(_: AllocFailed<T>) -> Stop {
        Stop::Memory
    }
}

impl From<SetErr> for Stop {
    fn from(error: SetErr) -> Stop {
        match error {
            SetErr::Full => Stop::Full,
            SetErr::Memory => Stop::Memory,
        }
    }
}

impl From<InitErr> for Stop {
    fn from(error: InitErr) -> Stop {
        match error {
            InitErr::TooMany => Stop::TooMany,
            InitErr::Memory => Stop::Memory,
        }
    }
}

/// Looks for a plan of the kind for a task and its goals. Fails only where memory runs out.
pub(crate) fn seek(
    alloc: Global,
    asked: &PlanWords,
    grounded: &Grounded,
    effort: Effort,
) -> Result<Searched, AllocError>
    requires room { IsNodeLimit asked.now.options.nodes }
    requires goal_names { IfSome grounded.now.ctl
        (λ goal. NamesBelow (fluent_count grounded.now.task) (ctl_value goal)) }
    requires shallow { IfSome grounded.now.ctl (λ goal. IsAtMostDeep 199 (ctl_value goal)) }
{
    let nodes = asked.options.nodes;
    match asked.kind {
        PlanKind::Class(class) => seek_class(alloc, class, nodes, &grounded.task, effort),
        PlanKind::Contexts => seek_contexts(alloc, nodes, grounded, effort),
    }
}

/// Looks for a plan with contexts: with little work state by state for patrols; thoroughly over sets of
/// states, and where the table of nodes is full by a heuristic search.
fn seek_contexts(
    alloc: Global,
    nodes: u32,
    grounded: &Grounded,
    effort: Effort,
) -> Result<Searched, AllocError>
    requires room { IsNodeLimit nodes }
    requires goal_names { IfSome grounded.now.ctl
        (λ goal. NamesBelow (fluent_count grounded.now.task) (ctl_value goal)) }
    requires shallow { IfSome grounded.now.ctl (λ goal. IsAtMostDeep 199 (ctl_value goal)) }
{
    match effort {
        Effort::Little => outcome_of(follow_nearest(alloc, grounded)),
        Effort::Thorough => seek_contexts_thoroughly(alloc, nodes, grounded),
        Effort::Much => Ok(Searched::Nothing),
    }
}

/// Looks for a plan with contexts thoroughly.
fn seek_contexts_thoroughly(
    alloc: Global,
    nodes: u32,
    grounded: &Grounded,
) -> Result<Searched, AllocError>
    requires room { IsNodeLimit nodes }
    requires goal_names { IfSome grounded.now.ctl
        (λ goal. NamesBelow (fluent_count grounded.now.task) (ctl_value goal)) }
    requires shallow { IfSome grounded.now.ctl (λ goal. IsAtMostDeep 199 (ctl_value goal)) }
{
    match follow_contexts(alloc, nodes, grounded) {
        Err(Stop::Full) => outcome_of(follow_forward(alloc, grounded)),
        found => outcome_of(found),
    }
}

/// Looks for a plan of a class: with little work state by state where very few can be reached, and else
/// by a heuristic search; thoroughly state by state, then over sets of states, and where the table of
/// nodes is full by a heuristic search; with much work by a heuristic search. Conditions are asked in each
/// state, in their short forms.
fn seek_class(
    alloc: Global,
    class: Class,
    nodes: u32,
    task: &Task,
    effort: Effort,
) -> Result<Searched, AllocError>
    requires room { IsNodeLimit nodes }
{
    let short = short_task(alloc, task)?;
    match effort {
        Effort::Little => seek_quickly(alloc, class, &short),
        Effort::Thorough => seek_thoroughly(alloc, class, nodes, &short),
        Effort::Much => seek_guided(alloc, class, &short, &MUCH),
    }
}

/// Looks for a plan of a class with little work.
fn seek_quickly(alloc: Global, class: Class, task: &Task) -> Result<Searched, AllocError> {
    match plan_reached(alloc, task, class, FEW_STATES)? {
        Some(plan) => outcome_of(follow_states(alloc, task, &StatePlan::Reached(plan))),
        None => seek_guided(alloc, class, task, &LITTLE),
    }
}

/// Looks for a plan of a class thoroughly.
fn seek_thoroughly(
    alloc: Global,
    class: Class,
    nodes: u32,
    task: &Task,
) -> Result<Searched, AllocError>
    requires room { IsNodeLimit nodes }
{
    match follow_thoroughly(alloc, class, nodes, task) {
        Err(Stop::Full) => seek_guided(alloc, class, task, &MUCH),
        found => outcome_of(found),
    }
}

/// What came of following a plan that was looked for.
fn outcome_of(found: Result<Option<Followed>, Stop>) -> Result<Searched, AllocError> {
    match found {
        Ok(Some(followed)) => Ok(Searched::Followed(followed)),
        Ok(None) | Err(Stop::Full | Stop::TooMany) => Ok(Searched::Nothing),
        Err(Stop::Memory) => Err(AllocError),
    }
}

/// What a plan reaches that is found among all states that can be reached, or over sets of states. Where
/// there are too many initial states neither is tried.
fn follow_thoroughly(
    alloc: Global,
    class: Class,
    nodes: u32,
    task: &Task,
) -> Result<Option<Followed>, Stop>
    requires room { IsNodeLimit nodes }
{
    let _initial = init_states(alloc, task, MAX_CONFIGURATIONS)?;
    match plan_reached(alloc, task, class, MAX_CONFIGURATIONS)? {
        Some(plan) => follow_states(alloc, task, &StatePlan::Reached(plan)),
        None => follow_encoded(alloc, class, nodes, task),
    }
}

/// Looks for a plan of a class by a heuristic search which may do so much, or less where conditions are
/// large.
fn seek_guided(
    alloc: Global,
    class: Class,
    task: &Task,
    allowance: &Allowance,
) -> Result<Searched, AllocError> {
    let allowance = allowance_for(task, allowance);
    match plan_guided(alloc, task, class, &allowance)? {
        GuidedAnswer::States(plan) => {
            outcome_of(follow_states(alloc, task, &StatePlan::Guided(plan)))
        }
        GuidedAnswer::Rules(rules) => Ok(Searched::Rules(rules)),
        GuidedAnswer::NoPlan(sets) => Ok(Searched::NoPlan(sets)),
        GuidedAnswer::GaveUp => Ok(Searched::Nothing),
    }
}

/// What a plan for the states that it reaches does.
fn follow_states(alloc: Global, task: &Task, plan: &StatePlan) -> Result<Option<Followed>, Stop> {
    let mut followed = begun(alloc, task)?;
    followed.visit(task, plan)?;
    Ok(Some(followed))
}

/// What the plan of a class reaches that is found over sets of states, if there is one.
fn follow_encoded(
    alloc: Global,
    class: Class,
    nodes: u32,
    task: &Task,
) -> Result<Option<Followed>, Stop>
    requires room { IsNodeLimit nodes }
{
    if task.goal.is_none() {
        return Ok(None);
    }
    followed_in_tries(search_in_tries(alloc, task, &ClassSets { class, nodes }))
}

/// The search over sets for the plan of a class, which is then followed, with so many nodes.
#[derive(Clone, Copy)]
struct ClassSets {
    class: Class,
    nodes: u32,
}

impl SetSearch for ClassSets {
    ghost use Rattle.std.specs.Prelude.{IsSome, ⊤};

    type Found = SetOutcome;

    ghost nodes = { λ self. self.nodes };

    ghost fits = { λ self task. IsSome task.goal };

    ghost finds = { λ self task found. ⊤ };

    ghost lacks_room = { λ self task before after. ⊤ };

    fn nodes(&self) -> u32 {
        self.nodes
    }

    fn find(&self, alloc: Global, task: &Task, enc: &mut Enc) -> Result<SetOutcome, SetErr> {
        outcome_of_try(follow_sets(alloc, self.class, task, enc))
    }
}

/// What the plan of a class reaches, if there is one, over the task's sets.
fn follow_sets(
    alloc: Global,
    class: Class,
    task: &Task,
    enc: &mut Enc,
) -> Result<Option<Followed>, Stop>
    requires made { MadeOf task.now enc.old }
    requires goal { IsSome task.now.goal }
{
    match class {
        Class::Weak => follow_layers(alloc, Class::Weak, task, enc),
        Class::Strong => follow_layers(alloc, Class::Strong, task, enc),
        Class::Cyclic => follow_rounds(alloc, task, enc),
    }
}

/// What a weak or a strong plan reaches, if there is one.
fn follow_layers(
    alloc: Global,
    class: Class,
    task: &Task,
    enc: &mut Enc,
) -> Result<Option<Followed>, Stop>
    requires class { IsFoundByLayers class }
    requires made { MadeOf task.now enc.old }
    requires goal { IsSome task.now.goal }
{
    match find_takers(alloc, task, enc, class)? {
        Takers::Board(board) => {
            let sets = TakerSets {
                enc,
                slots: &board.slots,
                first: 0,
            };
            follow_table(alloc, task, &sets)
        }
        Takers::NoPlan => Ok(None),
    }
}

/// What a strong cyclic plan reaches, if there is one.
fn follow_rounds(alloc: Global, task: &Task, enc: &mut Enc) -> Result<Option<Followed>, Stop>
    requires made { MadeOf task.now enc.old }
    requires goal { IsSome task.now.goal }
{
    match cyclic_takers(alloc, task, enc)? {
        Some(board) => {
            let sets = TakerSets {
                enc,
                slots: &board.slots,
                first: takers_of(task.actions.len() as u32, ActionId(0)),
            };
            follow_table(alloc, task, &sets)
        }
        None => Ok(None),
    }
}

/// What a table reaches, whose actions are taken in these sets.
fn follow_table(alloc: Global, task: &Task, sets: &TakerSets<'_>) -> Result<Option<Followed>, Stop>
    requires live { AreSlotsLive sets.now.enc.now.sets sets.now.slots.now }
{
    let mut followed = begun(alloc, task)?;
    followed.visit(
        task,
        &ContextTakers {
            sets: *sets,
            context: 0,
            next: 0,
        },
    )?;
    Ok(Some(followed))
}

/// The initial configurations.
pub(crate) fn begun(alloc: Global, task: &Task) -> Result<Followed, Stop>
    ensures { IfOk result
        (λ followed. AreReachedWithin (fluent_count task.now) followed.places.items) }
{
    let states = init_states(alloc, task, MAX_CONFIGURATIONS)?;
    Followed::begin(alloc, &states)
}

/// What a plan of a task reaches, if it can be followed. A table begins in the first context, and stays.
pub(crate) fn follow_found(
    alloc: Global,
    task: &Task,
    plan: &Plan,
) -> Result<Option<Followed>, AllocError>
    requires { IsPlanOf (fluent_count task.now) (action_count task.now) plan.now }
{
    match follow_plan(alloc, task, plan) {
        Ok(followed) => Ok(Some(followed)),
        Err(Stop::Full | Stop::TooMany) => Ok(None),
        Err(Stop::Memory) => Err(AllocError),
    }
}

/// The same, or why it can't be followed.
pub(crate) fn follow_plan(alloc: Global, task: &Task, plan: &Plan) -> Result<Followed, Stop>
    requires { IsPlanOf (fluent_count task.now) (action_count task.now) plan.now }
{
    let guide = Guide::new(alloc, task, plan)?;
    let mut followed = begun(alloc, task)?;
    followed.visit(task, &guide)?;
    Ok(followed)
}
