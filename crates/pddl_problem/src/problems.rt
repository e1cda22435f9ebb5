//! Reads a problem.

ghost use Rattle.std.specs.Prelude.{◌≡◌, [], codes, None, Some, IfOk, OnOk, IfErr};
ghost use Rattle.std.specs.Option.{option_map};
ghost use Rattle.sexpr_text.specs.Flaws.{first_listed};
ghost use Rattle.sexpr_text.specs.Forest.{forest_of};
ghost use Rattle.sexpr_text.specs.Passes.{IfFault};
ghost use Rattle.pddl_ast.specs.Environment.{known_value};
ghost use Rattle.pddl_ast.specs.Values.{formula_value, problem_value, temporal_value};
ghost use Rattle.pddl_problem.specs.Init as init;
ghost use Rattle.pddl_problem.specs.Listed.{listed_fault};
ghost use Rattle.pddl_problem.specs.Problems as problems;
ghost use Rattle.pddl_problem.specs.Sections as sections;
ghost use Rattle.pddl_problem.specs.Values.{definition_value, facts_in, entries_in};

use crate::definitions::{Definition, definition_in};
use crate::init::{Initial, read_entries};
use crate::objects::read_objects;
use crate::sections::{check_sections, items_of, section};
use pddl_ast::{
    Formula, Known, Named, Problem, Scope, Temporal, read_formula, read_temporal, spells,
};
use sexpr_text::{FaultKind, Form, Head, Place, ReadErr, Span, Text, fault_at, head_of};
use std::alloc::{AllocError, Global};

/// Whether the name in a `:domain` section is the domain's.
fn check_domain(domain: &Text, row: &[Form]) -> Result<(), ReadErr>
    ensures sound { OnOk result (problems.domain_flaws domain.now (forest_of row.now) ≡ []) }
    ensures fault { IfErr result (λ e. IfFault e (λ f.
        first_listed (problems.domain_flaws domain.now (forest_of row.now)) ≡ Some f)) }
{
    match head_of(row) {
        Head::Word(span, name, _) => {
            if spells(name, domain.as_bytes()) {
                Ok(())
            } else {
                Err(fault_at(span, FaultKind::OtherDomain))
            }
        }
        Head::Nothing | Head::Group(_, _, _) => Ok(()),
    }
}

/// The goal: a formula without free variables.
fn read_goal(alloc: Global, known: &Known, row: &[Form]) -> Result<Option<Formula>, ReadErr>
    ensures sound { OnOk result (problems.goal_flaws (known_value known.now) (forest_of row.now)
        ≡ []) }
    ensures read { IfOk result (λ goal. option_map formula_value goal
        ≡ problems.goal_of (known_value known.now) (forest_of row.now)) }
    ensures fault { IfErr result (λ e. IfFault e (λ f.
        first_listed (problems.goal_flaws (known_value known.now) (forest_of row.now)) ≡ Some f)) }
{
    match head_of(row) {
        Head::Nothing => Ok(None),
        Head::Word(span, _, _) => Err(fault_at(span, FaultKind::BadForm)),
        Head::Group(span, parts, _) => {
            let mut scope = Scope::new(alloc);
            let goal = read_formula(alloc, known, &mut scope, span, parts)?;
            Ok(Some(goal))
        }
    }
}

/// The goal in computation tree logic.
fn read_ctl(alloc: Global, known: &Known, row: &[Form]) -> Result<Option<Temporal>, ReadErr>
    ensures sound { OnOk result (problems.ctl_flaws (known_value known.now) (forest_of row.now)
        ≡ []) }
    ensures read { IfOk result (λ goal. option_map temporal_value goal
        ≡ problems.ctl_of (known_value known.now) (forest_of row.now)) }
    ensures fault { IfErr result (λ e. IfFault e (λ f.
        first_listed (problems.ctl_flaws (known_value known.now) (forest_of row.now)) ≡ Some f)) }
{
    match head_of(row) {
        Head::Nothing => Ok(None),
        Head::Word(span, _, _) => Err(fault_at(span, FaultKind::BadForm)),
        Head::Group(span, parts, _) => {
            let goal = read_temporal(alloc, known, span, parts)?;
            Ok(Some(goal))
        }
    }
}

/// The place of that goal's form; of the definition's list (`span`) where there is none.
fn ctl_place(span: Span, row: &[Form]) -> Place
    ensures { result ≡ problems.ctl_place span (forest_of row.now) }
{
    match head_of(row) {
        Head::Nothing => span.place,
        Head::Word(span, _, _) => span.place,
        Head::Group(span, _, _) => span.place,
    }
}

/// Whether there is a goal of either kind.
fn check_goal(span: Span, goal: Option<&[Form]>, ctl: Option<&[Form]>) -> Result<(), ReadErr>
    ensures sound { OnOk result (problems.missing_flaws span
        (option_map (λ row. forest_of row.now) goal.entry)
        (option_map (λ row. forest_of row.now) ctl.entry) ≡ []) }
    ensures fault { IfErr result (λ e. IfFault e (λ f.
        first_listed (problems.missing_flaws span
        (option_map (λ row. forest_of row.now) goal.entry)
        (option_map (λ row. forest_of row.now) ctl.entry)) ≡ Some f)) }
{
    match (goal, ctl) {
        (None, None) => Err(fault_at(span, FaultKind::GoalMissing)),
        _ => Ok(()),
    }
}

/// The facts and the uncertain entries of `:init`.
fn read_initial(alloc: Global, known: &Known, row: &[Form]) -> Result<Initial, ReadErr>
    ensures sound { OnOk result (init.init_flaws (known_value known.now) (forest_of row.now) ≡ []) }
    ensures facts { IfOk result (λ i. facts_in i
        ≡ init.init_facts (known_value known.now) (forest_of row.now)) }
    ensures entries { IfOk result (λ i. entries_in i
        ≡ init.init_entries (known_value known.now) (forest_of row.now)) }
    ensures fault { IfErr result (λ e. IfFault e (λ f.
        first_listed (init.init_flaws (known_value known.now) (forest_of row.now)) ≡ Some f)) }
{
    let mut initial = Initial {
        facts: Vec::new(alloc),
        entries: Vec::new(alloc),
    };
    read_entries(alloc, known, row, &mut initial)?;
    Ok(initial)
}

/// What a problem says of its objects: the initial situation and the goals.
#[derive(Drop)]
struct Body {
    initial: Initial,
    goal: Option<Formula>,
    ctl: Option<Temporal>,
}

/// The initial situation and the goals of a definition.
fn read_body(alloc: Global, known: &Known, definition: &Definition) -> Result<Body, ReadErr>
    ensures sound { OnOk result (listed_fault (problems.body_passes (known_value known.now)
        (definition_value definition.now)) ≡ None) }
    ensures facts { IfOk result (λ b. facts_in b.initial
        ≡ init.init_facts (known_value known.now) (sections.items_of (codes ":init")
        (forest_of definition.now.items.now))) }
    ensures entries { IfOk result (λ b. entries_in b.initial
        ≡ init.init_entries (known_value known.now) (sections.items_of (codes ":init")
        (forest_of definition.now.items.now))) }
    ensures goal { IfOk result (λ b. option_map formula_value b.goal
        ≡ problems.goal_of (known_value known.now) (sections.items_of (codes ":goal")
        (forest_of definition.now.items.now))) }
    ensures ctl { IfOk result (λ b. option_map temporal_value b.ctl
        ≡ problems.ctl_of (known_value known.now) (sections.items_of (codes ":ctl-goal")
        (forest_of definition.now.items.now))) }
    ensures fault { IfErr result (λ e. IfFault e (λ f.
        listed_fault (problems.body_passes (known_value known.now)
        (definition_value definition.now)) ≡ Some f)) }
{
    let initial = read_initial(alloc, known, items_of(definition.items, b":init"))?;
    let goal = read_goal(alloc, known, items_of(definition.items, b":goal"))?;
    let ctl = read_ctl(alloc, known, items_of(definition.items, b":ctl-goal"))?;
    check_goal(
        definition.span,
        section(definition.items, b":goal"),
        section(definition.items, b":ctl-goal"),
    )?;
    Ok(Body { initial, goal, ctl })
}

/// The problem of these parts.
fn joined(
    alloc: Global,
    definition: &Definition,
    objects: Vec<Named>,
    body: Body,
) -> Result<Problem, AllocError>
    ensures name { IfOk result (λ p. p.name ≡ definition.now.name.now) }
    ensures objects { IfOk result (λ p. p.objects ≡ objects) }
    ensures facts { IfOk result (λ p. p.facts ≡ body.initial.facts) }
    ensures entries { IfOk result (λ p. p.entries ≡ body.initial.entries) }
    ensures goal { IfOk result (λ p. p.goal ≡ body.goal) }
    ensures ctl { IfOk result (λ p. p.ctl ≡ body.ctl) }
    ensures place { IfOk result (λ p. p.place ≡ definition.now.span.place) }
    ensures ctl_place { IfOk result (λ p. p.ctl_place
        ≡ problems.ctl_place definition.now.span (sections.items_of (codes ":ctl-goal")
        (forest_of definition.now.items.now))) }
{
    Ok(Problem {
        name: Text::new(alloc, definition.name.as_bytes())?,
        objects,
        facts: body.initial.facts,
        entries: body.initial.entries,
        goal: body.goal,
        ctl: body.ctl,
        place: definition.span.place,
        ctl_place: ctl_place(definition.span, items_of(definition.items, b":ctl-goal")),
    })
}

/// The problem that a definition reads as, where these names of the domain are known, or the first
/// flaw of the first pass that has one.
pub(crate) fn read_definition(
    alloc: Global,
    domain: &Text,
    known: &mut Known,
    definition: &Definition,
) -> Result<Problem, ReadErr>
    ensures sound { OnOk result (listed_fault (problems.definition_passes domain.now
        (known_value known.old) (definition_value definition.now)) ≡ None) }
    ensures read { IfOk result (λ p. problem_value p
        ≡ problems.problem_of (known_value known.old) (definition_value definition.now)) }
    ensures fault { IfErr result (λ e. IfFault e (λ f.
        listed_fault (problems.definition_passes domain.now (known_value known.old)
        (definition_value definition.now)) ≡ Some f)) }
{
    check_sections(alloc, definition.items)?;
    check_domain(domain, items_of(definition.items, b":domain"))?;
    let objects = read_objects(alloc, known, items_of(definition.items, b":objects"))?;
    let body = read_body(alloc, known, definition)?;
    Ok(joined(alloc, definition, objects, body)?)
}
