//! From what is asked to the answer.

ghost use Rattle.command_base.specs.Answers.{no_memory, refused};
ghost use Rattle.command_base.specs.Fetching.{HoldsSomePlan, RefusesPlan, Stops};
ghost use Rattle.command_base.specs.Grounding.{GroundThen};
ghost use Rattle.command_base.specs.Shelves.{KeepsShelf};
ghost use Rattle.command_base.specs.Values.{answer_of, refusal_of};
ghost use Rattle.pddl_ast.specs.Fits.{FitsDomain, FitsProblem};
ghost use Rattle.pddl_ast.specs.Values.{domain_value, problem_value};
ghost use Rattle.pddl_system.specs.Names.{NamesAreWords};
ghost use Rattle.pddl_system.specs.Sizes.{first_passed};
ghost use Rattle.pddl_system.specs.Systems.{
  action_names as names_of_actions,
  fluent_names as names_of_fluents,
};
ghost use Rattle.draw_command.specs.Fetching.{FetchPlan, FetchesRun, FetchesToPicture};
ghost use Rattle.draw_command.specs.Pictures.{
  DrawnOf,
  ExplanationThen,
  IsLongFor,
  IsPictureAnswer,
  IsPictured,
  IsStray,
  RunThen,
  ShowsEdges,
  ShowsText,
  TaskThen,
  edges_of as edges_of_shown,
  edges_told,
  file_of as file_of_form,
  most_for,
  shown_text as text_of,
};
ghost use Rattle.draw_command.specs.Values.{form_value, picture_words_of};
ghost use Rattle.plan_io.specs.Fetches.{FailedLast, Fetches};
ghost use Rattle.plan_page.specs.ExplanationValues.{explanation_value, shown_value};
ghost use Rattle.plan_page.specs.Pages.{page_of as page_for};
ghost use Rattle.plan_picture.specs.Texts.{most_in_text};
ghost use Rattle.plan_picture.specs.Values.{edge_value, nodes_of};
ghost use Rattle.plan_rules.specs.Plans.{IsPlanOf};
ghost use Rattle.plan_rules.specs.Rules.{plain_of};
ghost use Rattle.rule_picture.specs.Texts.{rules_text as text_by_rules};
ghost use Rattle.std.specs.Option.{option_map};
ghost use Rattle.std.specs.Prelude.{
  ◌≡◌,
  ◌≤◌,
  ◌<◌,
  ◌⊎◌,
  ◌↔◌,
  ◌∷◌,
  [],
  None,
  IfOk,
  IsErrOf,
  IsTrue,
  OnOk,
  length,
  map,
  string_bytes,
};
ghost use Rattle.task_core.specs.Tasks.{
  action_count,
  action_names,
  fluent_count,
  fluent_names,
  system_of,
};

use crate::run_files::read_explanation_file;
use crate::words::{PictureForm, PictureWords};
use command_base::{Limit, Refusal, Shown, Text, grounded, no_initial, read_both, read_plan_file};
use pddl_ast::{Domain, Problem};
use plan_io::Shelf;
use plan_page::{Explanation, ShownRun, page_text};
use plan_picture::{
    Edge, MAX_NODES, MAX_TEXT, Picture, PictureErr, TextErr, dot_text, picture_of, run_edges,
};
use plan_rules::Plan;
use rule_picture::rules_text;
use sexpr_text::{FaultKind, InputFault, Place};
use std::alloc::{AllocError, Global};
use task_core::Task;

/// How many configurations a page may show.
const MAX_PAGE_NODES: u32 = 20_000;

/// The picture of the plan in a file, for the domain and the problem in two files.
///
/// The plan may be of either kind, and no goal is asked for. The limits are those of `mbp check`, or: the plan
/// may reach more than 400 configurations, for a page more than 20,000; or the text has more than 67,108,864
/// bytes, or, state by state, a name of more than 4,096.
pub fn picture_files<S: Shelf>(
    alloc: Global,
    shelf: &mut S,
    asked: &PictureWords,
) -> Result<Shown, Refusal>
    ensures answer { let failed = FailedLast S.fetched S.faults shelf.old shelf.new in
        (answer_of result ≡ refused no_memory)
        ⊎ IsPictureAnswer (S.held shelf.old) failed (picture_words_of asked.now)
        (answer_of result) }
    ensures fetches { let failed = FailedLast S.fetched S.faults shelf.old shelf.new in
        FetchesToPicture (S.held shelf.old) failed S.fetched (picture_words_of asked.now)
        (answer_of result) shelf.old shelf.new }
    ensures shelf { KeepsShelf S.held S.faults (answer_of result) shelf.old shelf.new }
{
    let (domain, problem) = read_both(alloc, shelf, asked.domain, asked.problem)?;
    picture_problem(alloc, shelf, asked, &domain, &problem)
}

/// The picture of the plan in a file, for a domain and a problem.
fn picture_problem<S: Shelf>(
    alloc: Global,
    shelf: &mut S,
    asked: &PictureWords,
    domain: &Domain,
    problem: &Problem,
) -> Result<Shown, Refusal>
    requires fits_domain { FitsDomain (domain_value domain.now) }
    requires fits_problem { FitsProblem (domain_value domain.now) (problem_value problem.now) }
    requires names { NamesAreWords (domain_value domain.now) (problem_value problem.now) }
    ensures answer { let failed = FailedLast S.fetched S.faults shelf.old shelf.new in
        (answer_of result ≡ refused no_memory)
        ⊎ IsPictured (S.held shelf.old) failed (picture_words_of asked.now)
        (domain_value domain.now) (problem_value problem.now) (answer_of result) }
    ensures fetches { let failed = FailedLast S.fetched S.faults shelf.old shelf.new in
        let domain = domain_value domain.now in
        let problem = problem_value problem.now in
        let fluents = names_of_fluents domain problem in
        let actions = names_of_actions domain problem in
        (Stops (GroundThen domain problem (λ answer. ⊥)) (answer_of result)
        × (shelf.new ≡ shelf.old))
        ⊎ ((first_passed domain problem ≡ None)
        × FetchPlan S.fetched (picture_words_of asked.now)
        (RefusesPlan (S.held shelf.old) failed fluents actions asked.now.plan.now)
        (HoldsSomePlan (S.held shelf.old) fluents actions asked.now.plan.now)
        (answer_of result) shelf.old shelf.new) }
    ensures shelf { KeepsShelf S.held S.faults (answer_of result) shelf.old shelf.new }
{
    let task = grounded(alloc, domain, problem)?;
    picture_task(alloc, shelf, asked, problem, &task)
}

/// The picture of the plan in a file, for a task.
fn picture_task<S: Shelf>(
    alloc: Global,
    shelf: &mut S,
    asked: &PictureWords,
    problem: &Problem,
    task: &Task,
) -> Result<Shown, Refusal>
    ensures answer { let failed = FailedLast S.fetched S.faults shelf.old shelf.new in
        (answer_of result ≡ refused no_memory)
        ⊎ TaskThen (S.held shelf.old) failed (picture_words_of asked.now)
        (problem_value problem.now) task.now (answer_of result) }
    ensures fetches { let failed = FailedLast S.fetched S.faults shelf.old shelf.new in
        FetchPlan S.fetched (picture_words_of asked.now)
        (RefusesPlan (S.held shelf.old) failed (fluent_names task.now) (action_names task.now)
        asked.now.plan.now)
        (HoldsSomePlan (S.held shelf.old) (fluent_names task.now) (action_names task.now)
        asked.now.plan.now) (answer_of result) shelf.old shelf.new }
    ensures shelf { KeepsShelf S.held S.faults (answer_of result) shelf.old shelf.new }
{
    let read = read_plan_file(alloc, shelf, asked.plan, task)?;
    let wanted = Wanted {
        problem,
        task,
        plan: &read.plan,
    };
    draw_command(alloc, shelf, asked, &wanted)
}

/// A plan for the task of a problem.
#[derive(Clone, Copy)]
struct Wanted<'a> {
    problem: &'a Problem,
    task: &'a Task,
    plan: &'a Plan,
}

/// The picture of a plan, and of the run of the explanation in a file, where there is one.
fn draw_command<S: Shelf>(
    alloc: Global,
    shelf: &mut S,
    asked: &PictureWords,
    wanted: &Wanted<'_>,
) -> Result<Shown, Refusal>
    requires in_task { IsPlanOf (fluent_count wanted.now.task.now)
        (action_count wanted.now.task.now) wanted.now.plan.now }
    ensures answer { let failed = FailedLast S.fetched S.faults shelf.old shelf.new in
        (answer_of result ≡ refused no_memory)
        ⊎ RunThen (S.held shelf.old) failed (form_value asked.now.form)
        (DrawnOf (picture_words_of asked.now) (problem_value wanted.now.problem.now)
        wanted.now.task.now (plain_of wanted.now.plan.now)) (answer_of result) }
    ensures fetches { FetchesRun S.fetched (form_value asked.now.form) shelf.old shelf.new }
    ensures shelf { KeepsShelf S.held S.faults (answer_of result) shelf.old shelf.new }
{
    match asked.form {
        PictureForm::Graph => drawn(alloc, asked, wanted, None),
        PictureForm::GraphWith(file) => explained(alloc, shelf, asked, wanted, file),
        PictureForm::Rules => drawn(alloc, asked, wanted, None),
        PictureForm::Page => drawn(alloc, asked, wanted, None),
        PictureForm::PageWith(file) => explained(alloc, shelf, asked, wanted, file),
    }
}

/// The picture of a plan, and of the run of the explanation in a file.
fn explained<S: Shelf>(
    alloc: Global,
    shelf: &mut S,
    asked: &PictureWords,
    wanted: &Wanted<'_>,
    file: &str,
) -> Result<Shown, Refusal>
    requires in_task { IsPlanOf (fluent_count wanted.now.task.now)
        (action_count wanted.now.task.now) wanted.now.plan.now }
    ensures answer { let failed = FailedLast S.fetched S.faults shelf.old shelf.new in
        (answer_of result ≡ refused no_memory)
        ⊎ ExplanationThen (S.held shelf.old) failed file.now
        (DrawnOf (picture_words_of asked.now) (problem_value wanted.now.problem.now)
        wanted.now.task.now (plain_of wanted.now.plan.now)) (answer_of result) }
    ensures fetches { Fetches S.fetched (file.now ∷ []) shelf.old shelf.new }
    ensures shelf { KeepsShelf S.held S.faults (answer_of result) shelf.old shelf.new }
{
    let explanation = read_explanation_file(alloc, shelf, file)?;
    drawn(alloc, asked, wanted, Some(&explanation))
}

/// The picture of a plan.
fn drawn(
    alloc: Global,
    asked: &PictureWords,
    wanted: &Wanted<'_>,
    explanation: Option<&Explanation>,
) -> Result<Shown, Refusal>
    requires in_task { IsPlanOf (fluent_count wanted.now.task.now)
        (action_count wanted.now.task.now) wanted.now.plan.now }
    ensures { (answer_of result ≡ refused no_memory)
        ⊎ DrawnOf (picture_words_of asked.now) (problem_value wanted.now.problem.now)
        wanted.now.task.now (plain_of wanted.now.plan.now)
        (option_map (λ some. explanation_value some.now) explanation.entry) (answer_of result) }
{
    match picture_of(alloc, wanted.task, wanted.plan, most_shown(asked.form)) {
        Ok(picture) => {
            if is_blank(&picture) {
                return Err(no_initial(alloc, asked.problem, wanted.problem)?);
            }
            let drawn = DrawnPlan {
                wanted: *wanted,
                picture: &picture,
                explanation,
            };
            shown_picture(alloc, &drawn, asked.form)
        }
        Err(PictureErr::Initial) => Err(Refusal::OverLimit(Limit::Initial)),
        Err(PictureErr::Configurations) => Err(Refusal::OverLimit(Limit::Configurations)),
        Err(PictureErr::Memory) => Err(Refusal::NoMemory),
    }
}

/// A plan with its picture, and perhaps an explanation.
#[derive(Clone, Copy)]
struct DrawnPlan<'a> {
    wanted: Wanted<'a>,
    picture: &'a Picture,
    explanation: Option<&'a Explanation>,
}

/// The text of a picture, unless the plan has no run that the explanation shows, or it is too long.
fn shown_picture(
    alloc: Global,
    drawn: &DrawnPlan<'_>,
    form: PictureForm<'_>,
) -> Result<Shown, Refusal>
    requires in_task { IsPlanOf (fluent_count drawn.now.wanted.task.now)
        (action_count drawn.now.wanted.task.now) drawn.now.wanted.plan.now }
    requires few { length drawn.now.picture.now.nodes.items ≤ 262144 }
    ensures { let task = drawn.now.wanted.task.now in (answer_of result ≡ refused no_memory)
        ⊎ ShowsEdges (form_value form.entry) (fluent_names task) (action_names task)
        (system_of task) (plain_of drawn.now.wanted.plan.now)
        (nodes_of (fluent_count task) drawn.now.picture.now)
        (option_map (λ some. explanation_value some.now) drawn.now.explanation)
        (answer_of result) }
{
    match edges_shown(alloc, drawn)? {
        Some(edges) => with_edges(alloc, drawn, form, &edges),
        None => Err(stray_run(alloc, form)?),
    }
}

/// The edges of the run that the explanation shows, if the plan has it.
fn edges_shown(alloc: Global, drawn: &DrawnPlan<'_>) -> Result<Option<Vec<Edge>>, AllocError>
    ensures { let task = drawn.now.wanted.task.now in IfOk result (λ edges.
        option_map (λ some. map edge_value some.items) edges
        ≡ edges_told (plain_of drawn.now.wanted.plan.now)
        (nodes_of (fluent_count task) drawn.now.picture.now)
        (option_map (λ some. explanation_value some.now) drawn.now.explanation)) }
{
    match drawn.explanation {
        Some(explanation) => edges_of(alloc, drawn, &explanation.shown),
        None => Ok(Some(Vec::new(alloc))),
    }
}

/// The edges of a run, if the plan has it; none of no run.
fn edges_of(
    alloc: Global,
    drawn: &DrawnPlan<'_>,
    shown: &Option<ShownRun>,
) -> Result<Option<Vec<Edge>>, AllocError>
    ensures { let task = drawn.now.wanted.task.now in IfOk result (λ edges.
        option_map (λ some. map edge_value some.items) edges
        ≡ edges_of_shown (plain_of drawn.now.wanted.plan.now)
        (nodes_of (fluent_count task) drawn.now.picture.now)
        (option_map shown_value shown.now)) }
{
    let wanted = &drawn.wanted;
    match shown {
        Some(shown) => run_edges(alloc, wanted.task, wanted.plan, drawn.picture, &shown.run),
        None => Ok(Some(Vec::new(alloc))),
    }
}

/// The refusal of an explanation whose run the plan doesn't have, at the beginning of its file.
fn stray_run(alloc: Global, form: PictureForm<'_>) -> Result<Refusal, AllocError>
    ensures { IfOk result
        (λ refusal. IsStray (file_of_form (form_value form.entry)) (refused (refusal_of refusal))) }
{
    let name = String::from_str(alloc, file_of(form))?;
    Ok(Refusal::TextFault(
        name,
        InputFault {
            kind: FaultKind::BadNumber,
            place: Place { line: 1, column: 1 },
        },
    ))
}

/// The name of the file of the explanation, where there is one.
fn file_of(form: PictureForm<'_>) -> &str
    ensures { result.now ≡ file_of_form (form_value form.entry) }
{
    match form {
        PictureForm::Graph => "",
        PictureForm::GraphWith(file) => file,
        PictureForm::Rules => "",
        PictureForm::Page => "",
        PictureForm::PageWith(file) => file,
    }
}

/// The text of a picture on which a run with these edges is shown, unless it is too long.
fn with_edges(
    alloc: Global,
    drawn: &DrawnPlan<'_>,
    form: PictureForm<'_>,
    edges: &[Edge],
) -> Result<Shown, Refusal>
    requires in_task { IsPlanOf (fluent_count drawn.now.wanted.task.now)
        (action_count drawn.now.wanted.task.now) drawn.now.wanted.plan.now }
    requires few { length drawn.now.picture.now.nodes.items ≤ 262144 }
    ensures { let task = drawn.now.wanted.task.now in (answer_of result ≡ refused no_memory)
        ⊎ ShowsText (form_value form.entry) (fluent_names task) (action_names task)
        (text_of (form_value form.entry) (fluent_names task) (action_names task)
        (system_of task) (plain_of drawn.now.wanted.plan.now)
        (nodes_of (fluent_count task) drawn.now.picture.now)
        (option_map (λ some. explanation_value some.now) drawn.now.explanation)
        (map edge_value edges.now)) (answer_of result) }
{
    match shown_text(alloc, drawn, form, edges) {
        Ok(text) => Ok(Shown::Affirmed(Text::Made(text))),
        Err(TextErr::TooLong) => Err(Refusal::OverLimit(Limit::File)),
        Err(TextErr::Memory) => Err(Refusal::NoMemory),
    }
}

/// How many configurations a picture may show.
fn most_shown(form: PictureForm<'_>) -> u32
    ensures { result ≡ most_for (form_value form.entry) }
{
    match form {
        PictureForm::Graph => MAX_NODES,
        PictureForm::GraphWith(_) => MAX_NODES,
        PictureForm::Rules => MAX_NODES,
        PictureForm::Page => MAX_PAGE_NODES,
        PictureForm::PageWith(_) => MAX_PAGE_NODES,
    }
}

/// The text of a picture in a form, on which a run with these edges is shown, or which is handed an
/// explanation.
fn shown_text(
    alloc: Global,
    drawn: &DrawnPlan<'_>,
    form: PictureForm<'_>,
    edges: &[Edge],
) -> Result<Vec<u8>, TextErr>
    requires in_task { IsPlanOf (fluent_count drawn.now.wanted.task.now)
        (action_count drawn.now.wanted.task.now) drawn.now.wanted.plan.now }
    requires few { length drawn.now.picture.now.nodes.items ≤ 262144 }
    ensures text { let task = drawn.now.wanted.task.now in IfOk result (λ text. text.items
        ≡ text_of (form_value form.entry) (fluent_names task) (action_names task)
        (system_of task) (plain_of drawn.now.wanted.plan.now)
        (nodes_of (fluent_count task) drawn.now.picture.now)
        (option_map (λ some. explanation_value some.now) drawn.now.explanation)
        (map edge_value edges.now)) }
    ensures short { let task = drawn.now.wanted.task.now in IfOk result (λ text.
        IsLongFor (form_value form.entry) (fluent_names task) (action_names task) text.items → ⊥) }
    ensures long { let task = drawn.now.wanted.task.now in IsErrOf result TextErr.TooLong
        → IsLongFor (form_value form.entry) (fluent_names task) (action_names task)
        (text_of (form_value form.entry) (fluent_names task) (action_names task)
        (system_of task) (plain_of drawn.now.wanted.plan.now)
        (nodes_of (fluent_count task) drawn.now.picture.now)
        (option_map (λ some. explanation_value some.now) drawn.now.explanation)
        (map edge_value edges.now)) }
{
    let wanted = &drawn.wanted;
    let picture = drawn.picture;
    match form {
        PictureForm::Graph => dot_text(alloc, wanted.task, wanted.plan, picture, edges),
        PictureForm::GraphWith(_) => dot_text(alloc, wanted.task, wanted.plan, picture, edges),
        PictureForm::Rules => rules_of(alloc, drawn),
        PictureForm::Page => page_of(alloc, drawn),
        PictureForm::PageWith(_) => page_of(alloc, drawn),
    }
}

/// The text of a picture rule by rule, unless it is too long.
fn rules_of(alloc: Global, drawn: &DrawnPlan<'_>) -> Result<Vec<u8>, TextErr>
    requires in_task { IsPlanOf (fluent_count drawn.now.wanted.task.now)
        (action_count drawn.now.wanted.task.now) drawn.now.wanted.plan.now }
    ensures text { let task = drawn.now.wanted.task.now in IfOk result (λ text. text.items
        ≡ text_by_rules (fluent_names task) (action_names task)
        (plain_of drawn.now.wanted.plan.now) (nodes_of (fluent_count task) drawn.now.picture.now)) }
    ensures short { IfOk result (λ text. length text.items ≤ most_in_text) }
    ensures long { let task = drawn.now.wanted.task.now in IsErrOf result TextErr.TooLong
        → most_in_text < length (text_by_rules (fluent_names task) (action_names task)
        (plain_of drawn.now.wanted.plan.now)
        (nodes_of (fluent_count task) drawn.now.picture.now)) }
{
    let wanted = &drawn.wanted;
    let text = rules_text(alloc, wanted.task, wanted.plan, drawn.picture)?;
    unless_long(text)
}

/// The text of a page, unless it is too long.
fn page_of(alloc: Global, drawn: &DrawnPlan<'_>) -> Result<Vec<u8>, TextErr>
    ensures text { let task = drawn.now.wanted.task.now in IfOk result (λ text. text.items
        ≡ page_for (fluent_names task) (action_names task)
        (system_of task) (plain_of drawn.now.wanted.plan.now)
        (nodes_of (fluent_count task) drawn.now.picture.now)
        (option_map (λ some. explanation_value some.now) drawn.now.explanation)) }
    ensures short { IfOk result (λ text. length text.items ≤ most_in_text) }
    ensures long { let task = drawn.now.wanted.task.now in IsErrOf result TextErr.TooLong
        → most_in_text < length (page_for (fluent_names task) (action_names task)
        (system_of task) (plain_of drawn.now.wanted.plan.now)
        (nodes_of (fluent_count task) drawn.now.picture.now)
        (option_map (λ some. explanation_value some.now) drawn.now.explanation)) }
{
    let wanted = &drawn.wanted;
    let text = page_text(
        alloc,
        wanted.task,
        wanted.plan,
        drawn.picture,
        drawn.explanation,
    )?;
    unless_long(text)
}

/// A text, unless it is too long.
fn unless_long(text: Vec<u8>) -> Result<Vec<u8>, TextErr>
    ensures same { IfOk result (λ same. same.items ≡ text.items) }
    ensures short { OnOk result (length text.items ≤ most_in_text) }
    ensures long { IsErrOf result TextErr.TooLong → most_in_text < length text.items }
{
    if text.len() > MAX_TEXT {
        return Err(TextErr::TooLong);
    }
    Ok(text)
}

/// Whether a picture has no nodes.
fn is_blank(picture: &Picture) -> bool
    ensures { IsTrue result ↔ (length picture.now.nodes.items ≡ 0) }
{
    picture.nodes.is_empty()
}
