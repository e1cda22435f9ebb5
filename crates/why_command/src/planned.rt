//! What is said for the answer of `plan`.

ghost use Rattle.std.specs.Prelude.{◌≡◌, ◌⊎◌, ◌++◌, IfOk, OnOk, true};
ghost use Rattle.command_base.specs.Answers.{full, no_memory, refused};
ghost use Rattle.command_base.specs.Grounded.{IsGroundedOf};
ghost use Rattle.command_base.specs.Grounding.{has_goal_for};
ghost use Rattle.command_base.specs.Values.{answer_of, bytes_of, kind_of, plan_words_of};
ghost use Rattle.command_base.specs.Words.{IsNodeLimit, kind_word as word_of_kind, of_class};
ghost use Rattle.pddl_ast.specs.Values.{domain_value, problem_value};
ghost use Rattle.plan_command.specs.PlanCommand.{MayBeTooFew};
ghost use Rattle.why_command.specs.Lines.{files_end, problem_end, question};
ghost use Rattle.why_command.specs.Tried.{HasSaid, HasTried};
ghost use Rattle.why_command.specs.Whys.{
  IsAsPlanned,
  asked_for as words_for,
  exists_line,
  none_line,
  weaker,
};

use command_base::{PlanKind, PlanWords, Refusal, Shown, Text};
use ground_task::Grounded;
use pddl_ast::{Domain, Problem};
use plan_command::plan_grounded;
use plan_rules::{Class, word_of};
use std::alloc::{AllocError, Global};

/// The domain and the problem, and the task that they are grounded to.
#[derive(Clone, Copy)]
pub(crate) struct Read<'a> {
    pub(crate) domain: &'a Domain,
    pub(crate) problem: &'a Problem,
    pub(crate) grounded: &'a Grounded,
}

/// What is said for the answer of `plan`.
pub(crate) fn said_for(alloc: Global, asked: &PlanWords, read: &Read<'_>) -> Result<Shown, Refusal>
    requires room { IsNodeLimit asked.now.options.nodes }
    requires goal { has_goal_for (kind_of asked.now.kind) (problem_value read.now.problem.now)
        ≡ true }
    requires grounded { IsGroundedOf (domain_value read.now.domain.now)
        (problem_value read.now.problem.now) read.now.grounded.now }
    ensures { let asked = plan_words_of asked.now in
        let domain = domain_value read.now.domain.now in
        let problem = problem_value read.now.problem.now in
        (answer_of result ≡ refused no_memory)
        ⊎ (MayBeTooFew asked domain problem
        × (answer_of result ≡ refused (full asked.options.nodes)))
        ⊎ IsAsPlanned asked domain problem (answer_of result) }
{
    match plan_grounded(alloc, asked, read.domain, read.problem, read.grounded) {
        Ok(Shown::Affirmed(_)) => Ok(Shown::Affirmed(exists_text(alloc, asked)?)),
        Ok(Shown::Denied(_)) => Ok(Shown::Denied(none_text(alloc, asked, read)?)),
        Err(refusal) => Err(refusal),
    }
}

/// The line where there is a plan.
fn exists_text(alloc: Global, asked: &PlanWords) -> Result<Text, AllocError>
    ensures { IfOk result (λ text. bytes_of text ≡ exists_line (plan_words_of asked.now)) }
{
    let mut text = Vec::new(alloc);
    push_exists(&mut text, asked)?;
    Ok(Text::Made(text))
}

/// Appends the line where there is a plan.
fn push_exists(text: &mut Vec<u8>, asked: &PlanWords) -> Result<(), AllocError>
    ensures { OnOk result (text.new.items
        ≡ text.old.items ++ exists_line (plan_words_of asked.now)) }
{
    push_question(text, asked.kind)?;
    push_files(text, asked)
}

/// Appends what comes before both files.
fn push_question(text: &mut Vec<u8>, kind: PlanKind) -> Result<(), AllocError>
    ensures { OnOk result (text.new.items ≡ text.old.items ++ question (kind_of kind)) }
{
    text.extend_from_slice(b"a plan exists: mbp plan ")?;
    text.extend_from_slice(kind_word(kind).as_bytes())
}

/// Appends both files, and the end of the line.
fn push_files(text: &mut Vec<u8>, asked: &PlanWords) -> Result<(), AllocError>
    ensures { OnOk result (text.new.items
        ≡ text.old.items ++ files_end (plan_words_of asked.now)) }
{
    text.extend_from_slice(b" ")?;
    text.extend_from_slice(asked.domain.as_bytes())?;
    push_problem(text, asked)
}

/// Appends the problem's file, and the end of the line.
fn push_problem(text: &mut Vec<u8>, asked: &PlanWords) -> Result<(), AllocError>
    ensures { OnOk result (text.new.items
        ≡ text.old.items ++ problem_end (plan_words_of asked.now)) }
{
    text.extend_from_slice(b" ")?;
    text.extend_from_slice(asked.problem.as_bytes())?;
    text.extend_from_slice(b"\n")
}

/// Appends the line where there is none.
fn push_none(text: &mut Vec<u8>, kind: PlanKind) -> Result<(), AllocError>
    ensures { OnOk result (text.new.items ≡ text.old.items ++ none_line (kind_of kind)) }
{
    text.extend_from_slice(b"no ")?;
    text.extend_from_slice(kind_word(kind).as_bytes())?;
    text.extend_from_slice(b" plan\n")
}

/// The word of a kind of plans.
fn kind_word(kind: PlanKind) -> &'static str
    ensures { result.now ≡ word_of_kind (kind_of kind) }
{
    match kind {
        PlanKind::Class(class) => word_of(class),
        PlanKind::Contexts => "ctl",
    }
}

/// The lines where there is none: that, and what there is of weaker classes.
fn none_text(alloc: Global, asked: &PlanWords, read: &Read<'_>) -> Result<Text, AllocError>
    requires room { IsNodeLimit asked.now.options.nodes }
    requires goal { has_goal_for (kind_of asked.now.kind) (problem_value read.now.problem.now)
        ≡ true }
    requires grounded { IsGroundedOf (domain_value read.now.domain.now)
        (problem_value read.now.problem.now) read.now.grounded.now }
    ensures { let asked = plan_words_of asked.now in
        let domain = domain_value read.now.domain.now in
        let problem = problem_value read.now.problem.now in
        IfOk result (λ text. HasSaid asked domain problem (weaker asked.kind)
        (none_line asked.kind) (bytes_of text)) }
{
    let mut text = Vec::new(alloc);
    push_none(&mut text, asked.kind)?;
    push_weaker(alloc, asked, read, &mut text)?;
    Ok(Text::Made(text))
}

/// Appends what there is of weaker classes.
fn push_weaker(
    alloc: Global,
    asked: &PlanWords,
    read: &Read<'_>,
    text: &mut Vec<u8>,
) -> Result<(), AllocError>
    requires room { IsNodeLimit asked.now.options.nodes }
    requires goal { has_goal_for (kind_of asked.now.kind) (problem_value read.now.problem.now)
        ≡ true }
    requires grounded { IsGroundedOf (domain_value read.now.domain.now)
        (problem_value read.now.problem.now) read.now.grounded.now }
    ensures { let asked = plan_words_of asked.now in
        let domain = domain_value read.now.domain.now in
        let problem = problem_value read.now.problem.now in
        OnOk result (HasSaid asked domain problem (weaker asked.kind)
        text.old.items text.new.items) }
{
    match asked.kind {
        PlanKind::Class(class) => push_weaker_than(alloc, asked, read, class, text),
        PlanKind::Contexts => Ok(()),
    }
}

/// Appends what there is of the classes that are weaker than one.
fn push_weaker_than(
    alloc: Global,
    asked: &PlanWords,
    read: &Read<'_>,
    class: Class,
    text: &mut Vec<u8>,
) -> Result<(), AllocError>
    requires room { IsNodeLimit asked.now.options.nodes }
    requires goal { has_goal_for (of_class class) (problem_value read.now.problem.now) ≡ true }
    requires grounded { IsGroundedOf (domain_value read.now.domain.now)
        (problem_value read.now.problem.now) read.now.grounded.now }
    ensures { OnOk result (HasSaid (plan_words_of asked.now) (domain_value read.now.domain.now)
        (problem_value read.now.problem.now) (weaker (of_class class))
        text.old.items text.new.items) }
{
    match class {
        Class::Strong => push_after_strong(alloc, asked, read, text),
        Class::Cyclic => push_weak(alloc, asked, read, text),
        Class::Weak => Ok(()),
    }
}

/// Appends what there is of the classes that are weaker than strong.
fn push_after_strong(
    alloc: Global,
    asked: &PlanWords,
    read: &Read<'_>,
    text: &mut Vec<u8>,
) -> Result<(), AllocError>
    requires room { IsNodeLimit asked.now.options.nodes }
    requires goal { has_goal_for (of_class Class.Weak) (problem_value read.now.problem.now)
        ≡ true }
    requires grounded { IsGroundedOf (domain_value read.now.domain.now)
        (problem_value read.now.problem.now) read.now.grounded.now }
    ensures { OnOk result (HasSaid (plan_words_of asked.now) (domain_value read.now.domain.now)
        (problem_value read.now.problem.now) (weaker (of_class Class.Strong))
        text.old.items text.new.items) }
{
    if push_tried(alloc, asked, read, Class::Cyclic, text)? {
        push_weak(alloc, asked, read, text)?;
    }
    Ok(())
}

/// Appends whether there is a weak plan.
fn push_weak(
    alloc: Global,
    asked: &PlanWords,
    read: &Read<'_>,
    text: &mut Vec<u8>,
) -> Result<(), AllocError>
    requires room { IsNodeLimit asked.now.options.nodes }
    requires goal { has_goal_for (of_class Class.Weak) (problem_value read.now.problem.now)
        ≡ true }
    requires grounded { IsGroundedOf (domain_value read.now.domain.now)
        (problem_value read.now.problem.now) read.now.grounded.now }
    ensures { OnOk result (HasSaid (plan_words_of asked.now) (domain_value read.now.domain.now)
        (problem_value read.now.problem.now) (weaker (of_class Class.Cyclic))
        text.old.items text.new.items) }
{
    push_tried(alloc, asked, read, Class::Weak, text)?;
    Ok(())
}

/// Appends whether there is a plan of the class, if that is known; whether there is none.
fn push_tried(
    alloc: Global,
    asked: &PlanWords,
    read: &Read<'_>,
    class: Class,
    text: &mut Vec<u8>,
) -> Result<bool, AllocError>
    requires room { IsNodeLimit asked.now.options.nodes }
    requires goal { has_goal_for (of_class class) (problem_value read.now.problem.now) ≡ true }
    requires grounded { IsGroundedOf (domain_value read.now.domain.now)
        (problem_value read.now.problem.now) read.now.grounded.now }
    ensures { IfOk result (λ more. HasTried (plan_words_of asked.now)
        (domain_value read.now.domain.now) (problem_value read.now.problem.now) class
        text.old.items text.new.items more) }
{
    let other = asked_for(asked, class);
    match plan_grounded(alloc, &other, read.domain, read.problem, read.grounded) {
        Ok(Shown::Affirmed(_)) => {
            push_exists(text, &other)?;
            Ok(false)
        }
        Ok(Shown::Denied(_)) => {
            push_none(text, other.kind)?;
            Ok(true)
        }
        Err(_) => Ok(false),
    }
}

/// The same question for plans of another class.
fn asked_for<'a>(asked: &PlanWords<'a>, class: Class) -> PlanWords<'a>
    ensures words { plan_words_of result ≡ words_for (plan_words_of asked.now) class }
    ensures nodes { result.options.nodes ≡ asked.now.options.nodes }
    ensures kind { kind_of result.kind ≡ of_class class }
{
    PlanWords {
        kind: PlanKind::Class(class),
        ..*asked
    }
}
