//! What is shown of a verdict and what is told of it.

ghost use Rattle.check_command.specs.CheckCommand.{reason_word as word_of, verdict_answer};
ghost use Rattle.command_base.specs.Values.{bytes_of, shown_of};
ghost use Rattle.explain_command.specs.Explained.{
  shown_answer,
  verdict_words as words_of,
  with_more,
  with_text,
};
ghost use Rattle.counterexamples.specs.Values.{finding_value, source_value};
ghost use Rattle.plan_rules.specs.Plans.{IsPlanOf};
ghost use Rattle.std.specs.Prelude.{◌≡◌, ◌++◌, IfOk, OnOk, codes, decimal, string_bytes, false, true};
ghost use Rattle.task_core.specs.Tasks.{action_count, fluent_count};

use crate::documents::finding_document;
use check_command::show_verdict;
use command_base::{Shown, Text};
use counterexamples::{Finding, Source, finding_text};
use plan_check::{Reason, Verdict};
use plan_rules::push_number;
use std::alloc::{AllocError, Global};

/// What is shown of a verdict and what is told of it: a text, or a JSON document.
pub(crate) fn shown_as(
    alloc: Global,
    json: bool,
    source: &Source<'_>,
    verdict: &Verdict,
    finding: &Finding<'_>,
) -> Result<Shown, AllocError>
    requires { let task = source.now.task.now in
        IsPlanOf (fluent_count task) (action_count task) source.now.plan.now }
    ensures { let n = fluent_count source.now.task.now in IfOk result (λ shown. shown_of shown
        ≡ shown_answer json (source_value source.now) verdict.now (finding_value n finding.now)) }
{
    if json {
        return shown_document(alloc, source, verdict, finding);
    }
    shown_text(alloc, source, verdict, finding)
}

/// The line of a verdict, and the text of what is told after it.
fn shown_text(
    alloc: Global,
    source: &Source<'_>,
    verdict: &Verdict,
    finding: &Finding<'_>,
) -> Result<Shown, AllocError>
    requires { let task = source.now.task.now in
        IsPlanOf (fluent_count task) (action_count task) source.now.plan.now }
    ensures { let n = fluent_count source.now.task.now in IfOk result (λ shown. shown_of shown
        ≡ shown_answer false (source_value source.now) verdict.now (finding_value n finding.now)) }
{
    let more = finding_text(alloc, source, finding)?;
    shown_with(alloc, show_verdict(alloc, verdict)?, &more)
}

/// What is shown, with more text after it.
fn shown_with(alloc: Global, shown: Shown, more: &str) -> Result<Shown, AllocError>
    ensures { IfOk result (λ longer. shown_of longer ≡ with_more (shown_of shown) more.now) }
{
    match shown {
        Shown::Affirmed(text) => Ok(Shown::Affirmed(Text::Made(text_with(alloc, &text, more)?))),
        Shown::Denied(text) => Ok(Shown::Denied(Text::Made(text_with(alloc, &text, more)?))),
    }
}

/// A text, with more after it.
fn text_with(alloc: Global, text: &Text, more: &str) -> Result<Vec<u8>, AllocError>
    ensures { IfOk result (λ longer. longer.items ≡ bytes_of text.now ++ more.now) }
{
    let mut longer = Vec::new(alloc);
    longer.extend_from_slice(text.as_bytes())?;
    longer.extend_from_slice(more.as_bytes())?;
    Ok(longer)
}

/// The document of a verdict and what is told of it.
fn shown_document(
    alloc: Global,
    source: &Source<'_>,
    verdict: &Verdict,
    finding: &Finding<'_>,
) -> Result<Shown, AllocError>
    ensures { let n = fluent_count source.now.task.now in IfOk result (λ shown. shown_of shown
        ≡ shown_answer true (source_value source.now) verdict.now (finding_value n finding.now)) }
{
    let words = verdict_words(alloc, verdict)?;
    let document = finding_document(alloc, source, &words, finding)?;
    Ok(answer_with(verdict, document))
}

/// The answer of a verdict, with this text.
fn answer_with(verdict: &Verdict, text: Vec<u8>) -> Shown
    ensures { shown_of result ≡ with_text (verdict_answer verdict.now) text.items }
{
    match verdict {
        Verdict::Yes { bound: None } => Shown::Affirmed(Text::Made(text)),
        Verdict::Yes { bound: Some(_) } => Shown::Affirmed(Text::Made(text)),
        Verdict::No(_) => Shown::Denied(Text::Made(text)),
    }
}

/// The words of a verdict.
fn verdict_words(alloc: Global, verdict: &Verdict) -> Result<String, AllocError>
    ensures { IfOk result (λ words. string_bytes words ≡ words_of verdict.now) }
{
    let mut words = String::new(alloc);
    push_verdict(&mut words, verdict)?;
    Ok(words)
}

/// Appends the words of a verdict.
fn push_verdict(out: &mut String, verdict: &Verdict) -> Result<(), AllocError>
    ensures { OnOk result (string_bytes out.new ≡ string_bytes out.old ++ words_of verdict.now) }
{
    match verdict {
        Verdict::Yes { bound: None } => out.push_str("yes"),
        Verdict::Yes { bound: Some(bound) } => {
            out.push_str("yes bound ")?;
            push_number(out, *bound)
        }
        Verdict::No(reason) => {
            out.push_str("no ")?;
            out.push_str(reason_word(*reason))
        }
    }
}

/// The word of a reason.
fn reason_word(reason: Reason) -> &'static str
    ensures { result.now ≡ word_of reason }
{
    match reason {
        Reason::Unexecutable => "unexecutable",
        Reason::Stuck => "stuck",
        Reason::Terminal => "terminal",
        Reason::Cycle => "cycle",
        Reason::Unreachable => "unreachable",
        Reason::Formula => "formula",
    }
}
