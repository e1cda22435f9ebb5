//! The texts about the command line: help, and what is wrong with words.

ghost use Rattle.pulgazer_top.specs.Help.{
  all_help as help_for_all,
  common_statuses as statuses_of_all,
  help_text as text_of_help,
  hint as text_of_hint,
  known_words as words_known,
  mistake_text as text_of_mistake,
  operand_text,
  option_form as form_of_option,
  option_lines,
  option_text,
  options_in as options_among,
  own_statuses as statuses_of,
  quoted as quoted_word,
  status_lines,
  subcommand_help as help_for,
  subcommand_lines,
  usage_line as line_of_usage,
  usage_of as usage_for,
};
ghost use Rattle.pulgazer_top.specs.Nearest.{nearest};
ghost use Rattle.pulgazer_top.specs.Table.{option_word, subcommand_word};
ghost use Rattle.pulgazer_top.specs.Values.{mistake_of};
ghost use Rattle.std.specs.Option.{option_map};
ghost use Rattle.std.specs.Prelude.{◌≡◌, ◌++◌, IfOk, OnOk, Some, codes, map, string_bytes};

use crate::mistakes::{Mistake, Why};
use crate::nearest::nearest_known;
use crate::table::{CommandOption, Subcommand, all_subcommands, class_names, language_names};
use std::alloc::{AllocError, Global};

/// The help for a subcommand, or for all.
pub(crate) fn help_text(alloc: Global, sub: Option<Subcommand>) -> Result<String, AllocError>
    ensures { IfOk result (λ text. string_bytes text ≡ text_of_help sub) }
{
    match sub {
        None => all_help(alloc, all_subcommands()),
        Some(sub) => subcommand_help(alloc, sub),
    }
}

fn all_help(alloc: Global, subs: &[Subcommand]) -> Result<String, AllocError>
    ensures { IfOk result (λ text. string_bytes text ≡ help_for_all subs.now) }
{
    let mut out = String::new(alloc);
    out.push_str("usage: pulgazer SUBCOMMAND ..")?;
    out.push_str("\n")?;
    push_subcommands(&mut out, subs)?;
    out.push_str(
        "pulgazer SUBCOMMAND --help shows a subcommand's operands, options and exit statuses",
    )?;
    out.push_str("\n")?;
    Ok(out)
}

fn subcommand_help(alloc: Global, sub: Subcommand) -> Result<String, AllocError>
    ensures { IfOk result (λ text. string_bytes text ≡ help_for sub) }
{
    let mut out = String::new(alloc);
    push_usage_line(&mut out, sub)?;
    out.push_str(sub.about())?;
    out.push_str("\n")?;
    push_options(&mut out, sub.options())?;
    push_statuses(&mut out, own_statuses(sub))?;
    push_statuses(&mut out, common_statuses())?;
    Ok(out)
}

/// The lines about a mistake: the word, what is wrong with it, the nearest known word, and the usage line.
pub(crate) fn mistake_text(
    alloc: Global,
    sub: Option<Subcommand>,
    found: &Mistake<'_>,
) -> Result<String, AllocError>
    ensures { IfOk result (λ text. string_bytes text ≡ text_of_mistake sub (mistake_of found.now)) }
{
    let known = known_words(alloc, sub, found.why)?;
    let near = nearest_known(alloc, found.word, None, &known)?;
    let mut out = String::new(alloc);
    out.push_str("pulgazer: ")?;
    push_quoted(&mut out, found.word)?;
    out.push_str(found.why.text())?;
    push_hint(&mut out, near)?;
    out.push_str("\n")?;
    push_usage(&mut out, sub)?;
    Ok(out)
}

fn push_quoted(out: &mut String, word: &str) -> Result<(), AllocError>
    ensures { OnOk result (string_bytes out.new ≡ string_bytes out.old ++ quoted_word word.now) }
{
    if word == "" {
        return Ok(());
    }
    out.push_str("`")?;
    out.push_str(word)?;
    out.push_str("`: ")
}

fn push_hint(out: &mut String, word: Option<&str>) -> Result<(), AllocError>
    ensures { OnOk result (string_bytes out.new
        ≡ string_bytes out.old ++ text_of_hint (option_map (λ text. text.now) word.entry)) }
{
    match word {
        None => Ok(()),
        Some(word) => push_meant(out, word),
    }
}

/// Appends the word that was meant.
fn push_meant(out: &mut String, word: &str) -> Result<(), AllocError>
    ensures { OnOk result (string_bytes out.new ≡ string_bytes out.old ++ text_of_hint (Some word.now)) }
{
    out.push_str(" (did you mean `")?;
    push_closed(out, word)
}

fn push_closed(out: &mut String, word: &str) -> Result<(), AllocError>
    ensures { OnOk result (string_bytes out.new ≡ string_bytes out.old ++ (word.now ++ codes "`?)")) }
{
    out.push_str(word)?;
    out.push_str("`?)")
}

/// The words that a wrong word may have been meant for.
fn known_words(
    alloc: Global,
    sub: Option<Subcommand>,
    why: Why,
) -> Result<Vec<&'static str>, AllocError>
    ensures { IfOk result (λ known. map (λ word. word.now) known.items ≡ words_known sub why) }
{
    match why {
        Why::UnknownSubcommand => subcommand_words(alloc, all_subcommands()),
        Why::UnknownOption => option_words(alloc, options_in(sub)),
        Why::BadClass => Vec::from_slice(alloc, class_names()),
        Why::BadLanguage => Vec::from_slice(alloc, language_names()),
        _ => Ok(Vec::new(alloc)),
    }
}

fn options_in(sub: Option<Subcommand>) -> &'static [CommandOption]
    ensures { result.now ≡ options_among sub }
{
    match sub {
        None => &[],
        Some(sub) => sub.options(),
    }
}

fn subcommand_words(alloc: Global, subs: &[Subcommand]) -> Result<Vec<&'static str>, AllocError>
    ensures { IfOk result (λ words. map (λ word. word.now) words.items ≡ map subcommand_word subs.now) }
{
    let mut words = Vec::new(alloc);
    for sub in subs {
        words.push(sub.word())?;
    }
    Ok(words)
}

fn option_words(alloc: Global, options: &[CommandOption]) -> Result<Vec<&'static str>, AllocError>
    ensures { IfOk result (λ words. map (λ word. word.now) words.items ≡ map option_word options.now) }
{
    let mut words = Vec::new(alloc);
    for option in options {
        words.push(option.word())?;
    }
    Ok(words)
}

/// Appends the usage line of a subcommand, or of all.
fn push_usage(out: &mut String, sub: Option<Subcommand>) -> Result<(), AllocError>
    ensures { OnOk result (string_bytes out.new ≡ string_bytes out.old ++ usage_for sub) }
{
    match sub {
        None => out.push_str("usage: pulgazer SUBCOMMAND .. (pulgazer --help lists them)\n"),
        Some(sub) => push_usage_line(out, sub),
    }
}

fn push_usage_line(out: &mut String, sub: Subcommand) -> Result<(), AllocError>
    ensures { OnOk result (string_bytes out.new ≡ string_bytes out.old ++ line_of_usage sub) }
{
    out.push_str("usage: pulgazer ")?;
    out.push_str(sub.word())?;
    push_operands(out, sub.operands())?;
    push_option_forms(out, sub.options())?;
    out.push_str("\n")
}

fn push_operands(out: &mut String, names: &'static [&'static str]) -> Result<(), AllocError>
    ensures { OnOk result (string_bytes out.new
        ≡ string_bytes out.old ++ operand_text (map (λ name. name.now) names.now)) }
{
    let [name, rest @ ..] = names else {
        return Ok(());
    };
    out.push_str(" ")?;
    out.push_str(name)?;
    push_operands(out, rest)
}

fn push_option_forms(out: &mut String, options: &[CommandOption]) -> Result<(), AllocError>
    ensures { OnOk result (string_bytes out.new ≡ string_bytes out.old ++ option_text options.now) }
{
    let [option, rest @ ..] = options else {
        return Ok(());
    };
    out.push_str(" [")?;
    push_form(out, *option)?;
    out.push_str("]")?;
    push_option_forms(out, rest)
}

/// Appends an option with the name of its value.
fn push_form(out: &mut String, option: CommandOption) -> Result<(), AllocError>
    ensures { OnOk result (string_bytes out.new ≡ string_bytes out.old ++ form_of_option option) }
{
    out.push_str(option.word())?;
    if option.value_name() == "" {
        return Ok(());
    }
    out.push_str(" ")?;
    out.push_str(option.value_name())
}

fn push_options(out: &mut String, options: &[CommandOption]) -> Result<(), AllocError>
    ensures { OnOk result (string_bytes out.new ≡ string_bytes out.old ++ option_lines options.now) }
{
    let [option, rest @ ..] = options else {
        return Ok(());
    };
    out.push_str("  ")?;
    push_form(out, *option)?;
    out.push_str(": ")?;
    out.push_str(option.about())?;
    out.push_str("\n")?;
    push_options(out, rest)
}

fn push_subcommands(out: &mut String, subs: &[Subcommand]) -> Result<(), AllocError>
    ensures { OnOk result (string_bytes out.new ≡ string_bytes out.old ++ subcommand_lines subs.now) }
{
    let [sub, rest @ ..] = subs else {
        return Ok(());
    };
    out.push_str("  ")?;
    out.push_str(sub.word())?;
    out.push_str(": ")?;
    out.push_str(sub.about())?;
    out.push_str("\n")?;
    push_subcommands(out, rest)
}

fn push_statuses(out: &mut String, statuses: &'static [&'static str]) -> Result<(), AllocError>
    ensures { OnOk result (string_bytes out.new
        ≡ string_bytes out.old ++ status_lines (map (λ status. status.now) statuses.now)) }
{
    let [status, rest @ ..] = statuses else {
        return Ok(());
    };
    out.push_str("  status ")?;
    out.push_str(status)?;
    out.push_str("\n")?;
    push_statuses(out, rest)
}

/// The exit statuses that a subcommand has of its own.
fn own_statuses(sub: Subcommand) -> &'static [&'static str]
    ensures { map (λ status. status.now) result.now ≡ statuses_of sub }
{
    match sub {
        Subcommand::Control => &["0: a controller", "1: there is no plan"],
        Subcommand::Check => &["0: yes", "1: no, with a reason"],
        Subcommand::Explain => &["0: yes", "1: no, with a reason"],
        Subcommand::Why => &["0: there is a plan", "1: there is no plan"],
        Subcommand::Lint => &["0: nothing is found", "1: likely mistakes"],
        Subcommand::Trace => &["0: the run", "9: the run, up to where it is refused"],
        Subcommand::Draw => &["0: the picture"],
    }
}

/// The exit statuses that all subcommands have.
fn common_statuses() -> &'static [&'static str]
    ensures { map (λ status. status.now) result.now ≡ statuses_of_all }
{
    &[
        "2: the words are wrong",
        "3: a file has a fault",
        "4: a limit is passed",
        "5: more diagram nodes are needed",
        "6: a file can't be read",
        "7: the output can't be written",
        "8: there is not enough memory",
    ]
}
