//! What the words after a subcommand give: operands and options.

ghost use Rattle.pulgazer_top.specs.Scans.{
  after_option as after_it,
  as_file,
  has_value,
  is_equals,
  is_help as is_help_word,
  is_option as is_option_word,
  known as after_known,
  option_said as after_said,
  plain as after_plain,
  read_word as after_read,
  scan_from,
  step as after_step,
  takes_no_value as has_no_value,
  value_of,
  valued as after_valued,
  with_operand as with_one_more,
  with_option as with_said,
  nothing_given,
  reading,
};
ghost use Rattle.pulgazer_top.specs.Values.{given_of, said_of, scan_of};
ghost use Rattle.std.specs.List.{after_first, before_first, position_or_len};
ghost use Rattle.std.specs.Option.{option_map};
ghost use Rattle.std.specs.Prelude.{
  ◌≡◌,
  ◌<◌,
  IfOk,
  MatchOption,
  is_some,
  length,
  map,
  string_bytes,
};

use crate::mistakes::{Mistake, Why};
use crate::table::{CommandOption, option_named};
use std::alloc::{AllocError, Global};

/// An option that was said, and its value.
#[derive(Clone, Copy)]
pub(crate) struct Said<'a> {
    pub(crate) option: &'a str,
    pub(crate) value: &'a str,
}

/// What the words give.
#[derive(Drop)]
pub(crate) struct Given<'a> {
    pub(crate) operands: Vec<&'a str>,
    pub(crate) options: Vec<Said<'a>>,
}

/// How far the words are read.
#[derive(Drop)]
pub(crate) enum Scan<'a> {
    /// Options may follow.
    Reading(Given<'a>),
    /// The next word is the value of this option.
    Awaiting(Given<'a>, &'a str),
    /// All words that follow are operands.
    Closed(Given<'a>),
    /// Help is asked for.
    Helping,
    Mistaken(Mistake<'a>),
}

/// What the words of a subcommand that takes these options give.
pub(crate) fn scan_words<'a>(
    alloc: Global,
    options: &[CommandOption],
    words: &'a [String],
) -> Result<Scan<'a>, AllocError>
    ensures { IfOk result (λ scan. scan_of scan
        ≡ scan_from options.now (reading nothing_given) (map string_bytes words.now)) }
{
    let mut scan = Scan::Reading(Given {
        operands: Vec::new(alloc),
        options: Vec::new(alloc),
    });
    for word in words {
        scan = step(options, scan, word)?;
    }
    Ok(scan)
}

/// What the words give with one more.
fn step<'a>(
    options: &[CommandOption],
    scan: Scan<'a>,
    word: &'a str,
) -> Result<Scan<'a>, AllocError>
    ensures { IfOk result (λ after. scan_of after ≡ after_step options.now (scan_of scan.entry) word.now) }
{
    match scan {
        Scan::Reading(given) => read_word(options, given, word),
        Scan::Awaiting(given, option) => Ok(Scan::Reading(with_option(given, option, word)?)),
        Scan::Closed(given) => Ok(Scan::Closed(with_operand(given, word)?)),
        Scan::Helping => Ok(Scan::Helping),
        Scan::Mistaken(found) => Ok(Scan::Mistaken(found)),
    }
}

/// What follows a word where options may stand.
fn read_word<'a>(
    options: &[CommandOption],
    given: Given<'a>,
    word: &'a str,
) -> Result<Scan<'a>, AllocError>
    ensures { IfOk result (λ after. scan_of after ≡ after_read options.now (given_of given.entry) word.now) }
{
    if word == "--" {
        return Ok(Scan::Closed(given));
    }
    if is_help(word) {
        return Ok(Scan::Helping);
    }
    if is_option(word) {
        return option_said(options, given, word);
    }
    Ok(Scan::Reading(with_operand(given, word)?))
}

/// What follows a word that is an option.
fn option_said<'a>(
    options: &[CommandOption],
    given: Given<'a>,
    word: &'a str,
) -> Result<Scan<'a>, AllocError>
    ensures { IfOk result (λ after. scan_of after ≡ after_said options.now (given_of given.entry) word.now) }
{
    match split_value(word) {
        Some((name, value)) => after_option(given, option_named(options, name), name, Some(value)),
        None => after_option(given, option_named(options, word), word, None),
    }
}

/// An option's name, and the value that is joined to it.
fn split_value<'a>(word: &'a str) -> Option<(&'a str, &'a str)>
    ensures { MatchOption result (position_or_len is_equals word.now ≡ length word.now)
        (λ x. (position_or_len is_equals word.now < length word.now)
        × (x.0.now ≡ before_first is_equals word.now)
        × (x.1.now ≡ after_first is_equals word.now)) }
{
    word.split_once('=')
}

/// What follows an option of this name.
fn after_option<'a>(
    given: Given<'a>,
    option: Option<CommandOption>,
    name: &'a str,
    joined: Option<&'a str>,
) -> Result<Scan<'a>, AllocError>
    ensures { IfOk result (λ after. scan_of after
        ≡ after_it (given_of given.entry) option name.now (option_map (λ value. value.now) joined.entry)) }
{
    match option {
        None => Ok(Scan::Mistaken(Mistake {
            word: name,
            why: Why::UnknownOption,
        })),
        Some(option) => known(given, option, name, joined),
    }
}

/// What follows an option that is known.
fn known<'a>(
    given: Given<'a>,
    option: CommandOption,
    name: &'a str,
    joined: Option<&'a str>,
) -> Result<Scan<'a>, AllocError>
    ensures { IfOk result (λ after. scan_of after
        ≡ after_known (given_of given.entry) option name.now (option_map (λ value. value.now) joined.entry)) }
{
    if value_said(&given.options, name).is_some() {
        return Ok(Scan::Mistaken(Mistake {
            word: name,
            why: Why::Twice,
        }));
    }
    if takes_no_value(option) {
        return plain(given, name, joined);
    }
    valued(given, name, joined)
}

/// What follows an option that takes a value.
fn valued<'a>(
    given: Given<'a>,
    name: &'a str,
    joined: Option<&'a str>,
) -> Result<Scan<'a>, AllocError>
    ensures { IfOk result (λ after. scan_of after
        ≡ after_valued (given_of given.entry) name.now (option_map (λ value. value.now) joined.entry)) }
{
    match joined {
        None => Ok(Scan::Awaiting(given, name)),
        Some(value) => Ok(Scan::Reading(with_option(given, name, value)?)),
    }
}

/// What follows one that takes none.
fn plain<'a>(
    given: Given<'a>,
    name: &'a str,
    joined: Option<&'a str>,
) -> Result<Scan<'a>, AllocError>
    ensures { IfOk result (λ after. scan_of after
        ≡ after_plain (given_of given.entry) name.now (option_map (λ value. value.now) joined.entry)) }
{
    match joined {
        None => Ok(Scan::Reading(with_option(given, name, "")?)),
        Some(_) => Ok(Scan::Mistaken(Mistake {
            word: name,
            why: Why::NeedlessValue,
        })),
    }
}

fn with_operand<'a>(given: Given<'a>, word: &'a str) -> Result<Given<'a>, AllocError>
    ensures { IfOk result (λ more. given_of more ≡ with_one_more (given_of given.entry) word.now) }
{
    let Given {
        mut operands,
        options,
    } = given;
    operands.push(file_named(word))?;
    Ok(Given { operands, options })
}

fn with_option<'a>(
    given: Given<'a>,
    option: &'a str,
    value: &'a str,
) -> Result<Given<'a>, AllocError>
    ensures { IfOk result (λ more. given_of more
        ≡ with_said (given_of given.entry) option.now value.now) }
{
    let Given {
        operands,
        mut options,
    } = given;
    options.push(Said { option, value })?;
    Ok(Given { operands, options })
}

/// The value that the option of this name has.
pub(crate) fn value_said<'a>(options: &[Said<'a>], option: &str) -> Option<&'a str>
    ensures { option_map (λ value. value.now) result ≡ value_of (map said_of options.now) option.now }
{
    let [said, rest @ ..] = options else {
        return None;
    };
    if said.option == option {
        return Some(said.value);
    }
    value_said(rest, option)
}

/// The file's name that a word stands for.
pub(crate) fn file_named<'a>(word: &'a str) -> &'a str
    ensures { result.now ≡ as_file word.now }
{
    if word == "-" { "/dev/stdin" } else { word }
}

pub(crate) fn is_help(word: &str) -> bool
    ensures { result ≡ is_help_word word.now }
{
    word == "--help" || word == "-h"
}

fn is_option(word: &str) -> bool
    ensures { result ≡ is_option_word word.now }
{
    word.as_bytes().starts_with(b"-") && word != "-"
}

fn takes_no_value(option: CommandOption) -> bool
    ensures { result ≡ has_no_value option }
{
    option.value_name() == ""
}
