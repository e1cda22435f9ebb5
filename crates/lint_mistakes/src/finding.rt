//! All that is likely a mistake in two files.

ghost use Rattle.lint_mistakes.specs.Mistakes.{AreMistakes, in_domain, vocabulary};
ghost use Rattle.lint_mistakes.specs.Values.{vocabulary_value};
ghost use Rattle.pddl_ast.specs.Values.{domain_value, problem_value};
ghost use Rattle.sexpr_text.specs.Forest.{forest_of};
ghost use Rattle.sexpr_text.specs.Spelling.{Spells};
ghost use Rattle.std.specs.Prelude.{◌≡◌, ◌≤◌, IfOk, length};

use crate::copies::copied_outcomes;
use crate::equal::equal_parameters;
use crate::idle::idle_effects;
use crate::mistakes::Mistake;
use crate::never_true::unmade_predicates;
use crate::rows::{section_named, sections_of};
use crate::uses::unused_predicates;
use crate::vocabulary::Vocabulary;
use crate::wrong_types::{wrong_types_in_domain, wrong_types_in_problem};
use pddl_ast::{Domain, Problem};
use sexpr_text::{Form, MAX_BYTES, ReadErr, read_forms};
use std::alloc::{AllocError, Global};

/// A domain and a problem of it, and the texts that spell them.
#[derive(Clone, Copy)]
pub struct Files<'a> {
    pub domain: &'a Domain,
    pub problem: &'a Problem,
    pub domain_text: &'a [u8],
    pub problem_text: &'a [u8],
}

/// What is likely a mistake in the file of a domain, and in that of a problem.
#[derive(Drop)]
pub struct Mistakes {
    pub in_domain: Vec<Mistake>,
    pub in_problem: Vec<Mistake>,
}

/// What is likely a mistake in two files.
pub fn find_mistakes(alloc: Global, files: &Files<'_>) -> Result<Mistakes, AllocError>
    requires domain_text { length files.now.domain_text.now ≤ MAX_BYTES }
    requires problem_text { length files.now.problem_text.now ≤ MAX_BYTES }
    ensures { IfOk result (λ found. AreMistakes (domain_value files.now.domain.now)
        (problem_value files.now.problem.now) files.now.domain_text.now files.now.problem_text.now
        found.in_domain.items found.in_problem.items) }
{
    let domain_forms = forms_of(alloc, files.domain_text)?;
    let problem_forms = forms_of(alloc, files.problem_text)?;
    find_in_forms(alloc, files, &domain_forms, &problem_forms)
}

/// The forms that a text spells. Where it has a lexical fault, which the text of a domain or a problem
/// never has, this fails too.
pub fn forms_of(alloc: Global, text: &[u8]) -> Result<Vec<Form>, AllocError>
    requires { length text.now ≤ MAX_BYTES }
    ensures { IfOk result (λ forms. Spells text.now forms.items) }
{
    match read_forms(alloc, text) {
        Ok(forms) => Ok(forms),
        Err(ReadErr::Fault(_fault)) => Err(AllocError),
        Err(ReadErr::Memory) => Err(AllocError),
    }
}

/// What is likely a mistake in two files whose texts spell these forms.
fn find_in_forms(
    alloc: Global,
    files: &Files<'_>,
    domain_forms: &[Form],
    problem_forms: &[Form],
) -> Result<Mistakes, AllocError>
    requires domain { Spells files.now.domain_text.now domain_forms.now }
    requires problem { Spells files.now.problem_text.now problem_forms.now }
    ensures { IfOk result (λ found. AreMistakes (domain_value files.now.domain.now)
        (problem_value files.now.problem.now) files.now.domain_text.now files.now.problem_text.now
        found.in_domain.items found.in_problem.items) }
{
    let words = vocabulary_of(alloc, files, domain_forms);
    let in_domain = domain_mistakes(&words, domain_forms, problem_forms)?;
    let in_problem = wrong_types_in_problem(&words, problem_forms)?;
    Ok(Mistakes {
        in_domain,
        in_problem,
    })
}

/// What the words of two files mean.
fn vocabulary_of<'a>(alloc: Global, files: &Files<'a>, domain_forms: &'a [Form]) -> Vocabulary<'a>
    ensures { vocabulary_value result ≡ vocabulary (domain_value files.now.domain.now)
        (problem_value files.now.problem.now) (forest_of domain_forms.now) }
{
    Vocabulary {
        alloc,
        types: files.domain.type_names.as_slice(),
        parents: files.domain.parents.as_slice(),
        constants: files.domain.constants.as_slice(),
        objects: files.problem.objects.as_slice(),
        predicates: section_named(sections_of(domain_forms, b"domain"), b":predicates"),
    }
}

/// What is likely a mistake in the file of a domain, kind by kind.
fn domain_mistakes(
    words: &Vocabulary<'_>,
    domain: &[Form],
    problem: &[Form],
) -> Result<Vec<Mistake>, AllocError>
    ensures { IfOk result (λ found. found.items ≡ in_domain (vocabulary_value words.now)
        (forest_of domain.now) (forest_of problem.now)) }
{
    let mut found = wrong_types_in_domain(words, domain)?;
    found.extend_from_slice(&unused_predicates(words.alloc, domain, problem)?)?;
    found.extend_from_slice(&unmade_predicates(words.alloc, domain, problem)?)?;
    found.extend_from_slice(&copied_outcomes(words.alloc, domain)?)?;
    found.extend_from_slice(&idle_effects(words.alloc, domain)?)?;
    found.extend_from_slice(&equal_parameters(words, domain)?)?;
    Ok(found)
}
