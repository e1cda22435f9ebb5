//! Reading the domain and the problem out of their files.

ghost use Rattle.command_base.specs.Answers.{no_memory, refused};
ghost use Rattle.command_base.specs.Fetching.{FetchDomain, FetchesBoth, RefusesBoth};
ghost use Rattle.command_base.specs.PddlTexts.{
  HoldBoth,
  IsFaultyDomain,
  IsFaultyProblem,
  SpellsProblemOf,
};
ghost use Rattle.command_base.specs.Reading.{IsFile, IsRefusedFile, file_limit};
ghost use Rattle.command_base.specs.Shelves.{ReadsShelf};
ghost use Rattle.command_base.specs.Values.{refusal_for, refusal_of};
ghost use Rattle.domain_read.specs.Domains.{SpellsDomain};
ghost use Rattle.pddl_ast.specs.Fits.{FitsDomain, FitsProblem};
ghost use Rattle.pddl_ast.specs.Values.{domain_value, problem_value};
ghost use Rattle.pddl_domain.specs.WordNames.{HasWordNames};
ghost use Rattle.pddl_problem.specs.WordNames.{HasWordObjects};
ghost use Rattle.pddl_system.specs.Names.{NamesAreWords};
ghost use Rattle.plan_io.specs.Fetches.{FailedLast, Fetches, FetchesNothing};
ghost use Rattle.std.specs.Prelude.{◌≡◌, ◌≤◌, ◌⊎◌, [], ◌∷◌, IfErr, IfOk, OnOk, length};

use crate::answers::Refusal;
use crate::files::fetch;
use domain_read::read_domain;
use pddl_ast::{Domain, Problem};
use pddl_problem::read_problem;
use pddl_system::read_names_are_words;
use plan_io::Shelf;
use sexpr_text::ReadErr;
use std::alloc::{AllocError, Global};

/// The refusal of the file of this name for what was wrong in reading it.
pub fn misread(alloc: Global, name: &str, error: ReadErr) -> Result<Refusal, AllocError>
    ensures { IfOk result (λ refusal. refusal_of refusal ≡ refusal_for name.now error) }
{
    Ok(match error {
        ReadErr::Fault(fault) => Refusal::TextFault(String::from_str(alloc, name)?, fault),
        ReadErr::Memory => Refusal::NoMemory,
    })
}

/// The domain that a text under this name spells.
pub fn domain_in(alloc: Global, name: &str, text: &[u8]) -> Result<Domain, Refusal>
    requires short { length text.now ≤ file_limit }
    ensures spells { IfOk result (λ d. SpellsDomain text.now (domain_value d)) }
    ensures fits { IfOk result (λ d. FitsDomain (domain_value d)) }
    ensures words { IfOk result (λ d. HasWordNames (domain_value d)) }
    ensures refused { IfErr result (λ refusal. (refusal_of refusal ≡ no_memory)
        ⊎ IsFaultyDomain name.now text.now (refusal_of refusal)) }
{
    match read_domain(alloc, text) {
        Ok(domain) => Ok(domain),
        Err(error) => Err(misread(alloc, name, error)?),
    }
}

/// The problem of a domain that a text under this name spells.
pub fn problem_in(
    alloc: Global,
    name: &str,
    text: &[u8],
    domain: &Domain,
) -> Result<Problem, Refusal>
    requires short { length text.now ≤ file_limit }
    requires fits { FitsDomain (domain_value domain.now) }
    ensures spells { IfOk result
        (λ p. SpellsProblemOf (domain_value domain.now) text.now (problem_value p)) }
    ensures fits { IfOk result (λ p. FitsProblem (domain_value domain.now) (problem_value p)) }
    ensures words { IfOk result (λ p. HasWordObjects (problem_value p)) }
    ensures refused { IfErr result (λ refusal. (refusal_of refusal ≡ no_memory)
        ⊎ IsFaultyProblem (domain_value domain.now) name.now text.now (refusal_of refusal)) }
{
    match read_problem(alloc, text, domain) {
        Ok(problem) => Ok(problem),
        Err(error) => Err(misread(alloc, name, error)?),
    }
}

/// A domain, and the text of the file that spells it.
#[derive(Drop)]
pub struct DomainFile {
    pub domain: Domain,
    pub text: Vec<u8>,
}

/// A domain and a problem of it, and the texts of the files that spell them.
#[derive(Drop)]
pub struct ReadTexts {
    pub file: DomainFile,
    pub problem: Problem,
    pub problem_text: Vec<u8>,
}

/// The domain in a file.
fn read_domain_file<S: Shelf>(
    alloc: Global,
    shelf: &mut S,
    name: &str,
) -> Result<DomainFile, Refusal>
    ensures file { IfOk result (λ file. IsFile (S.held shelf.old) name.now file.text.items) }
    ensures spells { IfOk result
        (λ file. SpellsDomain file.text.items (domain_value file.domain)) }
    ensures fits { IfOk result (λ file. FitsDomain (domain_value file.domain)) }
    ensures words { IfOk result (λ file. HasWordNames (domain_value file.domain)) }
    ensures refused { let failed = FailedLast S.fetched S.faults shelf.old shelf.new in
        IfErr result (λ refusal. (refusal_of refusal ≡ no_memory)
        ⊎ IsRefusedFile (S.held shelf.old) failed IsFaultyDomain name.now (refusal_of refusal)) }
    ensures fetch { S.fetched shelf.old name.now shelf.new }
    ensures shelf { ReadsShelf S.held S.faults result shelf.old shelf.new }
{
    let text = fetch(alloc, shelf, name)?;
    let domain = domain_in(alloc, name, &text)?;
    Ok(DomainFile { domain, text })
}

/// The domain in a file, and the bytes of the file of a problem, which is fetched once the domain
/// was read.
fn fetch_both<S: Shelf>(
    alloc: Global,
    shelf: &mut S,
    domain_name: &str,
    problem_name: &str,
) -> Result<(DomainFile, Vec<u8>), Refusal>
    ensures domain_file { IfOk result (λ both.
        IsFile (S.held shelf.old) domain_name.now both.0.text.items) }
    ensures spells { IfOk result
        (λ both. SpellsDomain both.0.text.items (domain_value both.0.domain)) }
    ensures fits { IfOk result (λ both. FitsDomain (domain_value both.0.domain)) }
    ensures words { IfOk result (λ both. HasWordNames (domain_value both.0.domain)) }
    ensures problem_file { IfOk result (λ both.
        IsFile (S.held shelf.old) problem_name.now both.1.items) }
    ensures refused { let failed = FailedLast S.fetched S.faults shelf.old shelf.new in
        IfErr result (λ refusal. RefusesBoth (S.held shelf.old) failed domain_name.now
        problem_name.now (refused (refusal_of refusal))) }
    ensures stopped { let failed = FailedLast S.fetched S.faults shelf.old shelf.new in
        IfErr result (λ refusal. FetchDomain (S.held shelf.old) failed S.fetched domain_name.now
        (refused (refusal_of refusal)) (Fetches S.fetched (problem_name.now ∷ []))
        shelf.old shelf.new) }
    ensures fetches { FetchesBoth (S.held shelf.old) S.fetched domain_name.now problem_name.now
        FetchesNothing shelf.old shelf.new }
    ensures fetched { OnOk result
        (Fetches S.fetched (domain_name.now ∷ problem_name.now ∷ []) shelf.old shelf.new) }
    ensures shelf { ReadsShelf S.held S.faults result shelf.old shelf.new }
{
    let domain = read_domain_file(alloc, shelf, domain_name)?;
    let bytes = fetch(alloc, shelf, problem_name)?;
    Ok((domain, bytes))
}

/// The domain and the problem of it in two files, with the texts of the files.
pub fn read_texts<S: Shelf>(
    alloc: Global,
    shelf: &mut S,
    domain_name: &str,
    problem_name: &str,
) -> Result<ReadTexts, Refusal>
    ensures domain_file { IfOk result (λ read.
        IsFile (S.held shelf.old) domain_name.now read.file.text.items) }
    ensures domain_spelled { IfOk result
        (λ read. SpellsDomain read.file.text.items (domain_value read.file.domain)) }
    ensures problem_file { IfOk result (λ read.
        IsFile (S.held shelf.old) problem_name.now read.problem_text.items) }
    ensures problem_spelled { IfOk result
        (λ read. SpellsProblemOf (domain_value read.file.domain) read.problem_text.items
        (problem_value read.problem)) }
    ensures fits_domain { IfOk result (λ read. FitsDomain (domain_value read.file.domain)) }
    ensures fits_problem { IfOk result
        (λ read. FitsProblem (domain_value read.file.domain) (problem_value read.problem)) }
    ensures names { IfOk result
        (λ read. NamesAreWords (domain_value read.file.domain) (problem_value read.problem)) }
    ensures refused { let failed = FailedLast S.fetched S.faults shelf.old shelf.new in
        IfErr result (λ refusal. RefusesBoth (S.held shelf.old) failed domain_name.now
        problem_name.now (refused (refusal_of refusal))) }
    ensures stopped { let failed = FailedLast S.fetched S.faults shelf.old shelf.new in
        IfErr result (λ refusal. FetchDomain (S.held shelf.old) failed S.fetched domain_name.now
        (refused (refusal_of refusal)) (Fetches S.fetched (problem_name.now ∷ []))
        shelf.old shelf.new) }
    ensures fetches { FetchesBoth (S.held shelf.old) S.fetched domain_name.now problem_name.now
        FetchesNothing shelf.old shelf.new }
    ensures fetched { OnOk result
        (Fetches S.fetched (domain_name.now ∷ problem_name.now ∷ []) shelf.old shelf.new) }
    ensures shelf { ReadsShelf S.held S.faults result shelf.old shelf.new }
{
    // This does nothing: `names` rests on what it promises.
    read_names_are_words();
    let (file, problem_text) = fetch_both(alloc, shelf, domain_name, problem_name)?;
    let problem = problem_in(alloc, problem_name, &problem_text, &file.domain)?;
    Ok(ReadTexts {
        file,
        problem,
        problem_text,
    })
}

/// The domain and the problem of it in two files.
pub fn read_both<S: Shelf>(
    alloc: Global,
    shelf: &mut S,
    domain_name: &str,
    problem_name: &str,
) -> Result<(Domain, Problem), Refusal>
    ensures holds { IfOk result (λ both. HoldBoth (S.held shelf.old) domain_name.now
        problem_name.now (domain_value both.0) (problem_value both.1)) }
    ensures fits_domain { IfOk result (λ both. FitsDomain (domain_value both.0)) }
    ensures fits_problem { IfOk result
        (λ both. FitsProblem (domain_value both.0) (problem_value both.1)) }
    ensures names { IfOk result
        (λ both. NamesAreWords (domain_value both.0) (problem_value both.1)) }
    ensures refused { let failed = FailedLast S.fetched S.faults shelf.old shelf.new in
        IfErr result (λ refusal. RefusesBoth (S.held shelf.old) failed domain_name.now
        problem_name.now (refused (refusal_of refusal))) }
    ensures stopped { let failed = FailedLast S.fetched S.faults shelf.old shelf.new in
        IfErr result (λ refusal. FetchDomain (S.held shelf.old) failed S.fetched domain_name.now
        (refused (refusal_of refusal)) (Fetches S.fetched (problem_name.now ∷ []))
        shelf.old shelf.new) }
    ensures fetches { FetchesBoth (S.held shelf.old) S.fetched domain_name.now problem_name.now
        FetchesNothing shelf.old shelf.new }
    ensures fetched { OnOk result
        (Fetches S.fetched (domain_name.now ∷ problem_name.now ∷ []) shelf.old shelf.new) }
    ensures shelf { ReadsShelf S.held S.faults result shelf.old shelf.new }
{
    let read = read_texts(alloc, shelf, domain_name, problem_name)?;
    let file = read.file;
    Ok((file.domain, read.problem))
}
