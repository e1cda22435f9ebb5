//! A domain and problems of it in files, and whether each is one: `DOMAIN PROBLEM ..`.
//!
//! There is a line for each file: `FILE: ok`, or `FILE:LINE:COLUMN: CODE NAME` with its first
//! fault, and after it the word where a part of the language is left out. Of a domain with a fault
//! no problem is read.

ghost use Rattle.std.specs.Prelude.{IfOk, IfSome};
ghost use Rattle.pddl_ast.specs.Fits.{FitsDomain};
ghost use Rattle.pddl_ast.specs.Values.{domain_value};

use crate::lines::push_line;
use anyhow::{Result, bail};
use domain_read::read_domain;
use pddl_ast::Domain;
use pddl_problem::read_problem;
use plan_io::{DiskShelf, Shelf};
use sexpr_text::MAX_BYTES;
use std::alloc::Global;
use std::io;

/// Reads the domain in a file, and adds its line. There is none where the text has a fault, or
/// where there is not enough memory to read it.
fn read_domain_file<S: Shelf>(
    alloc: Global,
    shelf: &mut S,
    file: &str,
    lines: &mut String,
) -> Result<Option<Domain>>
    ensures { IfOk result (λ found. IfSome found (λ d. FitsDomain (domain_value d))) }
{
    let text = shelf.fetch(alloc, file, MAX_BYTES)?;
    let read = read_domain(alloc, &text);
    push_line(lines, file, read.as_ref().err())?;
    Ok(read.ok())
}

fn add_problem<S: Shelf>(
    alloc: Global,
    shelf: &mut S,
    file: &str,
    domain: &Domain,
    lines: &mut String,
) -> Result<()>
    requires { FitsDomain (domain_value domain.now) }
{
    let text = shelf.fetch(alloc, file, MAX_BYTES)?;
    let read = read_problem(alloc, &text, domain);
    push_line(lines, file, read.as_ref().err())?;
    Ok(())
}

/// Reads the problems of a domain in some files, and adds their lines.
fn add_problems<S: Shelf>(
    alloc: Global,
    shelf: &mut S,
    files: &[String],
    domain: &Domain,
    lines: &mut String,
) -> Result<()>
    requires { FitsDomain (domain_value domain.now) }
{
    for file in files {
        add_problem(alloc, shelf, file.as_str(), domain, lines)?;
    }
    Ok(())
}

/// The lines of a domain's file, and of the files of its problems where the domain has no fault.
fn lines_of<S: Shelf>(
    alloc: Global,
    shelf: &mut S,
    domain_file: &str,
    problem_files: &[String],
) -> Result<String> {
    let mut lines = String::new(alloc);
    let domain = read_domain_file(alloc, shelf, domain_file, &mut lines)?;
    if let Some(domain) = &domain {
        add_problems(alloc, shelf, problem_files, domain, &mut lines)?;
    }
    Ok(lines)
}

pub(crate) fn report(rt: &HostRuntime, words: &[String]) -> Result<()> {
    let Some((domain_file, problem_files)) = words.split_first() else {
        bail!("use: bench_calls readers DOMAIN [PROBLEM ..]");
    };
    let mut shelf = DiskShelf::new(rt);
    let lines = lines_of(rt.alloc(), &mut shelf, domain_file.as_str(), problem_files)?;
    print!(rt; "{lines}")?;
    Ok(())
}
