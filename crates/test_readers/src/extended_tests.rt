//! What the reader answers to texts with known answers, which are written by hand from the rules.

use domain_read::read_domain;
use pddl_ast::{Effect, Formula};
use sexpr_text::{MAX_BYTES, ReadErr};
use std::alloc::{AllocError, Global};
use std::fmt::Write;
use std::test::Fail;

// How many alternatives an effect has, where it is a choice.
fn alternatives(effect: &Effect) -> usize {
    match effect {
        Effect::OneOf(parts) => parts.len(),
        _ => 0,
    }
}

// What stands for the invariant: nothing where it is true of everything.
fn shown(invariant: &Formula) -> &'static str {
    match invariant {
        Formula::All(_) => "",
        Formula::Not(_) => "not",
        _ => "other",
    }
}

// The alternatives of each action's effect, and the invariant, or the fault as `CODE NAME
// LINE:COLUMN`.
fn answer(alloc: Global, bytes: &[u8]) -> Result<String, AllocError> {
    let mut out = String::new(alloc);
    if bytes.len() > MAX_BYTES {
        return Ok(out);
    }
    match read_domain(alloc, bytes) {
        Ok(domain) => {
            for action in &domain.actions {
                write!(out, "{} ", alternatives(&action.effect))?;
            }
            out.push_str(shown(&domain.invariant))?;
        }
        Err(ReadErr::Fault(fault)) => {
            let place = fault.place;
            write!(
                out,
                "{} {} {}:{}",
                fault.kind.code(),
                fault.kind.name(),
                place.line,
                place.column
            )?;
        }
        Err(ReadErr::Memory) => out.push_str("out of memory")?,
    }
    Ok(out)
}

// Effects, each with its answer.
static EFFECTS: [(&str, &str); 14] = [
    ("(p)", "0 "),
    ("(oneof (p) (q))", "2 "),
    ("(probabilistic 0.5 (p))", "2 "),
    ("(probabilistic 1 (p))", "1 "),
    ("(probabilistic)", "1 "),
    ("(probabilistic 0 (p) 1/2 (q) 0.5 ())", "2 "),
    // in a dropped effect no fault is looked for
    ("(probabilistic 0 (r) 1 (q))", "1 "),
    // weights
    ("(probabilistic 0.7 (p) 0.4 (r))", "25 MassOver 3:1"),
    ("(probabilistic x (r))", "24 BadWeight 3:16"),
    ("(and (r) (probabilistic x))", "6 BadForm 3:10"),
    ("(oneof (oneof) (probabilistic 2 (r)))", "25 MassOver 3:16"),
    // a later fault, at its place in the original
    ("(probabilistic 1/3 (p) 2/3 (r))", "7 UnknownName 3:29"),
    (
        "(probabilistic 0.2 (and (p) (probabilistic 1 (when (q) (oneof)))))",
        "12 EmptyOneof 3:56",
    ),
    // not at an effect's place
    ("(when (probabilistic 1 (p)) (q))", "13 LeftOut 3:8"),
];

// Whether each effect, in an action of a domain, is answered so.
fn are_answered(alloc: Global, table: &[(&str, &str)]) -> Result<bool, AllocError> {
    for (effect, want) in table {
        let mut text = String::new(alloc);
        write!(
            text,
            "(define (domain d) (:predicates (p) (q))\n(:action a :effect\n{effect}))"
        )?;
        if answer(alloc, text.as_bytes())?.as_str() != *want {
            return Ok(false);
        }
    }
    Ok(true)
}

#[test]
fn effects_and_their_answers(rt: HostRuntime) -> Result<(), Fail> {
    assert!(rt; are_answered(rt.alloc(), &EFFECTS)?);
    Ok(())
}

// Whole texts.
static TEXTS: [(&str, &str); 8] = [
    ("", "5 NoDefine 1:1"),
    ("(define (domain d)", "3 OpenAtEnd 1:1"),
    ("(define (domain d))", ""),
    (
        "(define (domain d) (:types a - b b - a) (:action a :effect (probabilistic x ())))",
        "24 BadWeight 1:75",
    ),
    (
        "(define (domain d) (:types a - b b - a) (:action a :effect (probabilistic 1 ())))",
        "10 TypeLoop 1:28",
    ),
    // an invariant; in it nothing is recognised
    (
        "(define (domain d) (:predicates (p)) (:action a :effect (probabilistic 0.5 (p))) (:invariant (not (p))))",
        "2 not",
    ),
    (
        "(define (domain d) (:invariant (probabilistic x ())))",
        "13 LeftOut 1:33",
    ),
    (
        "(define (domain d) (:invariant (q)) (:action a :effect (probabilistic x ())))",
        "24 BadWeight 1:71",
    ),
];

// Whether each text of a table has this answer.
fn have_answers(alloc: Global, table: &[(&str, &str)]) -> Result<bool, AllocError> {
    for (text, want) in table {
        if answer(alloc, text.as_bytes())?.as_str() != *want {
            return Ok(false);
        }
    }
    Ok(true)
}

#[test]
fn texts_and_their_answers(rt: HostRuntime) -> Result<(), Fail> {
    assert!(rt; have_answers(rt.alloc(), &TEXTS)?);
    Ok(())
}
