//! What the reader answers to goals in computation tree logic. The expected answers are written by
//! hand from their rules.

use crate::problem_tests::{answer, show_formula, town};
use pddl_ast::Temporal;
use std::alloc::AllocError;
use std::fmt::Write;
use std::test::Fail;

#[cycle(showing)]
fn show_all(parts: &[Temporal], out: &mut String) -> Result<(), AllocError> {
    for part in parts {
        out.push(' ')?;
        show_temporal(part, out)?;
    }
    out.push_str(")")
}

// Each formula in brackets, as `Af all( [0()] Ag [1( o0)])`.
#[cycle(showing)]
pub(crate) fn show_temporal(goal: &Temporal, out: &mut String) -> Result<(), AllocError> {
    match goal {
        Temporal::Plain(formula) => {
            out.push('[')?;
            show_formula(formula, out)?;
            out.push(']')
        }
        Temporal::Not(part) => {
            out.push_str("not ")?;
            show_temporal(part, out)
        }
        Temporal::All(parts) => {
            out.push_str("all(")?;
            show_all(parts, out)
        }
        Temporal::Any(parts) => {
            out.push_str("any(")?;
            show_all(parts, out)
        }
        Temporal::Imply(left, right) => {
            show_temporal(left, out)?;
            out.push_str(" implies ")?;
            show_temporal(right, out)
        }
        Temporal::Unary(operator, part) => {
            write!(out, "{operator:?} ")?;
            show_temporal(part, out)
        }
        Temporal::Binary(operator, left, right) => {
            write!(out, "{operator:?} ")?;
            show_temporal(left, out)?;
            out.push_str(" until ")?;
            show_temporal(right, out)
        }
    }
}

// Goals with their trees.
static GOALS: [(&str, &str); 24] = [
    ("(ax (p))", "Ax [0()]"),
    ("(ex (p))", "Ex [0()]"),
    ("(af (p))", "Af [0()]"),
    ("(ef (p))", "Ef [0()]"),
    ("(ag (p))", "Ag [0()]"),
    ("(eg (p))", "Eg [0()]"),
    ("(au (p) (at hub))", "Au [0()] until [1( o0)]"),
    ("(eu (p) (at hub))", "Eu [0()] until [1( o0)]"),
    ("(aw (p) (at hub))", "Aw [0()] until [1( o0)]"),
    ("(ew (p) (at hub))", "Ew [0()] until [1( o0)]"),
    ("(AF (And (P) (aG (or))))", "Af all( [0()] Ag [any()])"),
    // a part without operators is one formula, and so is a goal
    ("()", "[all()]"),
    ("(at hub)", "[1( o0)]"),
    ("(and (p) (not (p)))", "[all( 0() not 0())]"),
    (
        "(and (p) (or (p)) (af (p)))",
        "all( [0()] [any( 0())] Af [0()])",
    ),
    (
        "(or (af (p)) () (imply (p) (p)))",
        "any( Af [0()] [all()] [0() implies 0()])",
    ),
    ("(not (af (not (p))))", "not Af [not 0()]"),
    (
        "(imply (p) (ef (= hub hub)))",
        "[0()] implies Ef [Object(0) = Object(0)]",
    ),
    ("(imply (not (ex (p))) (p))", "not Ex [0()] implies [0()]"),
    ("(af (af (ag (and (p) (p)))))", "Af Af Ag [all( 0() 0())]"),
    ("(au (ag (p)) (and))", "Au Ag [0()] until [all()]"),
    ("(af (exists (?x) (at ?x)))", "Af [exists 0: 1( v0)]"),
    (
        "(and (forall (?x - place) (at ?x)) (ef (p)))",
        "all( [forall 1: 1( v0)] Ef [0()])",
    ),
    ("(forall (?af) (at ?af))", "[forall 0: 1( v0)]"),
];

// Goals with their faults. Each goal begins at column 32.
static FAULTY: [(&str, &str); 31] = [
    ("p", "6 BadForm 1:32"),
    ("((af (p)))", "6 BadForm 1:32"),
    ("(af)", "6 BadForm 1:32"),
    ("(af (p) (p))", "6 BadForm 1:32"),
    ("(au (p))", "6 BadForm 1:32"),
    ("(ew (p) (p) (p))", "6 BadForm 1:32"),
    ("(not (af (p)) (p))", "6 BadForm 1:32"),
    ("(imply (af (p)))", "6 BadForm 1:32"),
    ("(and (p) (af (p) (q)))", "6 BadForm 1:41"),
    // the operator has the name of a predicate that takes one term
    ("(af hub)", "6 BadForm 1:36"),
    ("(and (p) p (af (p)))", "6 BadForm 1:41"),
    ("(at (af hub))", "6 BadForm 1:36"),
    ("(and (q) (af))", "7 UnknownName 1:38"),
    ("(and (af) (q))", "6 BadForm 1:37"),
    ("(af (q))", "7 UnknownName 1:37"),
    ("(at ?x)", "7 UnknownName 1:36"),
    ("(af (at))", "9 WrongArity 1:36"),
    ("(and (af (p)) (when (p) (p)))", "6 BadForm 1:46"),
    ("(af (preference a (p)))", "13 LeftOut 1:37"),
    ("(exists (?x) (af (at ?x)))", "19 QuantifiedGoal 1:32"),
    (
        "(and (p) (forall (?x) (not (eu (p) (p)))))",
        "19 QuantifiedGoal 1:41",
    ),
    (
        "(ag (exists (?x) (and (at ?x) (ex (p)))))",
        "19 QuantifiedGoal 1:36",
    ),
    // every list in the body counts: one in a term's place, and one in a place of variables
    ("(exists (?x) (at (ax ?x)))", "19 QuantifiedGoal 1:32"),
    ("(exists (?x) (exists (af) (p)))", "19 QuantifiedGoal 1:32"),
    ("(exists (?x ?x) (af (p)))", "19 QuantifiedGoal 1:32"),
    ("(exists ?x (af (p)))", "19 QuantifiedGoal 1:32"),
    // its own list of variables doesn't
    ("(exists (af) (p))", "6 BadForm 1:41"),
    ("(exists (af (?x)) (p))", "6 BadForm 1:41"),
    ("(exists (af (p)))", "6 BadForm 1:32"),
    ("(exists (?x) (af (p)) (p))", "6 BadForm 1:32"),
    ("(exists ?x (p))", "6 BadForm 1:40"),
];

#[test]
fn goals_and_their_trees(rt: HostRuntime) -> Result<(), Fail> {
    let domain = town(rt.alloc())?;
    for (goal, tree) in &GOALS {
        let text = format!(in rt.alloc(); "(define (problem q) (:ctl-goal {goal}))")?;
        let want = format!(in rt.alloc(); "q 1:1;;;; no goal; 1:32 {tree}")?;
        let got = answer(rt.alloc(), text.as_bytes(), &domain)?;
        assert_eq!(rt; got.as_str(), want.as_str());
    }
    Ok(())
}

#[test]
fn goals_and_their_faults(rt: HostRuntime) -> Result<(), Fail> {
    let domain = town(rt.alloc())?;
    for (goal, want) in &FAULTY {
        let text = format!(in rt.alloc(); "(define (problem q) (:ctl-goal {goal}))")?;
        let got = answer(rt.alloc(), text.as_bytes(), &domain)?;
        assert_eq!(rt; got.as_str(), *want);
    }
    Ok(())
}
