//! Texts that spell a domain, each with its tree, which is written by hand from the rules: odd
//! forms among them. A tree is shown in one line: the domain's name; each type with the number of
//! its parent; each constant with the number of its type; each predicate with the number of its
//! terms; each action with the types of its parameters, its precondition and its effect; and the
//! invariant. `?1` is a variable, `#1` a constant.

use crate::domain_tests::{push_refusal, push_text};
use pddl_ast::{Domain, Effect, Formula, Schema, Term};
use pddl_domain::read_domain;
use sexpr_text::MAX_BYTES;
use std::alloc::{AllocError, Global};
use std::fmt::Write;
use std::test::Fail;

fn show_term(term: &Term, out: &mut String) -> Result<(), AllocError> {
    match term {
        Term::Variable(number) => write!(out, " ?{number}"),
        Term::Object(number) => write!(out, " #{number}"),
    }
}

// As `0 ?1 #2`, without the parentheses.
fn show_atom(predicate: usize, terms: &[Term], out: &mut String) -> Result<(), AllocError> {
    write!(out, "{predicate}")?;
    for term in terms {
        show_term(term, out)?;
    }
    Ok(())
}

fn show_types(types: &[usize], out: &mut String) -> Result<(), AllocError> {
    out.push_str("(")?;
    for number in types {
        write!(out, " {number}")?;
    }
    out.push_str(")")
}

#[cycle(formulas)]
fn show_formulas(parts: &[Formula], out: &mut String) -> Result<(), AllocError> {
    for part in parts {
        out.push(' ')?;
        show_formula(part, out)?;
    }
    Ok(())
}

#[cycle(formulas)]
fn show_formula(formula: &Formula, out: &mut String) -> Result<(), AllocError> {
    out.push('(')?;
    match formula {
        Formula::Atom(predicate, terms) => show_atom(*predicate, terms, out)?,
        Formula::Equal(left, right) => {
            out.push('=')?;
            show_term(left, out)?;
            show_term(right, out)?;
        }
        Formula::All(parts) => {
            out.push_str("and")?;
            show_formulas(parts, out)?;
        }
        Formula::Any(parts) => {
            out.push_str("or")?;
            show_formulas(parts, out)?;
        }
        Formula::Not(part) => {
            out.push_str("not ")?;
            show_formula(part, out)?;
        }
        Formula::Imply(left, right) => {
            out.push_str("imply ")?;
            show_formula(left, out)?;
            out.push(' ')?;
            show_formula(right, out)?;
        }
        Formula::Exists(types, part) => {
            out.push_str("exists ")?;
            show_types(types, out)?;
            out.push(' ')?;
            show_formula(part, out)?;
        }
        Formula::Forall(types, part) => {
            out.push_str("forall ")?;
            show_types(types, out)?;
            out.push(' ')?;
            show_formula(part, out)?;
        }
    }
    out.push(')')
}

#[cycle(effects)]
fn show_effects(parts: &[Effect], out: &mut String) -> Result<(), AllocError> {
    for part in parts {
        out.push(' ')?;
        show_effect(part, out)?;
    }
    Ok(())
}

#[cycle(effects)]
fn show_effect(effect: &Effect, out: &mut String) -> Result<(), AllocError> {
    out.push('(')?;
    match effect {
        Effect::Add(predicate, terms) => {
            out.push('+')?;
            show_atom(*predicate, terms, out)?;
        }
        Effect::Delete(predicate, terms) => {
            out.push('-')?;
            show_atom(*predicate, terms, out)?;
        }
        Effect::Both(parts) => {
            out.push_str("and")?;
            show_effects(parts, out)?;
        }
        Effect::OneOf(parts) => {
            out.push_str("oneof")?;
            show_effects(parts, out)?;
        }
        Effect::When(condition, part) => {
            out.push_str("when ")?;
            show_formula(condition, out)?;
            out.push(' ')?;
            show_effect(part, out)?;
        }
        Effect::Each(types, part) => {
            out.push_str("forall ")?;
            show_types(types, out)?;
            out.push(' ')?;
            show_effect(part, out)?;
        }
    }
    out.push(')')
}

fn show_action(action: &Schema, out: &mut String) -> Result<(), AllocError> {
    out.push_str(" [")?;
    push_text(out, &action.name)?;
    out.push(' ')?;
    show_types(&action.parameters, out)?;
    out.push(' ')?;
    show_formula(&action.precondition, out)?;
    out.push(' ')?;
    show_effect(&action.effect, out)?;
    out.push(']')
}

fn show_domain(domain: &Domain, out: &mut String) -> Result<(), AllocError> {
    push_text(out, &domain.name)?;
    out.push(';')?;
    for (name, parent) in domain.type_names.iter().zip(&domain.parents) {
        out.push(' ')?;
        push_text(out, name)?;
        write!(out, "<{parent}")?;
    }
    out.push(';')?;
    for constant in &domain.constants {
        out.push(' ')?;
        push_text(out, &constant.name)?;
        write!(out, ":{}", constant.type_id)?;
    }
    out.push(';')?;
    for predicate in &domain.predicates {
        out.push(' ')?;
        push_text(out, &predicate.name)?;
        write!(out, "/{}", predicate.arity)?;
    }
    out.push(';')?;
    for action in &domain.actions {
        show_action(action, out)?;
    }
    out.push_str("; ")?;
    show_formula(&domain.invariant, out)
}

// What the reader answers, as one line.
fn answer(alloc: Global, bytes: &[u8]) -> Result<String, AllocError> {
    let mut out = String::new(alloc);
    if bytes.len() > MAX_BYTES {
        return Ok(out);
    }
    match read_domain(alloc, bytes) {
        Ok(domain) => show_domain(&domain, &mut out)?,
        Err(refusal) => push_refusal(&mut out, &refusal)?,
    }
    Ok(out)
}

// Texts, each with its tree.
static TREES: [(&str, &str); 24] = [
    ("(define (domain d))", "d; object<0;;;; (and)"),
    // upper case; a parent that isn't on the left becomes a type
    (
        "(DEFINE (DOMAIN D) (:Types B - A) (:CONSTANTS K - B) (:Predicates (P ?X - A ?Y)) (:ACTION Go :Parameters (?X - B) :Precondition (P ?x K) :EFFECT (NOT (p k ?X))))",
        "d; object<0 b<2 a<0; k:1; p/2; [go ( 1) (0 ?0 #0) (-0 #0 ?0)]; (and)",
    ),
    // comments, which may hold parentheses, letters of any script and a definition
    (
        "; \u{1}(ü\u{7f} (define (domain x))\n(define ;)\n (domain d) ; ) ))\n) ; the end",
        "d; object<0;;;; (and)",
    ),
    // requirements are passed over, and the first definition counts
    (
        "() domain (domain c) (define (problem p) (:goal)) (define (domain d) (:requirements :typing :foo (x (y))) (:requirements) (:predicates (p))) (define (domain e) x)",
        "d; object<0;; p/0;; (and)",
    ),
    // `object` on the left, which may come again, and makes no type of its parent
    (
        "(define (domain d) (:types object object - foo a object - b object c))",
        "d; object<0 a<3 c<0 b<0;;;; (and)",
    ),
    // the words of parents may be any but `-`
    (
        "(define (domain d) (:types a - ?x b - :y c - either) (:constants k - ?x l m - either n))",
        "d; object<0 a<4 b<5 c<6 ?x<0 :y<0 either<0; k:4 l:6 m:6 n:0;;; (and)",
    ),
    // a chain of types up to `object`
    (
        "(define (domain d) (:types a - b b - c c - object x y - a))",
        "d; object<0 a<2 b<3 c<0 x<1 y<1;;;; (and)",
    ),
    // names that have a meaning elsewhere; a predicate's variables may be equal
    (
        "(define (domain and) (:types define) (:constants when not - define) (:predicates (increase) (ag ?x ?x - define ?) (1 ?y)) (:action = :effect (increase)))",
        "and; object<0 define<0; when:1 not:1; increase/0 ag/3 1/1; [= () (and) (+0)]; (and)",
    ),
    // sections in any order
    (
        "(define (domain d) (:action a :effect (p k)) (:predicates (p ?x - t)) (:constants k - t) (:requirements) (:types t))",
        "d; object<0 t<0; k:1; p/1; [a () (and) (+0 #0)]; (and)",
    ),
    // as little white space as possible: `a:effect` is a name
    (
        "(define(domain d)(:predicates(p))(:action a:effect)(:action b :effect(p):precondition(p)))",
        "d; object<0;; p/0; [a:effect () (and) (and)] [b () (0) (+0)]; (and)",
    ),
    // `()`, and keys in any order or left out
    (
        "(define (domain d) (:predicates (p)) (:action a :effect () :precondition () :parameters ()) (:action b :precondition (or)) (:action c :parameters (?x)))",
        "d; object<0;; p/0; [a () (and) (and)] [b () (or) (and)] [c ( 0) (and) (and)]; (and)",
    ),
    // connectives
    (
        "(define (domain d) (:constants k) (:predicates (p ?x)) (:action a :parameters (?x) :precondition (and (not (p ?x)) (imply (p k) (or (p ?x) (= ?x k))) ())))",
        "d; object<0; k:0; p/1; [a ( 0) (and (not (0 ?0)) (imply (0 #0) (or (0 ?0) (= ?0 #0))) (and)) (and)]; (and)",
    ),
    // a hidden variable keeps its place
    (
        "(define (domain d) (:predicates (r ?x ?y)) (:action a :parameters (?x ?y) :precondition (exists (?x) (and (r ?x ?y) (forall (?y ?x) (r ?y ?x))))))",
        "d; object<0;; r/2; [a ( 0 0) (exists ( 0) (and (0 ?2 ?1) (forall ( 0 0) (0 ?3 ?4)))) (and)]; (and)",
    ),
    // and means the outer one again after the quantifier
    (
        "(define (domain d) (:types t) (:predicates (r ?x ?y)) (:action a :parameters (?x) :precondition (or (exists (?y ?x - t ?z) (r ?x ?z)) (forall (?z) (r ?x ?z)) (r ?x ?x))))",
        "d; object<0 t<0;; r/2; [a ( 0) (or (exists ( 1 1 0) (0 ?2 ?3)) (forall ( 0) (0 ?0 ?1)) (0 ?0 ?0)) (and)]; (and)",
    ),
    // a quantifier without variables
    (
        "(define (domain d) (:predicates (p)) (:action a :precondition (exists () (forall () (p))) :effect (forall () (p))))",
        "d; object<0;; p/0; [a () (exists () (forall () (0))) (forall () (+0))]; (and)",
    ),
    // `oneof` in `oneof`, with an alternative that does nothing
    (
        "(define (domain d) (:predicates (p) (q)) (:action a :effect (oneof (oneof (p) (q)) (and (p) (oneof (q) ())) (not (q)) (and))))",
        "d; object<0;; p/0 q/0; [a () (and) (oneof (oneof (+0) (+1)) (and (+0) (oneof (+1) (and))) (-1) (and))]; (and)",
    ),
    // `when` in `forall`, which hides a parameter
    (
        "(define (domain d) (:types t) (:predicates (r ?x ?y)) (:action a :parameters (?x ?y) :effect (forall (?x - t) (when (and (r ?x ?y) (not (= ?x ?y))) (and (not (r ?x ?y)) (r ?y ?x))))))",
        "d; object<0 t<0;; r/2; [a ( 0 0) (and) (forall ( 1) (when (and (0 ?2 ?1) (not (= ?2 ?1))) (and (-0 ?2 ?1) (+0 ?1 ?2))))]; (and)",
    ),
    // `forall` in `when` in `oneof`; the parameter again after it
    (
        "(define (domain d) (:predicates (p ?x)) (:action a :parameters (?x) :effect (and (oneof (when () (forall (?x) (when (exists (?x) (p ?x)) (p ?x)))) (not (p ?x))) (p ?x))))",
        "d; object<0;; p/1; [a ( 0) (and) (and (oneof (when (and) (forall ( 0) (when (exists ( 0) (0 ?2)) (+0 ?1)))) (-0 ?0)) (+0 ?0))]; (and)",
    ),
    // an atom that is added and deleted
    (
        "(define (domain adds) (:predicates (p) (q)) (:action w :effect (and (p) (not (p)))) (:action v :effect (when (p) (oneof (q) (and)))))",
        "adds; object<0;; p/0 q/0; [w () (and) (and (+0) (-0))] [v () (and) (when (0) (oneof (+1) (and)))]; (and)",
    ),
    // words of parameters may end anywhere but at white space and parentheses
    (
        "\t(define\r\n(domain\u{b}d)\u{c}(:predicates (p?x ?x - object)) (:action a :parameters (? ?-) :effect (p?x ?-)))",
        "d; object<0;; p?x/1; [a ( 0 0) (and) (+0 ?1)]; (and)",
    ),
    // an invariant, and one that is true of everything
    (
        "(define (domain d) (:predicates (p) (q)) (:invariant (not (and (p) (q)))))",
        "d; object<0;; p/0 q/0;; (not (and (0) (1)))",
    ),
    (
        "(define (domain d) (:invariant ()))",
        "d; object<0;;;; (and)",
    ),
    // before all that it names
    (
        "(define (domain d) (:invariant (forall (?x - t) (imply (at ?x) (= ?x k)))) (:action a) (:predicates (at ?x)) (:constants k - t) (:types t))",
        "d; object<0 t<0; k:1; at/1; [a () (and) (and)]; (forall ( 1) (imply (0 ?0) (= ?0 #0)))",
    ),
    // between actions, and false
    (
        "(define (domain d) (:action a :effect (p)) (:invariant (or)) (:predicates (p)) (:action b))",
        "d; object<0;; p/0; [a () (and) (+0)] [b () (and) (and)]; (or)",
    ),
];

#[test]
fn texts_and_their_trees(rt: HostRuntime) -> Result<(), Fail> {
    for (text, want) in &TREES {
        assert_eq!(rt; answer(rt.alloc(), text.as_bytes())?.as_str(), *want);
    }
    Ok(())
}

// A comment may hold any byte, also one that is no letter of any script.
#[test]
fn comments_hold_any_byte(rt: HostRuntime) -> Result<(), Fail> {
    let text = b"; \xff\x00(\x80\n(define (domain d) ;\xc3\n)";
    assert_eq!(rt; answer(rt.alloc(), text)?.as_str(), "d; object<0;;;; (and)");
    Ok(())
}
