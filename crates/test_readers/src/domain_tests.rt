//! What the reader answers to texts with known answers, which are written by hand from the rules. A
//! `^` in a text of the table stands before the form at which the fault is; it is taken out before
//! the text is read.

use pddl_domain::read_domain;
use sexpr_text::{MAX_BYTES, ReadErr, Text};
use std::alloc::{AllocError, Global};
use std::fmt::Write;
use std::process::Abort;
use std::test::Fail;

// The text between these two, without its mark; and the column of the mark in the whole line.
fn marked(
    alloc: Global,
    front: &str,
    part: &str,
    back: &str,
) -> Result<(Vec<u8>, usize), AllocError> {
    let mut text = Vec::from_slice(alloc, front.as_bytes())?;
    let mut column = 0;
    for byte in part.as_bytes() {
        if *byte == b'^' {
            column = text.len() + 1;
        } else {
            text.push(*byte)?;
        }
    }
    text.extend_from_slice(back.as_bytes())?;
    Ok((text, column))
}

pub(crate) fn push_text(out: &mut String, text: &Text) -> Result<(), AllocError> {
    for byte in text.as_bytes() {
        out.push(char::from(*byte))?;
    }
    Ok(())
}

// A refusal, as `CODE NAME WORD LINE:COLUMN`.
pub(crate) fn push_refusal(out: &mut String, refusal: &ReadErr) -> Result<(), AllocError> {
    let ReadErr::Fault(fault) = refusal else {
        return out.push_str("out of memory");
    };
    write!(out, "{} {}", fault.kind.code(), fault.kind.name())?;
    if let Some(word) = fault.kind.word() {
        out.push(' ')?;
        push_text(out, word)?;
    }
    write!(out, " {}:{}", fault.place.line, fault.place.column)
}

// The fault that is answered; of a domain its name.
fn fault_of(alloc: Global, bytes: &[u8]) -> Result<String, AllocError> {
    let mut out = String::new(alloc);
    if bytes.len() > MAX_BYTES {
        return Ok(out);
    }
    match read_domain(alloc, bytes) {
        Ok(domain) => push_text(&mut out, &domain.name)?,
        Err(refusal) => push_refusal(&mut out, &refusal)?,
    }
    Ok(out)
}

// Texts after `(define (domain d) `, each with its fault: the kind's number and name, and its word.
static FAULTS: [(&str, &str); 84] = [
    // sections
    ("^types)", "6 BadForm"),
    ("^())", "6 BadForm"),
    ("^((:types)))", "6 BadForm"),
    ("^(:functions (f)))", "13 LeftOut :functions"),
    ("^(types))", "13 LeftOut types"),
    ("(:types) ^(:types))", "6 BadForm"),
    ("(:constants) (:predicates) ^(:constants))", "6 BadForm"),
    ("(:predicates) (:action a) ^(:predicates))", "6 BadForm"),
    (
        "(:requirements :x) (:requirements) (:types) ^(:TYPES))",
        "6 BadForm",
    ),
    ("(:types a a) ^(:derived (p) (q)))", "13 LeftOut :derived"),
    (
        "^(:durative-action x) (:types a - ))",
        "13 LeftOut :durative-action",
    ),
    // types
    ("(:types ^?a))", "6 BadForm"),
    ("(:types a ^:b))", "6 BadForm"),
    ("(:types a ^(b)))", "6 BadForm"),
    ("(:types ^- a))", "6 BadForm"),
    ("(:types a ^-))", "6 BadForm"),
    ("(:types a ^- - b))", "6 BadForm"),
    ("(:types a - b ^- c))", "6 BadForm"),
    ("(:types a - ^(either b c)))", "13 LeftOut either"),
    ("(:types a - ^(b)))", "6 BadForm"),
    ("(:types a b ^a))", "8 DoubleName"),
    ("(:types a - b ^A - c))", "8 DoubleName"),
    ("(:types object object a ^a object))", "8 DoubleName"),
    ("(:types a ^a (b)))", "8 DoubleName"),
    ("(:types a ^(b) a))", "6 BadForm"),
    // loops of types
    ("(:types ^a - b b - a))", "10 TypeLoop"),
    ("(:types ^a - a))", "10 TypeLoop"),
    ("(:types a - b ^b - c c - b))", "10 TypeLoop"),
    ("(:types z - a x - y ^a - b b - c c - a))", "10 TypeLoop"),
    (
        "(:types object - a a - object x - y ^y - y))",
        "10 TypeLoop",
    ),
    ("(:types c - d d - object ^a b - c2 c2 - a))", "10 TypeLoop"),
    ("(:types a - a ^a))", "8 DoubleName"),
    // constants
    ("(:constants c ^c))", "8 DoubleName"),
    ("(:constants c - ^foo))", "7 UnknownName"),
    (
        "(:types object - foo) (:constants c - ^foo))",
        "7 UnknownName",
    ),
    ("(:constants c - ^foo c))", "7 UnknownName"),
    ("(:constants c ^c - foo))", "8 DoubleName"),
    ("(:constants ^?x))", "6 BadForm"),
    (
        "(:types a - b) (:constants x - b y - a z - ^c))",
        "7 UnknownName",
    ),
    ("(:predicates (p p)) (:constants c ^c))", "8 DoubleName"),
    // predicates
    ("(:predicates ^p))", "6 BadForm"),
    ("(:predicates ^()))", "6 BadForm"),
    ("(:predicates ^((p))))", "6 BadForm"),
    ("(:predicates ^(?p)))", "6 BadForm"),
    ("(:predicates ^(- ?x)))", "6 BadForm"),
    ("(:predicates (^when)))", "11 ReservedName"),
    ("(:predicates (p) (^= ?x ?y)))", "11 ReservedName"),
    ("(:predicates (^unknown) (unknown)))", "11 ReservedName"),
    ("(:predicates (p) (q) (^p ?x)))", "8 DoubleName"),
    ("(:predicates (p ?x - ^foo)))", "7 UnknownName"),
    ("(:predicates (p ?x ?x) (q ?x ^y)))", "6 BadForm"),
    ("(:predicates (p ?x ^- )))", "6 BadForm"),
    (
        "(:predicates (p ?x - ^(either a b)) (p)))",
        "13 LeftOut either",
    ),
    // an action's shape
    ("^(:action))", "6 BadForm"),
    ("(:action ^(a)))", "6 BadForm"),
    ("(:action ^:effect ()))", "6 BadForm"),
    ("(:action a) (:action b) (:action ^a))", "8 DoubleName"),
    ("(:action a ^:effect))", "6 BadForm"),
    ("(:action a :effect () ^:effect ()))", "6 BadForm"),
    (
        "(:action a ^:duration 3 :effect (p)))",
        "13 LeftOut :duration",
    ),
    ("(:action a ^effect ()))", "6 BadForm"),
    ("(:action a ^() :effect))", "6 BadForm"),
    ("(:action a :effect (nope) ^:vars))", "13 LeftOut :vars"),
    // parameters, before the precondition although they stand after it
    ("(:action a :parameters ^?x))", "6 BadForm"),
    ("(:action a :parameters (?x ^?x)))", "8 DoubleName"),
    ("(:action a :parameters (?x - ^t)))", "7 UnknownName"),
    (
        "(:action a :precondition (nope) :parameters (^x)))",
        "6 BadForm",
    ),
    // preconditions
    ("(:action a :precondition ^p))", "6 BadForm"),
    (
        "(:predicates (p)) (:action a :precondition ^(when () (p))))",
        "6 BadForm",
    ),
    (
        "(:predicates (p ?x)) (:action a :precondition (p ^?x)))",
        "7 UnknownName",
    ),
    (
        "(:predicates (p ?x)) (:action a :precondition ^(p)))",
        "9 WrongArity",
    ),
    (
        "(:action a :precondition (^preference x ())))",
        "13 LeftOut preference",
    ),
    (
        "(:action a :effect (nope) :precondition (and () (^p))))",
        "7 UnknownName",
    ),
    (
        "(:action a :precondition (exists (?x ^?x) ())))",
        "8 DoubleName",
    ),
    // effects
    (
        "(:predicates (p)) (:action x :effect ^(oneof)))",
        "12 EmptyOneof",
    ),
    (
        "(:predicates (p)) (:action x :effect ^(p p)))",
        "9 WrongArity",
    ),
    (
        "(:predicates (p)) (:action x :effect ^(or (p))))",
        "6 BadForm",
    ),
    (
        "(:predicates (p)) (:action x :effect ^(not (not (p)))))",
        "6 BadForm",
    ),
    (
        "(:action x :effect (^increase (cost) 1)))",
        "13 LeftOut increase",
    ),
    (
        "(:predicates (p)) (:action x :effect (oneof (p) ^q)))",
        "6 BadForm",
    ),
    // an effect's fault comes before the shape of a later action
    (
        "(:action a :effect (^p)) (:action a :effect))",
        "7 UnknownName",
    ),
    (
        "(:action a :effect ()) (:action ^a :effect (p)))",
        "8 DoubleName",
    ),
    // the pass counts before the place
    ("(:action a :effect (p)) (:constants c ^c))", "8 DoubleName"),
    (
        "(:predicates (p ?x ?x - ^u) (p)) (:action a) (:action a))",
        "7 UnknownName",
    ),
];

// Domains with an invariant, each with its fault.
static INVARIANT_FAULTS: [(&str, &str); 22] = [
    // the section
    ("^(:invariant))", "6 BadForm"),
    ("^(:invariant () ()))", "6 BadForm"),
    ("^(:invariant p (q)))", "6 BadForm"),
    ("(:invariant ()) ^(:invariant ()))", "6 BadForm"),
    (
        "(:invariant ()) (:action a) ^(:INVARIANT (q) (q)))",
        "6 BadForm",
    ),
    ("(:types a a) (:constants c c) ^(:invariant))", "6 BadForm"),
    ("^(:invariants ()))", "13 LeftOut :invariants"),
    // the formula
    ("(:invariant ^p))", "6 BadForm"),
    ("(:predicates (p)) (:invariant ^((p))))", "6 BadForm"),
    ("(:predicates (p)) (:invariant (not ^p)))", "6 BadForm"),
    ("(:invariant ^(oneof ())))", "6 BadForm"),
    ("(:invariant (^increase)))", "13 LeftOut increase"),
    (
        "(:predicates (p)) (:invariant (or (p) (^q))))",
        "7 UnknownName",
    ),
    (
        "(:invariant (p ^?x)) (:predicates (p ?x)))",
        "7 UnknownName",
    ),
    (
        "(:invariant (p ^k)) (:predicates (p ?x)) (:constants c))",
        "7 UnknownName",
    ),
    (
        "(:invariant ^(p k)) (:predicates (p)) (:constants k))",
        "9 WrongArity",
    ),
    (
        "(:types t) (:invariant (forall (?x - t ^?x - u) ())))",
        "8 DoubleName",
    ),
    (
        "(:invariant (exists (?x - ^u) (q))) (:types t))",
        "7 UnknownName",
    ),
    // after the predicates, and before all actions
    (
        "(:invariant (q)) (:predicates (p ?x - ^u)))",
        "7 UnknownName",
    ),
    ("(:action) (:invariant ^q))", "6 BadForm"),
    (
        "(:action a :precondition (q) :effect) (:predicates (p)) (:invariant ^(p p)))",
        "9 WrongArity",
    ),
    (
        "(:invariant (p)) (:action a :effect (^q)) (:predicates (p)))",
        "7 UnknownName",
    ),
];

// What stands before a precondition, and before an effect, in the two tables below.
const BEFORE_PRECONDITION: &str =
    "(define (domain d) (:constants k) (:predicates (p ?x) (z)) (:action a :parameters (?x) :precondition ";

const BEFORE_EFFECT: &str =
    "(define (domain d) (:constants k) (:predicates (p ?x) (z)) (:action a :parameters (?x) :effect ";

// Preconditions, each with its fault.
static FORMULA_FAULTS: [(&str, &str); 50] = [
    // shapes
    ("^z", "6 BadForm"),
    ("^((z))", "6 BadForm"),
    ("^(() z)", "6 BadForm"),
    ("^(not)", "6 BadForm"),
    ("^(not (z) (z))", "6 BadForm"),
    ("^(imply (z))", "6 BadForm"),
    ("^(imply (z) (z) (z))", "6 BadForm"),
    ("^(= ?x)", "6 BadForm"),
    ("^(= ?x k ?x)", "6 BadForm"),
    ("^(exists)", "6 BadForm"),
    ("^(exists (?y))", "6 BadForm"),
    ("^(exists y)", "6 BadForm"),
    ("^(forall (?y) (z) (z))", "6 BadForm"),
    ("(exists ^y (z))", "6 BadForm"),
    ("(exists (?y) ^z)", "6 BadForm"),
    ("^(when (z) (z))", "6 BadForm"),
    ("^(oneof (z))", "6 BadForm"),
    ("(and (z) ^(unknown (z)))", "6 BadForm"),
    // variables of quantifiers
    ("(exists (^y) (z))", "6 BadForm"),
    ("(exists (?y ^-) (z))", "6 BadForm"),
    ("(forall (?y ^?y) (z))", "8 DoubleName"),
    ("(forall (?y ?w ^?Y - t) (z))", "8 DoubleName"),
    ("(exists (?y - ^t) (z))", "7 UnknownName"),
    ("(exists (?y - ^(either a b)) (z))", "13 LeftOut either"),
    // heads
    ("(^< (z) 1)", "13 LeftOut <"),
    ("(not (^>= 1 2))", "13 LeftOut >="),
    ("(^assign)", "13 LeftOut assign"),
    ("(^Scale-Down (z) 2)", "13 LeftOut scale-down"),
    ("(^probabilistic 1 (z))", "13 LeftOut probabilistic"),
    ("(^q)", "7 UnknownName"),
    ("(^?x)", "7 UnknownName"),
    ("(^- z)", "7 UnknownName"),
    // atoms and terms
    ("^(p)", "9 WrongArity"),
    ("^(p ?x ?x)", "9 WrongArity"),
    ("^(p (z) k)", "9 WrongArity"),
    ("(p ^(z))", "6 BadForm"),
    ("(p ^?y)", "7 UnknownName"),
    ("(p ^z)", "7 UnknownName"),
    ("(= ?x ^q)", "7 UnknownName"),
    ("(= ^(k) q)", "6 BadForm"),
    ("(= ^q (k))", "7 UnknownName"),
    // scopes
    ("(and (exists (?y) (p ?y)) (p ^?y))", "7 UnknownName"),
    ("(or (p ^?y) (exists (?y) (p ?y)))", "7 UnknownName"),
    ("(exists (?x ?y) (forall (?x) (= ?x ^?z)))", "7 UnknownName"),
    // two faults, and a fault after odd forms
    ("(imply (and (z) (^q)) (p))", "7 UnknownName"),
    ("(imply ^(p) (q))", "9 WrongArity"),
    ("(exists (?y - ^t) z)", "7 UnknownName"),
    ("(exists (?y) (or ^z (exists (?y - t) (z))))", "6 BadForm"),
    ("(and () (and) (or) (exists () ()) ^(not))", "6 BadForm"),
    ("(forall () (forall (?x ?y) (not ^(p))))", "9 WrongArity"),
];

// Effects, each with its fault.
static EFFECT_FAULTS: [(&str, &str); 46] = [
    // shapes
    ("^z", "6 BadForm"),
    ("^((z))", "6 BadForm"),
    ("^(when)", "6 BadForm"),
    ("^(when (z))", "6 BadForm"),
    ("^(when z)", "6 BadForm"),
    ("^(when (z) (z) (z))", "6 BadForm"),
    ("(when ^z (z))", "6 BadForm"),
    ("(when (z) ^z)", "6 BadForm"),
    ("(when ^(when (z) (z)) (z))", "6 BadForm"),
    ("(when ^(oneof (z)) (z))", "6 BadForm"),
    ("^(forall (?y))", "6 BadForm"),
    ("(forall ^y (z))", "6 BadForm"),
    ("(forall (?y) ^z)", "6 BadForm"),
    ("^(or (z))", "6 BadForm"),
    ("^(imply (z) (z))", "6 BadForm"),
    ("^(exists (?y) (z))", "6 BadForm"),
    ("^(= k k)", "6 BadForm"),
    ("(oneof (z) ^(unknown (z)))", "6 BadForm"),
    // `oneof` without alternatives
    ("(and (oneof (z) ^(oneof)))", "12 EmptyOneof"),
    ("(when (z) ^(oneof))", "12 EmptyOneof"),
    // variables
    ("(forall (?y ^?y) (z))", "8 DoubleName"),
    ("(forall (?y - ^t) (z))", "7 UnknownName"),
    ("(forall (?y - ^(either)) (z))", "13 LeftOut either"),
    // deletions
    ("^(not)", "6 BadForm"),
    ("^(not (z) (z))", "6 BadForm"),
    ("^(not z)", "6 BadForm"),
    ("^(not ())", "6 BadForm"),
    ("^(not ((z)))", "6 BadForm"),
    ("^(not (and (z)))", "6 BadForm"),
    ("^(not (= k k))", "6 BadForm"),
    ("^(not (oneof))", "6 BadForm"),
    ("(not (^q))", "7 UnknownName"),
    ("(not (^increase))", "13 LeftOut increase"),
    ("(not ^(p))", "9 WrongArity"),
    ("(not (p ^?y))", "7 UnknownName"),
    // atoms and scopes
    ("(^q)", "7 UnknownName"),
    ("(^decrease (z) 1)", "13 LeftOut decrease"),
    ("(p ^(k))", "6 BadForm"),
    ("(and (forall (?y) (p ?y)) (p ^?y))", "7 UnknownName"),
    ("(when (exists (?y) (p ?y)) (p ^?y))", "7 UnknownName"),
    // two faults, and a fault after odd forms
    ("(when (^q) (oneof))", "7 UnknownName"),
    ("(oneof (^q) (p))", "7 UnknownName"),
    ("(oneof ^(p) (q))", "9 WrongArity"),
    ("(and ^(oneof) (not))", "12 EmptyOneof"),
    ("(and ^(not) (oneof))", "6 BadForm"),
    (
        "(and () (oneof ()) (oneof (oneof (and))) ^(oneof))",
        "12 EmptyOneof",
    ),
];

// Each part of the table, between the two texts, has the fault that stands beside it, at its mark.
fn check_faults(
    rt: &impl Abort,
    alloc: Global,
    front: &str,
    table: &[(&str, &str)],
    back: &str,
) -> Result<(), Fail> {
    for (part, want) in table {
        let (text, column) = marked(alloc, front, part, back)?;
        let mut wanted = String::new(alloc);
        write!(wanted, "{want} 1:{column}")?;
        assert_eq!(rt; fault_of(alloc, &text)?.as_str(), wanted.as_str());
    }
    Ok(())
}

#[test]
fn faults_stand_where_the_rules_say(rt: HostRuntime) -> Result<(), Fail> {
    let alloc = rt.alloc();
    check_faults(&rt, alloc, "(define (domain d) ", &FAULTS, "")?;
    check_faults(&rt, alloc, "(define (domain d) ", &INVARIANT_FAULTS, "")?;
    check_faults(&rt, alloc, BEFORE_PRECONDITION, &FORMULA_FAULTS, "))")?;
    check_faults(&rt, alloc, BEFORE_EFFECT, &EFFECT_FAULTS, "))")
}

#[test]
fn the_domain_is_the_first_definition(rt: HostRuntime) -> Result<(), Fail> {
    let table: [(&[u8], &str); 12] = [
        (b"", "5 NoDefine 1:1"),
        (b"\n\n (domain d)", "5 NoDefine 1:1"),
        (b"(define)", "5 NoDefine 1:1"),
        (b"(define (domain))", "5 NoDefine 1:1"),
        (b"(define (domain ?d))", "5 NoDefine 1:1"),
        (b"(define (domain d e))", "5 NoDefine 1:1"),
        (b"(define (problem d))", "5 NoDefine 1:1"),
        (
            b"(define domain d) x (DEFINE (Domain D2)) (define (domain e) x)",
            "d2",
        ),
        (b"(define (domain a))\n)", "2 StrayClose 2:1"),
        (b"(define (domain a) (x)\n\xc8)", "1 BadByte 2:1"),
        (b"(define (domain a) x", "3 OpenAtEnd 1:1"),
        (
            b"(define (domain a)\n  (:types a\n    a))",
            "8 DoubleName 3:5",
        ),
    ];
    for (text, want) in table {
        assert_eq!(rt; fault_of(rt.alloc(), text)?.as_str(), want);
    }
    Ok(())
}
