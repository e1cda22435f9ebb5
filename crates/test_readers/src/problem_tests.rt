//! What the reader answers to texts with known answers. The expected answers are written by hand
//! from the rules of problem files.

ghost use Rattle.std.specs.Prelude.{◌≡◌, [], ◌∷◌, codes, IfOk};
ghost use Rattle.pddl_ast.specs.Fits.{FitsDomain};
ghost use Rattle.pddl_ast.specs.Values.{domain_value};

use crate::goal_tests::show_temporal;
use pddl_ast::{
    Domain, Formula, GroundAtom, InitialLiteral, Named, Predicate, Problem, Term, always,
};
use pddl_problem::{one_answer, read_problem};
use sexpr_text::{MAX_BYTES, ReadErr, Text};
use std::alloc::{AllocError, Global};
use std::fmt::Write;
use std::test::Fail;

// A predicate with this name that takes so many terms.
fn predicate(alloc: Global, name: &[u8], arity: usize) -> Result<Predicate, AllocError>
    ensures { IfOk result (λ p. p ≡ record { name = name.now; arity = arity }) }
{
    Ok(Predicate {
        name: Text::new(alloc, name)?,
        arity,
    })
}

// The types `object` and `place`.
fn types(alloc: Global) -> Result<Vec<Text>, AllocError>
    ensures { IfOk result (λ v. v.items ≡ codes "object" ∷ codes "place" ∷ []) }
{
    let mut types = Vec::new(alloc);
    types.push(Text::new(alloc, b"object")?)?;
    types.push(Text::new(alloc, b"place")?)?;
    Ok(types)
}

// Both of them have the parent `object`.
fn parents(alloc: Global) -> Result<Vec<usize>, AllocError>
    ensures { IfOk result (λ v. v.items ≡ 0 ∷ 0 ∷ []) }
{
    let mut parents = Vec::new(alloc);
    parents.push(0)?;
    parents.push(0)?;
    Ok(parents)
}

// The constant `hub` of type `place`.
fn constants(alloc: Global) -> Result<Vec<Named>, AllocError>
    ensures { IfOk result (λ v. v.items ≡ record { name = codes "hub"; type_id = 1 } ∷ []) }
{
    let mut constants = Vec::new(alloc);
    constants.push(Named {
        name: Text::new(alloc, b"hub")?,
        type_id: 1,
    })?;
    Ok(constants)
}

// The predicates `(p)`, `(at ?x)`, `(road ?x ?y)`, and `(af ?x)`, which has the name of an operator.
fn predicates(alloc: Global) -> Result<Vec<Predicate>, AllocError>
    ensures { IfOk result (λ v. v.items ≡ record { name = codes "p"; arity = 0 }
        ∷ record { name = codes "at"; arity = 1 }
        ∷ record { name = codes "road"; arity = 2 }
        ∷ record { name = codes "af"; arity = 1 } ∷ []) }
{
    let mut predicates = Vec::new(alloc);
    predicates.push(predicate(alloc, b"p", 0)?)?;
    predicates.push(predicate(alloc, b"at", 1)?)?;
    predicates.push(predicate(alloc, b"road", 2)?)?;
    predicates.push(predicate(alloc, b"af", 1)?)?;
    Ok(predicates)
}

// The domain `d` of these parts, without actions and without an invariant.
pub(crate) fn town(alloc: Global) -> Result<Domain, AllocError>
    ensures { IfOk result (λ d. FitsDomain (domain_value d)) }
{
    let name = Text::new(alloc, b"d")?;
    let type_names = types(alloc)?;
    let parents = parents(alloc)?;
    let constants = constants(alloc)?;
    let predicates = predicates(alloc)?;
    Ok(Domain {
        name,
        type_names,
        parents,
        constants,
        predicates,
        actions: Vec::new(alloc),
        invariant: always(alloc),
    })
}

fn show_text(text: &Text, out: &mut String) -> Result<(), AllocError> {
    for byte in text.as_bytes() {
        out.push(char::from(*byte))?;
    }
    Ok(())
}

// As `1(0 2)`.
fn show_atom(atom: &GroundAtom, out: &mut String) -> Result<(), AllocError> {
    write!(out, "{}(", atom.predicate)?;
    for object in atom.objects.as_slice() {
        write!(out, " {object}")?;
    }
    out.push_str(")")
}

fn show_terms(terms: &[Term], out: &mut String) -> Result<(), AllocError> {
    for term in terms {
        match term {
            Term::Variable(number) => write!(out, " v{number}")?,
            Term::Object(number) => write!(out, " o{number}")?,
        }
    }
    out.push_str(")")
}

fn show_types(types: &[usize], out: &mut String) -> Result<(), AllocError> {
    for number in types {
        write!(out, " {number}")?;
    }
    out.push_str(": ")
}

#[cycle(showing)]
fn show_all(parts: &[Formula], out: &mut String) -> Result<(), AllocError> {
    for part in parts {
        out.push(' ')?;
        show_formula(part, out)?;
    }
    out.push_str(")")
}

#[cycle(showing)]
pub(crate) fn show_formula(formula: &Formula, out: &mut String) -> Result<(), AllocError> {
    match formula {
        Formula::Atom(predicate, terms) => {
            write!(out, "{predicate}(")?;
            show_terms(terms, out)
        }
        Formula::Equal(left, right) => write!(out, "{left:?} = {right:?}"),
        Formula::All(parts) => {
            out.push_str("all(")?;
            show_all(parts, out)
        }
        Formula::Any(parts) => {
            out.push_str("any(")?;
            show_all(parts, out)
        }
        Formula::Not(part) => {
            out.push_str("not ")?;
            show_formula(part, out)
        }
        Formula::Imply(left, right) => {
            show_formula(left, out)?;
            out.push_str(" implies ")?;
            show_formula(right, out)
        }
        Formula::Exists(types, part) => {
            out.push_str("exists")?;
            show_types(types, out)?;
            show_formula(part, out)
        }
        Formula::Forall(types, part) => {
            out.push_str("forall")?;
            show_types(types, out)?;
            show_formula(part, out)
        }
    }
}

fn show_alternative(literals: &[InitialLiteral], out: &mut String) -> Result<(), AllocError> {
    for literal in literals {
        out.push_str(if literal.positive { "+" } else { "-" })?;
        show_atom(&literal.atom, out)?;
    }
    out.push_str("|")
}

// The problem's name, and its place; its objects with the numbers of their types; its facts; the
// alternatives of its uncertain entries; its goal; the place and the tree of its goal in computation
// tree logic, where there is one.
fn show_problem(problem: &Problem, out: &mut String) -> Result<(), AllocError> {
    show_text(&problem.name, out)?;
    let place = problem.place;
    write!(out, " {}:{};", place.line, place.column)?;
    for object in &problem.objects {
        out.push(' ')?;
        show_text(&object.name, out)?;
        write!(out, " {}", object.type_id)?;
    }
    out.push(';')?;
    for fact in &problem.facts {
        out.push(' ')?;
        show_atom(fact, out)?;
    }
    out.push(';')?;
    for entry in &problem.entries {
        out.push_str(" |")?;
        for alternative in entry {
            show_alternative(alternative, out)?;
        }
    }
    out.push_str("; ")?;
    match &problem.goal {
        Some(goal) => show_formula(goal, out)?,
        None => out.push_str("no goal")?,
    }
    show_ctl(problem, out)
}

fn show_ctl(problem: &Problem, out: &mut String) -> Result<(), AllocError> {
    let Some(goal) = &problem.ctl else {
        return Ok(());
    };
    let place = problem.ctl_place;
    write!(out, "; {}:{} ", place.line, place.column)?;
    show_temporal(goal, out)
}

// What the reader answers, as one line.
pub(crate) fn answer(alloc: Global, bytes: &[u8], domain: &Domain) -> Result<String, AllocError>
    requires { FitsDomain (domain_value domain.now) }
{
    let mut out = String::new(alloc);
    if bytes.len() > MAX_BYTES {
        out.push_str("too long")?;
        return Ok(out);
    }
    match read_problem(alloc, bytes, domain) {
        Ok(problem) => show_problem(&problem, &mut out)?,
        Err(ReadErr::Fault(fault)) => {
            let place = fault.place;
            let name = fault.kind.name();
            write!(
                out,
                "{} {name} {}:{}",
                fault.kind.code(),
                place.line,
                place.column
            )?;
        }
        Err(ReadErr::Memory) => out.push_str("out of memory")?,
    }
    Ok(out)
}

// Texts, each with its fault: the kind's number and name, and its place.
static FAULTS: [(&str, &str); 120] = [
    ("(define (problem q) (:goal (p))", "3 OpenAtEnd 1:1"),
    ("(define (problem q) (:goal (p))) )", "2 StrayClose 1:34"),
    ("(define (domain q)) )", "2 StrayClose 1:21"),
    ("(define (problem q) (:goal (\u{1}p)))", "1 BadByte 1:29"),
    ("", "5 NoDefine 1:1"),
    ("(define (domain q) (:goal (p)))", "5 NoDefine 1:1"),
    ("(define (problem) (:goal (p)))", "5 NoDefine 1:1"),
    ("(define (problem ?q) (:goal (p)))", "5 NoDefine 1:1"),
    ("(define problem q (:goal (p)))", "5 NoDefine 1:1"),
    ("(define (problem q r) (:goal (p)))", "5 NoDefine 1:1"),
    ("(problem q)", "5 NoDefine 1:1"),
    ("(define (problem q) x (:goal (p)))", "6 BadForm 1:21"),
    ("(define (problem q) () (:goal (p)))", "6 BadForm 1:21"),
    ("(define (problem q) ((:goal) (p)))", "6 BadForm 1:21"),
    ("(define (problem q) (:goal (p)) (:goal))", "6 BadForm 1:33"),
    ("(define (problem q) (:goal (p) (p)))", "6 BadForm 1:21"),
    (
        "(define (problem q) (:domain) (:goal (p)))",
        "6 BadForm 1:21",
    ),
    (
        "(define (problem q) (:domain d d) (:goal (p)))",
        "6 BadForm 1:21",
    ),
    (
        "(define (problem q) (:domain (d)) (:goal (p)))",
        "6 BadForm 1:21",
    ),
    (
        "(define (problem q) (:domain ?d) (:goal (p)))",
        "6 BadForm 1:21",
    ),
    (
        "(define (problem q) (:domain d) (:domain d) (:goal (p)))",
        "6 BadForm 1:33",
    ),
    (
        "(define (problem q) (:objects a) (:objects b) (:goal (p)))",
        "6 BadForm 1:34",
    ),
    (
        "(define (problem q) (:init) (:init) (:goal (p)))",
        "6 BadForm 1:29",
    ),
    (
        "(define (problem q) (:goal (p)) (:goal (p)))",
        "16 GoalTwice 1:33",
    ),
    (
        "(define (problem q) (:ctl-goal (p)) (:ctl-goal (p)))",
        "16 GoalTwice 1:37",
    ),
    (
        "(define (problem q) (:ctl-goal (p)) (:goal (p)) (:ctl-goal))",
        "6 BadForm 1:49",
    ),
    ("(define (problem q) (:ctl-goal))", "6 BadForm 1:21"),
    ("(define (problem q) (:ctl-goal (p) (p)))", "6 BadForm 1:21"),
    (
        "(define (problem q) (:ctl-goals (af (p))))",
        "13 LeftOut 1:21",
    ),
    (
        "(define (problem q) (:ctl-goal (q)) (:goal (q)))",
        "7 UnknownName 1:45",
    ),
    (
        "(define (problem q) (:ctl-goal (q)) (:goal (p)))",
        "7 UnknownName 1:33",
    ),
    (
        "(define (problem q) (:goal (af (p))) (:ctl-goal (af (p))))",
        "6 BadForm 1:32",
    ),
    (
        "(define (problem q) (:foo) (:objects a a) (:goal (p)))",
        "13 LeftOut 1:21",
    ),
    (
        "(define (problem q) (:objects a a) (:foo) (:goal (p)))",
        "13 LeftOut 1:36",
    ),
    (
        "(define (problem q) (:domain e) (:objects a a) (:goal (p)))",
        "14 OtherDomain 1:30",
    ),
    (
        "(define (problem q) (:objects a a) (:domain e) (:goal (p)))",
        "14 OtherDomain 1:45",
    ),
    (
        "(define (problem q) (:objects a a) (:init (q)) (:goal (p)))",
        "8 DoubleName 1:33",
    ),
    (
        "(define (problem q) (:init (q)) (:objects a b hub) (:goal (p)))",
        "8 DoubleName 1:47",
    ),
    (
        "(define (problem q) (:objects a - foo) (:goal (p)))",
        "7 UnknownName 1:35",
    ),
    (
        "(define (problem q) (:objects a -) (:goal (p)))",
        "6 BadForm 1:33",
    ),
    (
        "(define (problem q) (:objects - place) (:goal (p)))",
        "6 BadForm 1:31",
    ),
    (
        "(define (problem q) (:objects a - (foo)) (:goal (p)))",
        "6 BadForm 1:35",
    ),
    (
        "(define (problem q) (:objects ?a) (:goal (p)))",
        "6 BadForm 1:31",
    ),
    (
        "(define (problem q) (:objects (a)) (:goal (p)))",
        "6 BadForm 1:31",
    ),
    (
        "(define (problem q) (:objects a - place - object) (:goal (p)))",
        "6 BadForm 1:41",
    ),
    (
        "(define (problem q) (:objects a - (either place object)) (:goal (p)))",
        "13 LeftOut 1:35",
    ),
    (
        "(define (problem q) (:init p) (:goal (p)))",
        "6 BadForm 1:28",
    ),
    (
        "(define (problem q) (:init ()) (:goal (p)))",
        "6 BadForm 1:28",
    ),
    (
        "(define (problem q) (:init ((p))) (:goal (p)))",
        "6 BadForm 1:28",
    ),
    (
        "(define (problem q) (:init (not)) (:goal (p)))",
        "6 BadForm 1:28",
    ),
    (
        "(define (problem q) (:init (not (p) (p))) (:goal (p)))",
        "6 BadForm 1:28",
    ),
    (
        "(define (problem q) (:init (not p)) (:goal (p)))",
        "6 BadForm 1:28",
    ),
    (
        "(define (problem q) (:init (not ())) (:goal (p)))",
        "6 BadForm 1:28",
    ),
    (
        "(define (problem q) (:init (not (and))) (:goal (p)))",
        "6 BadForm 1:28",
    ),
    (
        "(define (problem q) (:init (unknown)) (:goal (p)))",
        "6 BadForm 1:28",
    ),
    (
        "(define (problem q) (:init (unknown (not (p)))) (:goal (p)))",
        "6 BadForm 1:28",
    ),
    (
        "(define (problem q) (:init (oneof p)) (:goal (p)))",
        "6 BadForm 1:35",
    ),
    (
        "(define (problem q) (:init (oneof (unknown))) (:goal (p)))",
        "6 BadForm 1:35",
    ),
    (
        "(define (problem q) (:init (oneof (and ()))) (:goal (p)))",
        "6 BadForm 1:40",
    ),
    (
        "(define (problem q) (:init (oneof (and (and (p))))) (:goal (p)))",
        "6 BadForm 1:40",
    ),
    (
        "(define (problem q) (:init (and (p) ())) (:goal (p)))",
        "6 BadForm 1:37",
    ),
    (
        "(define (problem q) (:init (at (hub))) (:goal (p)))",
        "6 BadForm 1:32",
    ),
    (
        "(define (problem q) (:init (oneof)) (:goal (p)))",
        "12 EmptyOneof 1:28",
    ),
    (
        "(define (problem q) (:init (oneof (oneof))) (:goal (p)))",
        "13 LeftOut 1:35",
    ),
    (
        "(define (problem q) (:init (oneof (unknown (p)))) (:goal (p)))",
        "13 LeftOut 1:35",
    ),
    (
        "(define (problem q) (:init (oneof (and (unknown (p))))) (:goal (p)))",
        "13 LeftOut 1:40",
    ),
    (
        "(define (problem q) (:init (or (p))) (:goal (p)))",
        "13 LeftOut 1:28",
    ),
    (
        "(define (problem q) (:init (= hub hub)) (:goal (p)))",
        "13 LeftOut 1:28",
    ),
    (
        "(define (problem q) (:init (imply (p) (p))) (:goal (p)))",
        "13 LeftOut 1:28",
    ),
    (
        "(define (problem q) (:init (exists (?x) (p))) (:goal (p)))",
        "13 LeftOut 1:28",
    ),
    (
        "(define (problem q) (:init (forall (?x) (p))) (:goal (p)))",
        "13 LeftOut 1:28",
    ),
    (
        "(define (problem q) (:init (when (p) (p))) (:goal (p)))",
        "13 LeftOut 1:28",
    ),
    (
        "(define (problem q) (:init (increase (p))) (:goal (p)))",
        "13 LeftOut 1:29",
    ),
    (
        "(define (problem q) (:init (q)) (:goal (p)))",
        "7 UnknownName 1:29",
    ),
    (
        "(define (problem q) (:init (at x)) (:goal (p)))",
        "7 UnknownName 1:32",
    ),
    (
        "(define (problem q) (:init (at ?x)) (:goal (p)))",
        "7 UnknownName 1:32",
    ),
    (
        "(define (problem q) (:init (not (at x))) (:goal (p)))",
        "7 UnknownName 1:37",
    ),
    (
        "(define (problem q) (:init (oneof (p) (at x))) (:goal (p)))",
        "7 UnknownName 1:43",
    ),
    (
        "(define (problem q) (:init (at x) (q)) (:goal (p)))",
        "7 UnknownName 1:32",
    ),
    (
        "(define (problem q) (:init (q) (at x)) (:goal (p)))",
        "7 UnknownName 1:29",
    ),
    (
        "(define (problem q) (:init (unknown (at x))) (:goal (p)))",
        "7 UnknownName 1:41",
    ),
    (
        "(define (problem q) (:init (at)) (:goal (p)))",
        "9 WrongArity 1:28",
    ),
    (
        "(define (problem q) (:init (and (p) (at x x))) (:goal (p)))",
        "9 WrongArity 1:37",
    ),
    (
        "(define (problem q) (:goal (q)) (:init (at x)))",
        "7 UnknownName 1:44",
    ),
    ("(define (problem q) (:goal p))", "6 BadForm 1:28"),
    ("(define (problem q) (:goal (q)))", "7 UnknownName 1:29"),
    ("(define (problem q) (:goal (at ?x)))", "7 UnknownName 1:32"),
    (
        "(define (problem q) (:goal (and (p) (when (p) (p)))))",
        "6 BadForm 1:37",
    ),
    ("(define (problem q) (:goal (oneof (p))))", "6 BadForm 1:28"),
    ("(define (problem q) (:goal (not)))", "6 BadForm 1:28"),
    (
        "(define (problem q) (:goal (exists (?x) (at ?y))))",
        "7 UnknownName 1:45",
    ),
    (
        "(define (problem q) (:goal (exists (?x - foo) (at ?x))))",
        "7 UnknownName 1:42",
    ),
    (
        "(define (problem q) (:metric) (:goal-reward) (:init (and) (and (and (q)))) (:goal (p)))",
        "7 UnknownName 1:70",
    ),
    (
        "(define (problem q) (:init (oneof ()) (oneof)) (:goal (p)))",
        "12 EmptyOneof 1:39",
    ),
    (
        "(define (problem q) (:init (oneof) (p p)) (:goal (p)))",
        "12 EmptyOneof 1:28",
    ),
    (
        "(define (problem q) (:init (p p) (oneof)) (:goal (p)))",
        "9 WrongArity 1:28",
    ),
    (
        "(define (problem q) (:init (oneof (and (p) q))) (:goal (p)))",
        "6 BadForm 1:44",
    ),
    (
        "(define (problem q) (:init (oneof ((p)))) (:goal (p)))",
        "6 BadForm 1:35",
    ),
    (
        "(define (problem q) (:init (oneof (and ((p))))) (:goal (p)))",
        "6 BadForm 1:40",
    ),
    (
        "(define (problem q) (:init (oneof (not p))) (:goal (p)))",
        "6 BadForm 1:35",
    ),
    (
        "(define (problem q) (:init (oneof (and (not ())))) (:goal (p)))",
        "6 BadForm 1:40",
    ),
    (
        "(define (problem q) (:init (oneof (and (or)))) (:goal (p)))",
        "13 LeftOut 1:40",
    ),
    (
        "(define (problem q) (:init (oneof (forall))) (:goal (p)))",
        "13 LeftOut 1:35",
    ),
    (
        "(define (problem q) (:init (oneof (and (not (at))))) (:goal (p)))",
        "9 WrongArity 1:45",
    ),
    (
        "(define (problem q) (:init (unknown (increase))) (:goal (p)))",
        "13 LeftOut 1:38",
    ),
    (
        "(define (problem q) (:objects a hub b b) (:goal (p)))",
        "8 DoubleName 1:33",
    ),
    (
        "(define (problem q) (:objects b b hub) (:goal (p)))",
        "8 DoubleName 1:33",
    ),
    (
        "(define (problem q) (:objects b - foo b) (:goal (p)))",
        "7 UnknownName 1:35",
    ),
    (
        "(define (problem q) (:objects b b - foo) (:goal (p)))",
        "8 DoubleName 1:33",
    ),
    (
        "(define (problem q) (:domain) (:domain e) (:goal (p)))",
        "6 BadForm 1:21",
    ),
    (
        "(define (problem q) (:domain d) (:domain) (:goal (p)))",
        "6 BadForm 1:33",
    ),
    (
        "(define (problem q) (:goal (q)) (:init p))",
        "6 BadForm 1:40",
    ),
    (
        "(define (problem q) (:init (at hub)) (:goal (imply (at) (q))))",
        "9 WrongArity 1:52",
    ),
    (
        "(define (problem q) (:goal (imply (q) (at))))",
        "7 UnknownName 1:36",
    ),
    (
        "(define (problem q) (:goal (exists (?x) (and (exists (?y) (at ?y)) (at ?y)))))",
        "7 UnknownName 1:72",
    ),
    (
        "(define (problem q) (:goal (forall (?x ?y ?X) (p))))",
        "8 DoubleName 1:43",
    ),
    (
        "(define (problem q) (:goal (not (preference a (p)))))",
        "13 LeftOut 1:34",
    ),
    (
        "(define (problem q) (:init (q)) (:objects a a) (:goal (q)))",
        "8 DoubleName 1:45",
    ),
    ("(define (problem q) (:domain d))", "15 GoalMissing 1:1"),
    (
        "(define (domain d)) ; (\n  (define (problem q) (:init))",
        "15 GoalMissing 2:3",
    ),
];

// Texts, each with its tree as `show_problem` shows it.
static TREES: [(&str, &str); 15] = [
    ("(define (problem q) (:goal ()))", "q 1:1;;;; all()"),
    (
        "(DEFINE (Problem Q) (:Domain D) (:Objects A B - Place C) (:Init (At A) (Road A B) (P)) (:Goal (At B)))",
        "q 1:1; a 1 b 1 c 0; 1( 1) 2( 1 2) 0();; 1( o2)",
    ),
    (
        "(define (problem q) (:init (and (unknown (p)) (and (at hub)) (not (p))) (oneof () (p) (not (p)) (and (p) (not (at hub))))) (:goal (p)))",
        "q 1:1;; 1( 0); |+0()|-0()| ||+0()|-0()|+0()-1( 0)|; 0()",
    ),
    (
        "(define (problem q) (:requirements :strips) (:requirements :typing) (:metric minimize (x)) (:goal-reward 100) (:init) (:goal (and (p) (or) (not (imply (p) (p))))))",
        "q 1:1;;;; all( 0() any() not 0() implies 0())",
    ),
    (
        "(define (problem q) (:goal (exists (?x - place ?y) (forall (?x) (road ?x ?y)))))",
        "q 1:1;;;; exists 1 0: forall 0: 2( v2 v1)",
    ),
    (
        "; ü (\n(define (domain d) x) (define (problem q) (:goal (= hub a)) (:objects a - object))",
        "q 2:23; a 0;;; Object(0) = Object(1)",
    ),
    (
        "(define (problem q) (:goal (p))) (define (problem r) (:goal))",
        "q 1:1;;;; 0()",
    ),
    // facts may come twice, and a goal may be false
    (
        "(define (problem q) (:init (p) (P) (and (p) (at hub))) (:goal (or)))",
        "q 1:1;; 0() 0() 0() 1( 0);; any()",
    ),
    // objects may have the names of anything but constants and other objects
    (
        "(define (problem problem) (:objects p and define - place object) (:init (at and) (road define object)) (:goal (imply (at p) (p))))",
        "problem 1:1; p 1 and 1 define 1 object 0; 1( 2) 2( 3 4);; 1( o1) implies 0()",
    ),
    // sections in any order
    (
        "(define (problem q) (:goal (at a)) (:metric) (:init (at a)) (:objects a) (:goal-reward x) (:goal-reward) (:DOMAIN D))",
        "q 1:1; a 0; 1( 1);; 1( o1)",
    ),
    // an uncertain entry with one alternative, and one that says nothing
    (
        "(define (problem q) (:init (oneof (and (not (p)) (at hub))) (oneof (and)) (oneof () ())) (:goal (forall () (p))))",
        "q 1:1;;; |-0()+1( 0)| || |||; forall: 0()",
    ),
    (
        "(define (problem q) (:goal (not (at hub))) (:init (and) (and (and)) (not (at hub))))",
        "q 1:1;;;; not 1( o0)",
    ),
    // a predicate with the name of an operator is read in a goal, and the operator in the other
    (
        "(define (problem q) (:ctl-goal (af (p))) (:goal (af hub)))",
        "q 1:1;;;; 3( o0); 1:32 Af [0()]",
    ),
    (
        "(define (problem q)\n (:ctl-goal (af (at a))) (:objects a))",
        "q 1:1; a 0;;; no goal; 2:13 Af [1( o1)]",
    ),
    (
        "(define (problem q) (:goal (p)) (:ctl-goal ()))",
        "q 1:1;;;; 0(); 1:44 [all()]",
    ),
];

#[test]
fn faults_and_their_places(rt: HostRuntime) -> Result<(), Fail> {
    one_answer();
    let domain = town(rt.alloc())?;
    for (text, want) in &FAULTS {
        let got = answer(rt.alloc(), text.as_bytes(), &domain)?;
        assert_eq!(rt; got.as_str(), *want);
    }
    Ok(())
}

#[test]
fn texts_and_their_trees(rt: HostRuntime) -> Result<(), Fail> {
    let domain = town(rt.alloc())?;
    for (text, want) in &TREES {
        let got = answer(rt.alloc(), text.as_bytes(), &domain)?;
        assert_eq!(rt; got.as_str(), *want);
    }
    Ok(())
}
