//! What `plain` answers to texts with known answers, which are written by hand from the rules.

use domain_read::plain;
use sexpr_text::{MAX_BYTES, ReadErr};
use std::alloc::{AllocError, Global};
use std::fmt::Write;
use std::test::Fail;

// The plain text, or the fault as `CODE NAME LINE:COLUMN`.
fn answer(alloc: Global, bytes: &[u8]) -> Result<String, AllocError> {
    let mut out = String::new(alloc);
    if bytes.len() > MAX_BYTES {
        return Ok(out);
    }
    match plain(alloc, bytes) {
        Ok(text) => {
            for byte in text.as_slice() {
                out.push(char::from(*byte))?;
            }
        }
        Err(ReadErr::Fault(fault)) => {
            let place = fault.place;
            write!(
                out,
                "{} {} {}:{}",
                fault.kind.code(),
                fault.kind.name(),
                place.line,
                place.column
            )?;
        }
        Err(ReadErr::Memory) => out.push_str("out of memory")?,
    }
    Ok(out)
}

// Whether the effect, in an action of a domain, is answered by this effect or this fault.
fn is_answered(alloc: Global, effect: &str, want: &str) -> Result<bool, AllocError> {
    let mut text = String::new(alloc);
    write!(text, "(define (domain d)\n(:action a\n:effect\n{effect}))")?;
    let mut wanted = String::new(alloc);
    if want.as_bytes().starts_with(b"(") {
        write!(wanted, "(define (domain d)\n(:action a\n:effect\n{want}))")?;
    } else {
        write!(wanted, "{want}")?;
    }
    Ok(answer(alloc, text.as_bytes())?.as_str() == wanted.as_str())
}

static EFFECTS: [(&str, &str); 36] = [
    ("(up)", "(up)"),
    ("(probabilistic 0.5 (up))", "(oneof ()          (up))"),
    ("(probabilistic 1.0 (up))", "(oneof             (up))"),
    ("(probabilistic 0.0 (up))", "(oneof ()              )"),
    ("(Probabilistic)", "(oneof ()     )"),
    ("(probabilistic 0.7 (up) 0.4 ())", "25 MassOver 4:1"),
    (
        "(probabilistic 1/3 (up) 2/3 ())",
        "(oneof             (up)     ())",
    ),
    ("(probabilistic x (up))", "24 BadWeight 4:16"),
    ("(probabilistic 1/0 (up))", "24 BadWeight 4:16"),
    ("(probabilistic (up) (up))", "24 BadWeight 4:16"),
    ("(probabilistic 1)", "6 BadForm 4:1"),
    ("(probabilistic x (up) y)", "6 BadForm 4:1"),
    ("(probabilistic 1. (up))", "24 BadWeight 4:16"),
    ("(probabilistic .5 (up))", "24 BadWeight 4:16"),
    ("(probabilistic 1.2/3 (up))", "24 BadWeight 4:16"),
    ("(probabilistic 1/2/3 (up))", "24 BadWeight 4:16"),
    ("(probabilistic 1e0 (up))", "24 BadWeight 4:16"),
    ("(probabilistic -1 (up))", "24 BadWeight 4:16"),
    ("(probabilistic 0000000001 (up))", "24 BadWeight 4:16"),
    (
        "(probabilistic 000000001 (up))",
        "(oneof                   (up))",
    ),
    (
        "(probabilistic 0.10 (up) 0.1 (p) 0.80 (q))",
        "(oneof              (up)     (p)      (q))",
    ),
    (
        "(probabilistic 0 (up ; a (\n b) 1 (down))",
        "(oneof                    \n      (down))",
    ),
    (
        "(probabilistic 0 (probabilistic x) 1 ())",
        "(oneof                               ())",
    ),
    (
        "(probabilistic 1 (probabilistic x ()) 0 ())",
        "24 BadWeight 4:33",
    ),
    (
        "(and (probabilistic 1 (p)) (oneof (probabilistic 1/2 (q))))",
        "(and (oneof           (p)) (oneof (oneof ()          (q))))",
    ),
    (
        "(when (probabilistic 1 (p)) (probabilistic 1 (p)))",
        "(when (probabilistic 1 (p)) (oneof           (p)))",
    ),
    (
        "(forall (?x) (probabilistic 1 (p)) (probabilistic x))",
        "(forall (?x) (oneof           (p)) (probabilistic x))",
    ),
    ("(not (probabilistic x))", "(not (probabilistic x))"),
    (
        "(probabilistic 1/999999999 (p) 1/999999998 (q))",
        "(oneof ()                  (p)             (q))",
    ),
    (
        "(probabilistic 1/999999999 (p) 1/999999998 (q) 1/999999997 (r))",
        "24 BadWeight 4:48",
    ),
    (
        "(probabilistic 0.000000001 (p) 1/999999999 (q))",
        "(oneof ()                  (p)             (q))",
    ),
    (
        "(probabilistic 0.000000001 (p) 1/999999999 (q) 1/7 (r))",
        "24 BadWeight 4:48",
    ),
    ("(probabilistic 999999999.999999999 (p))", "25 MassOver 4:1"),
    (
        "(probabilistic 1/3 (a) 1/3 (b) 1/3 (c))",
        "(oneof             (a)     (b)     (c))",
    ),
    (
        "(probabilistic ; (one\n 1 (a))",
        "(oneof         ; (one\n   (a))",
    ),
    ("(p) :effect (probabilistic x ())", "24 BadWeight 4:28"),
];

// Whether each effect of a table is answered so.
fn are_answered(alloc: Global, table: &[(&str, &str)]) -> Result<bool, AllocError> {
    for (effect, want) in table {
        if !is_answered(alloc, effect, want)? {
            return Ok(false);
        }
    }
    Ok(true)
}

#[test]
fn effects_and_their_answers(rt: HostRuntime) -> Result<(), Fail> {
    assert!(rt; are_answered(rt.alloc(), &EFFECTS)?);
    Ok(())
}

// Whole texts.
static TEXTS: [(&str, &str); 9] = [
    ("(define (domain))", "5 NoDefine 1:1"),
    ("(define (domain d)", "3 OpenAtEnd 1:1"),
    (
        "(define (domain d) (:predicates (probabilistic ?x)) (:action a :effect (probabilistic x)))",
        "(define (domain d) (:predicates (probabilistic ?x)) (:action a :effect (probabilistic x)))",
    ),
    (
        "(define (domain d) (:predicates) (:predicates (probabilistic)) (:action a :effect (probabilistic 1 ())))",
        "(define (domain d) (:predicates) (:predicates (probabilistic)) (:action a :effect (probabilistic 1 ())))",
    ),
    (
        "(define (domain d) (:predicates ((probabilistic))) (:action a :effect (probabilistic 1 ())))",
        "(define (domain d) (:predicates ((probabilistic))) (:action a :effect (oneof           ())))",
    ),
    (
        "(define (domain d) (:action :effect (probabilistic x)))",
        "(define (domain d) (:action :effect (probabilistic x)))",
    ),
    (
        "(define (domain d) (:action a :effect :effect (probabilistic 1 ())))",
        "(define (domain d) (:action a :effect :effect (oneof           ())))",
    ),
    (
        "(define (domain d)) (define (domain e) (:action a :effect (probabilistic x)))",
        "(define (domain d)) (define (domain e) (:action a :effect (probabilistic x)))",
    ),
    (
        "(define (problem d) (:action a :effect (probabilistic x))) (define (domain e) (:action a :effect (probabilistic x ())))",
        "24 BadWeight 1:113",
    ),
];

// Whether each text of a table has this answer.
fn have_answers(alloc: Global, table: &[(&str, &str)]) -> Result<bool, AllocError> {
    for (text, want) in table {
        if answer(alloc, text.as_bytes())?.as_str() != *want {
            return Ok(false);
        }
    }
    Ok(true)
}

#[test]
fn texts_and_their_answers(rt: HostRuntime) -> Result<(), Fail> {
    assert!(rt; have_answers(rt.alloc(), &TEXTS)?);
    Ok(())
}

// A domain with this many `and` around a recognised list.
fn nested(alloc: Global, levels: usize) -> Result<Vec<u8>, AllocError> {
    let mut text = Vec::from_slice(alloc, b"(define (domain d) (:action a :effect ")?;
    for _ in 0..levels {
        text.extend_from_slice(b"(and")?;
    }
    text.extend_from_slice(b"(probabilistic)")?;
    for _ in 0..levels {
        text.push(b')')?;
    }
    text.extend_from_slice(b"))")?;
    Ok(text)
}

#[test]
fn a_list_has_room_for_one_level_more(rt: HostRuntime) -> Result<(), Fail> {
    let alloc = rt.alloc();
    assert!(rt; answer(alloc, &nested(alloc, 196)?)?.as_str().len() > 800);
    assert_eq!(rt;
        answer(alloc, &nested(alloc, 197)?)?.as_str(),
        "4 TooDeep 1:827"
    );
    Ok(())
}

// A domain of so many recognised lists, each in a line of its own.
fn long_domain(alloc: Global, lists: usize) -> Result<Vec<u8>, AllocError> {
    let mut text = Vec::from_slice(alloc, b"(define (domain d) (:action a :effect (and\n")?;
    for _ in 0..lists {
        text.extend_from_slice(b"(probabilistic 0.25 (up a b) 1/4 (not (up a)) 0 ())\n")?;
    }
    text.extend_from_slice(b")))")?;
    Ok(text)
}

// Whether its plain text ends with this line and is as long.
fn ends_plainly(alloc: Global, text: &[u8]) -> bool {
    if text.len() > MAX_BYTES {
        return false;
    }
    match plain(alloc, text) {
        Ok(plain) => {
            plain.len() == text.len()
                && plain.ends_with(b"(oneof ()           (up a b)     (not (up a))     )\n)))")
        }
        Err(_) => false,
    }
}

#[test]
fn long_texts_are_read(rt: HostRuntime) -> Result<(), Fail> {
    let alloc = rt.alloc();
    let text = long_domain(alloc, 20_000)?;
    assert!(rt; ends_plainly(alloc, &text));
    Ok(())
}
