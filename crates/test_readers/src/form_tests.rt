//! What the reader answers to texts with known answers. The expected answers are written by hand
//! from the rules of the lexis.

use sexpr_text::{
    FaultKind, Form, MAX_BYTES, MAX_DEPTH, ReadErr, Text, first_definition, first_group, numeral,
    read_forms,
};
use std::alloc::{AllocError, Global};
use std::fmt::Write;
use std::test::Fail;

// Each word as `text@line:column+start..end `, each group as `(parts)@line:column+start..end `.
fn show(forms: &[Form], out: &mut String) -> Result<(), AllocError> {
    for form in forms {
        let span = form.span();
        match form {
            Form::Word(_, text) => {
                for byte in text.as_bytes() {
                    out.push(char::from(*byte))?;
                }
            }
            Form::Group(_, parts) => {
                out.push('(')?;
                show(parts, out)?;
                out.push(')')?;
            }
        }
        let place = span.place;
        write!(
            out,
            "@{}:{}+{}..{} ",
            place.line, place.column, span.start, span.end
        )?;
    }
    Ok(())
}

// What the reader answers, as one line.
fn answer(alloc: Global, bytes: &[u8]) -> Result<String, AllocError> {
    let mut out = String::new(alloc);
    if bytes.len() > MAX_BYTES {
        out.push_str("too long")?;
        return Ok(out);
    }
    match read_forms(alloc, bytes) {
        Ok(forms) => show(&forms, &mut out)?,
        Err(ReadErr::Fault(fault)) => {
            let place = fault.place;
            let name = fault.kind.name();
            write!(
                out,
                "{} {name} {}:{}",
                fault.kind.code(),
                place.line,
                place.column
            )?;
        }
        Err(ReadErr::Memory) => out.push_str("out of memory")?,
    }
    Ok(out)
}

#[test]
fn texts_and_their_answers(rt: HostRuntime) {
    let table: [(&[u8], &str); 26] = [
        (b"", ""),
        (b"()", "()@1:1+0..2 "),
        (b"a b", "a@1:1+0..1 b@1:3+2..3 "),
        (
            b"(p (Q) x)",
            "(p@1:2+1..2 (q@1:5+4..5 )@1:4+3..6 x@1:8+7..8 )@1:1+0..9 ",
        ),
        (b"a;b (c", "a@1:1+0..1 "),
        (b";\x00\x7f\xc8(\r)\xef;", ""),
        (b"; (\n  x", "x@2:3+6..7 "),
        (b";a\rb\nc", "c@2:1+5..6 "),
        (
            b"a\tb\x0bc\x0cd\re",
            "a@1:1+0..1 b@1:3+2..3 c@1:5+4..5 d@1:7+6..7 e@1:9+8..9 ",
        ),
        (b"a\r\nb", "a@1:1+0..1 b@2:1+3..4 "),
        (b"ABZ[`az{~!", "abz[`az{~!@1:1+0..10 "),
        (b"a(b)c", "a@1:1+0..1 (b@1:3+2..3 )@1:2+1..4 c@1:5+4..5 "),
        (b"\x7f", "1 BadByte 1:1"),
        (b"a\x00", "1 BadByte 1:2"),
        (b"\n \xc8", "1 BadByte 2:2"),
        (b"\xef\xbb\xbfa", "1 BadByte 1:1"),
        (b"\x08", "1 BadByte 1:1"),
        (b"\x0e", "1 BadByte 1:1"),
        (b")", "2 StrayClose 1:1"),
        (b"())", "2 StrayClose 1:3"),
        (b"a\n) \x00", "2 StrayClose 2:1"),
        (b"() (", "3 OpenAtEnd 1:4"),
        (b"(a\n(b)(", "3 OpenAtEnd 1:1"),
        (b"() ((c) (", "3 OpenAtEnd 1:4"),
        (b"( \x00 )", "1 BadByte 1:3"),
        (b"(;)", "3 OpenAtEnd 1:1"),
    ];
    for (text, want) in table {
        let got = answer(rt.alloc(), text).unwrap_or(String::new(rt.alloc()));
        assert_eq!(rt; got.as_str(), want);
    }
}

// So many opening parentheses, and then so many closing ones.
fn parentheses(alloc: Global, opening: usize, closing: usize) -> Result<Vec<u8>, AllocError> {
    let mut text = Vec::new(alloc);
    for _ in 0..opening {
        text.push(b'(')?;
    }
    for _ in 0..closing {
        text.push(b')')?;
    }
    Ok(text)
}

#[test]
fn at_most_two_hundred_are_open(rt: HostRuntime) -> Result<(), Fail> {
    let alloc = rt.alloc();
    assert_eq!(rt; MAX_DEPTH, 200);
    let table = [
        (200, 0, "3 OpenAtEnd 1:1"),
        (200, 199, "3 OpenAtEnd 1:1"),
        (201, 0, "4 TooDeep 1:201"),
        (201, 201, "4 TooDeep 1:201"),
        (200, 201, "2 StrayClose 1:401"),
    ];
    for (opening, closing, want) in table {
        let text = parentheses(alloc, opening, closing)?;
        assert_eq!(rt; answer(alloc, &text)?.as_str(), want);
    }
    let deepest = parentheses(alloc, 200, 200)?;
    let shown = answer(alloc, &deepest)?;
    assert!(rt; shown.as_str().ends_with(")@1:2+1..399 )@1:1+0..400 "));
    Ok(())
}

#[test]
fn long_texts_are_read(rt: HostRuntime) -> Result<(), Fail> {
    let alloc = rt.alloc();
    let word = vec![in alloc; b'W'; 100_000]?;
    let mut shown = vec![in alloc; b'w'; 100_000]?;
    shown.extend_from_slice(b"@1:1+0..100000 ")?;
    assert!(rt; answer(alloc, &word)?.as_bytes() == shown.as_slice());

    // 131,072 groups of eight bytes each
    let mut groups = Vec::new(alloc);
    for _ in 0..MAX_BYTES / 8 {
        groups.extend_from_slice(b"(a (B))\n")?;
    }
    assert!(rt; groups.len() == MAX_BYTES);
    match read_forms(alloc, &groups) {
        Ok(forms) => {
            assert_eq!(rt; forms.len(), 131_072);
            let last = forms[131_071].span();
            assert_eq!(rt; (last.start, last.end), (1_048_568, 1_048_575));
            assert_eq!(rt; (last.place.line, last.place.column), (131_072, 1));
        }
        Err(_) => panic!(rt; "not read"),
    }
    Ok(())
}

#[test]
fn kinds_have_numbers_and_names(rt: HostRuntime) -> Result<(), Fail> {
    let table = [
        (FaultKind::BadByte, 1, "BadByte"),
        (FaultKind::StrayClose, 2, "StrayClose"),
        (FaultKind::OpenAtEnd, 3, "OpenAtEnd"),
        (FaultKind::TooDeep, 4, "TooDeep"),
        (FaultKind::NoDefine, 5, "NoDefine"),
        (FaultKind::BadForm, 6, "BadForm"),
        (FaultKind::UnknownName, 7, "UnknownName"),
        (FaultKind::DoubleName, 8, "DoubleName"),
        (FaultKind::WrongArity, 9, "WrongArity"),
        (FaultKind::TypeLoop, 10, "TypeLoop"),
        (FaultKind::ReservedName, 11, "ReservedName"),
        (FaultKind::EmptyOneof, 12, "EmptyOneof"),
        (
            FaultKind::LeftOut(Text::new(rt.alloc(), b"either")?),
            13,
            "LeftOut",
        ),
        (FaultKind::OtherDomain, 14, "OtherDomain"),
        (FaultKind::GoalMissing, 15, "GoalMissing"),
        (FaultKind::GoalTwice, 16, "GoalTwice"),
        (FaultKind::WrongGoalKind, 17, "WrongGoalKind"),
        (FaultKind::NotChain, 18, "NotChain"),
        (FaultKind::QuantifiedGoal, 19, "QuantifiedGoal"),
        (FaultKind::UnknownAction, 20, "UnknownAction"),
        (FaultKind::BadNumber, 21, "BadNumber"),
        (FaultKind::WrongPlanKind, 22, "WrongPlanKind"),
        (FaultKind::EmptyInit, 23, "EmptyInit"),
        (FaultKind::BadWeight, 24, "BadWeight"),
        (FaultKind::MassOver, 25, "MassOver"),
    ];
    for (kind, code, name) in table {
        assert_eq!(rt; kind.code(), code);
        assert_eq!(rt; kind.name(), name);
        let word = kind.word().map_or(0, |text| text.as_bytes().len());
        assert_eq!(rt; word, if code == 13 { 6 } else { 0 });
    }
    Ok(())
}

#[test]
fn texts_are_their_bytes(rt: HostRuntime) -> Result<(), Fail> {
    let text = Text::new(rt.alloc(), b"-A2")?;
    assert!(rt; text.is(b"-A2") && !text.is(b"-a2") && !text.is(b"-A"));
    assert!(rt; Text::in_lower_case(rt.alloc(), b"-A2")?.is(b"-a2"));
    Ok(())
}

// The first top-level forms as a reader meets them: those of a definition, and those of a plan.
#[test]
fn first_groups_of_their_kind(rt: HostRuntime) -> Result<(), Fail> {
    let alloc = rt.alloc();
    let table: [(&[u8], u32, u32); 5] = [
        (b"(plan table)", 1, 0),
        (b"plan (planned) (PLAN)", 16, 0),
        (b"(define (domain a b)) (define (Domain slip) x)", 0, 23),
        (b"(define (domain ?a)) (define domain) (define)", 0, 0),
        (b"((plan)) (define (domain :a)) (define (problem a))", 0, 0),
    ];
    for (text, plan, domain) in table {
        assert!(rt; text.len() <= MAX_BYTES);
        let Ok(forms) = read_forms(alloc, text) else {
            panic!(rt; "not read");
        };
        let start = first_group(&forms, b"plan").map_or(0, |found| found.0.place.column);
        assert_eq!(rt; start, plan);
        let start = first_definition(&forms, b"domain").map_or(0, |found| found.0.place.column);
        assert_eq!(rt; start, domain);
    }
    Ok(())
}

#[test]
fn numerals_have_one_to_nine_digits(rt: HostRuntime) -> Result<(), Fail> {
    let table: [(&[u8], Option<u32>); 7] = [
        (b"0", Some(0)),
        (b"007", Some(7)),
        (b"999999999", Some(999_999_999)),
        (b"1000000000", None),
        (b"", None),
        (b"+1", None),
        (b"1a", None),
    ];
    for (text, want) in table {
        assert_eq!(rt; numeral(&Text::new(rt.alloc(), text)?), want);
    }
    Ok(())
}
