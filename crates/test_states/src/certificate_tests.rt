//! Texts of certificates, read and written back, and the faults of others; and sets that are judged.
//! What is expected was worked out by hand.

use plan_certs::{CertificateRead, is_no_way_out, read_cert, some_set_holds, write_cert};
use sexpr_text::{MAX_BYTES, ReadErr};
use std::alloc::{AllocError, Global};
use std::fmt::Write;
use std::rc::RcStr;
use std::test::Fail;
use task_core::{Cond, FluentId, InitSpec, State, Task};

// The words of a name, which are separated by one space.
fn name(alloc: Global, words: &str) -> Result<Vec<RcStr>, AllocError> {
    let mut name = Vec::new(alloc);
    for word in words.split(' ') {
        name.push(RcStr::from_str(alloc, word)?)?;
    }
    Ok(name)
}

// Two places and a coin, and no action.
fn task(alloc: Global) -> Result<Option<Task>, AllocError> {
    let fluents = vec![in alloc;
        name(alloc, "at a")?,
        name(alloc, "at b")?,
        name(alloc, "up")?,
    ]?;
    let init = InitSpec {
        facts: State::none(),
        entries: Vec::new(alloc),
    };
    Ok(Task::try_new(fluents, Vec::new(alloc), init, None, Cond::Yes))
}

// What the reader answers: the text of the certificate that it read, or the fault.
fn answer(alloc: Global, bytes: &[u8], task: &Task) -> Result<String, AllocError> {
    let mut out = String::new(alloc);
    if bytes.len() > MAX_BYTES {
        out.push_str("too long")?;
        return Ok(out);
    }
    match read_cert(alloc, bytes, task) {
        Ok(CertificateRead { certificate, place }) => {
            write!(out, "{}:{} ", place.line, place.column)?;
            for byte in write_cert(alloc, &certificate, task)? {
                out.push(char::from(byte))?;
            }
        }
        Err(ReadErr::Fault(fault)) => {
            let place = fault.place;
            write!(out, "{} {}:{}", fault.kind.name(), place.line, place.column)?;
        }
        Err(ReadErr::Memory) => out.push_str("out of memory")?,
    }
    Ok(out)
}

#[test]
fn texts_and_their_answers(rt: HostRuntime) -> Result<(), Fail> {
    let alloc = rt.alloc();
    let task = task(alloc)?.ok_or("no task")?;
    let table: [(&[u8], &str); 20] = [
        (
            b"(certificate weak (set ((up)) ((NOT (at a)) (at b))))",
            "1:1 (certificate weak\n  (set ((up)) ((not (at a)) (at b)))\n)\n",
        ),
        (
            b"x (note)\n (Certificate CYCLIC (set () ((up) (not (up)))) (SET)) (more)",
            "2:2 (certificate cyclic\n  (set () ((up) (not (up))))\n  (set)\n)\n",
        ),
        (
            b"(certificate strong (set))",
            "1:1 (certificate strong\n  (set)\n)\n",
        ),
        (b"(certificate weak (set)) )", "StrayClose 1:26"),
        (b"(certificates weak (set))", "NoDefine 1:1"),
        (b"\n (certificate)", "BadForm 2:2"),
        (b"(certificate best (sets))", "BadForm 1:14"),
        (b"(certificate (weak) (set))", "BadForm 1:14"),
        (b"(certificate weak)", "BadForm 1:1"),
        (b"(certificate weak (set) (set))", "BadForm 1:1"),
        (b"(certificate strong (sets) set)", "BadForm 1:1"),
        (b"(certificate cyclic)", "BadForm 1:1"),
        (b"(certificate cyclic (set) (sets))", "BadForm 1:27"),
        (b"(certificate weak set)", "BadForm 1:19"),
        (b"(certificate weak ())", "BadForm 1:19"),
        (b"(certificate weak (set up))", "BadForm 1:24"),
        (b"(certificate weak (set (up)))", "BadForm 1:25"),
        (b"(certificate weak (set ((down))))", "UnknownName 1:25"),
        (b"(certificate weak (set ((not up))))", "BadForm 1:25"),
        (
            b"(certificate weak (set ((not (at c)))))",
            "UnknownName 1:30",
        ),
    ];
    for (text, want) in table {
        assert_eq!(rt; answer(alloc, text, &task)?.as_str(), want);
    }
    Ok(())
}

// What is judged of a certificate: whether its sets hold the state where the coin is up at a, and
// whether an action that leads from there to the states at a and at b is no way out of set 1.
fn judged(alloc: Global, bytes: &[u8], task: &Task) -> Result<Option<(bool, bool)>, AllocError> {
    if bytes.len() > MAX_BYTES {
        return Ok(None);
    }
    let CertificateRead { certificate, .. } = match read_cert(alloc, bytes, task) {
        Ok(read) => read,
        Err(_) => return Ok(None),
    };
    let at_a = State::none().with(FluentId(0), true);
    let at_b = State::none().with(FluentId(1), true);
    let next = [at_a, at_b];
    if certificate.sets.len() < 2 {
        return Ok(None);
    }
    Ok(Some((
        some_set_holds(task, &certificate.sets, &at_a.with(FluentId(2), true)),
        is_no_way_out(task, &certificate, 1, &next),
    )))
}

#[test]
fn sets_are_judged(rt: HostRuntime) -> Result<(), Fail> {
    let alloc = rt.alloc();
    let task = task(alloc)?.ok_or("no task")?;
    let at_first = b"(certificate cyclic (set ((at b))) (set ((at a) (up))))";
    assert!(rt; judged(alloc, at_first, &task)? == Some((true, true)));
    let at_last = b"(certificate cyclic (set ((at a) (up))) (set ((at b))))";
    assert!(rt; judged(alloc, at_last, &task)? == Some((true, false)));
    let neither = b"(certificate cyclic (set ((up) (not (up)))) (set ()))";
    assert!(rt; judged(alloc, neither, &task)? == Some((true, true)));
    let empty = b"(certificate cyclic (set ((at b) (not (at b)))) (set ((at b))))";
    assert!(rt; judged(alloc, empty, &task)? == Some((false, false)));
    Ok(())
}
