//! What no clause says: the worked examples, that calls succeed, and the edge to the system.
use plan_io::{
    DiskShelf, FetchErr, MemShelf, MemSink, PutErr, Shelf, Sink, StdSink, Stopped, put_all,
};
use std::alloc::Global;
use std::io::{Read, Write};
use std::test::Fail;
use std::{fs, io};

/// Fetches through the trait, as the code above does.
fn fetch_from<S: Shelf>(
    shelf: &mut S,
    alloc: Global,
    name: &str,
    limit: usize,
) -> Result<Vec<u8>, FetchErr> {
    shelf.fetch(alloc, name, limit)
}

#[test]
fn mem_shelf_answers_by_name_number_and_limit(rt: HostRuntime) -> Result<(), Fail> {
    let mut shelf = MemShelf::new(rt.alloc());
    shelf.add("d", b"domain")?;
    shelf.add("p", b"old")?;
    shelf.add("p", b"problem")?;
    shelf.fail_at(4)?;
    // The seven fetches, in turn: name, limit, and what comes.
    let wanted: [(&str, usize, Result<&[u8], FetchErr>); 7] = [
        ("d", 6, Ok(b"domain")),
        ("d", 5, Err(FetchErr::TooLong)),
        ("p", 100, Ok(b"problem")),
        ("p", 100, Err(FetchErr::Failed)),
        ("p", 100, Ok(b"problem")),
        ("q", 100, Err(FetchErr::Failed)),
        ("d", 0, Err(FetchErr::TooLong)),
    ];
    for (name, limit, want) in wanted {
        let got = fetch_from(&mut shelf, rt.alloc(), name, limit);
        let same = match (&got, want) {
            (Ok(file), Ok(bytes)) => file.as_slice() == bytes,
            (Err(e), Err(f)) => *e == f,
            _ => false,
        };
        assert!(rt; same, "{name} with limit {limit}");
    }
    Ok(())
}

#[test]
fn mem_sink_stops_at_a_fault(rt: HostRuntime) -> Result<(), Fail> {
    let text = b"a text of forty bytes, and not a byte mo";
    // The put that fails (0: none), the room, and what put_all answers.
    let wanted = [
        (2, 100, Err(Stopped { taken: 8 })),
        (0, 100, Ok(())),
        (0, 40, Ok(())),
        (0, 10, Err(Stopped { taken: 10 })),
        (1, 40, Err(Stopped { taken: 0 })),
        (6, 40, Ok(())),
    ];
    for (call, room, want) in wanted {
        let mut sink = MemSink::new(rt.alloc(), 8, room)?;
        sink.fail_at(call)?;
        let got = put_all(&mut sink, text);
        assert!(rt; got == want, "failing at {call} with room {room}");
        let taken = got.map_or_else(|stopped| stopped.taken, |()| text.len());
        assert!(rt;
            text.starts_with(sink.bytes()),
            "at {call} with room {room}"
        );
        assert_eq!(rt; sink.bytes().len(), taken, "at {call} with room {room}");
    }
    Ok(())
}

#[test]
fn an_empty_text_makes_no_put(rt: HostRuntime) -> Result<(), Fail> {
    let mut sink = MemSink::new(rt.alloc(), 8, 2)?;
    sink.fail_at(2)?;
    assert!(rt; put_all(&mut sink, b"") == Ok(()));
    // The first put, of an empty piece; the second fails by its number.
    assert!(rt; sink.put(b"") == Ok(0));
    assert!(rt; sink.put(b"") == Err(PutErr::Failed));
    assert!(rt; sink.put(b"xyz") == Ok(2));
    assert!(rt; sink.put(b"z") == Err(PutErr::Failed));
    assert!(rt; sink.put(b"") == Ok(0));
    assert!(rt; sink.bytes() == b"xy".as_slice());
    Ok(())
}

#[test]
fn disk_shelf_reads_a_real_file(rt: HostRuntime) -> Result<(), Fail> {
    let path = "plan_io-disk-shelf.tmp";
    fs::write(&rt, path, "0123456789")?;
    let mut shelf = DiskShelf::new(&rt);
    let whole = fetch_from(&mut shelf, rt.alloc(), path, 10);
    assert!(rt; whole.is_ok_and(|bytes| bytes.as_slice() == b"0123456789".as_slice()));
    let cut = fetch_from(&mut shelf, rt.alloc(), path, 9);
    assert!(rt; cut.is_err_and(|e| e == FetchErr::TooLong));
    let unlimited = fetch_from(&mut shelf, rt.alloc(), path, usize::MAX);
    assert!(rt; unlimited.is_ok_and(|bytes| bytes.len() == 10));
    fs::remove_file(&rt, path)?;
    for missing in [path, ".", "plan_io-no-such-file.tmp"] {
        let refused = fetch_from(&mut shelf, rt.alloc(), missing, 100);
        assert!(rt; refused.is_err_and(|e| e == FetchErr::Failed), "{missing}");
    }
    Ok(())
}

#[test]
fn std_sink_writes_to_a_pipe(rt: HostRuntime) -> Result<(), Fail> {
    let (mut reader, writer) = io::pipe(&rt)?;
    let mut sink = StdSink::new(writer);
    assert!(rt; put_all(&mut sink, b"some text") == Ok(()));
    drop(sink);
    let mut bytes = Vec::new(rt.alloc());
    reader.read_to_end(&mut bytes)?;
    assert!(rt; bytes.as_slice() == b"some text".as_slice());
    Ok(())
}

#[test]
fn std_sink_counts_a_broken_pipe(rt: HostRuntime) -> Result<(), Fail> {
    let (reader, writer) = io::pipe(&rt)?;
    drop(reader);
    let mut sink = StdSink::new(writer);
    assert!(rt; put_all(&mut sink, b"some text") == Err(Stopped { taken: 0 }));
    Ok(())
}

/// A device that takes three bytes a write, as many times as it is told, and then nothing. It keeps
/// back nothing, but its flushes can be told to fail.
#[derive(Drop)]
struct Device {
    writes: u8,
    flushes: bool,
}

impl Write for Device {
    fn write(&mut self, buf: &[u8]) -> io::Result<usize> {
        if self.writes == 0 {
            return Ok(0);
        }
        self.writes -= 1;
        Ok(buf.len().min(3))
    }

    fn flush(&mut self) -> io::Result<()> {
        if self.flushes {
            Ok(())
        } else {
            Err(io::Error::from(io::ErrorKind::Other))
        }
    }
}

#[test]
fn std_sink_stops_at_a_device_that_gives_up(rt: HostRuntime) {
    let wanted = [
        (4, true, Ok(())),
        (3, true, Err(Stopped { taken: 9 })),
        (0, true, Err(Stopped { taken: 0 })),
        (4, false, Err(Stopped { taken: 0 })),
    ];
    for (writes, flushes, want) in wanted {
        let mut sink = StdSink::new(Device { writes, flushes });
        let got = put_all(&mut sink, b"0123456789");
        assert!(rt; got == want, "{writes} writes");
    }
}
