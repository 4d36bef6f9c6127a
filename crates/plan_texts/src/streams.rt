// Sources and sinks that fail.
use plan_wire::{
    Failed, MemorySink, MemorySource, Sink, Source, SteadySink, StreamSink, StreamSource,
    TakeFault, put_line, take_all,
};
use std::alloc::{AllocError, Global};
use std::process::Abort;
use std::test::Fail;

// A source of `hello`, which gives at most so many bytes a call, and fails at the call of this number.
fn source(alloc: Global, piece: u32, fails: u32) -> Result<MemorySource, AllocError> {
    let bytes = Vec::from_slice(alloc, b"hello")?;
    let calls = Vec::from_slice(alloc, &[fails])?;
    Ok(MemorySource::new(bytes, piece.max(1), calls))
}

// The document is taken as a whole, or the source has failed.
fn expect_taken(rt: &impl Abort, taken: Result<Vec<u8>, TakeFault>, whole: bool) {
    match taken {
        Ok(bytes) => {
            assert!(rt; whole);
            assert_eq!(rt; bytes.as_slice(), b"hello".as_slice());
        }
        Err(fault) => {
            assert!(rt; !whole);
            assert_eq!(rt; fault, TakeFault::Failed);
        }
    }
}

#[test]
fn a_source_fails_at_the_calls_that_are_listed(rt: HostRuntime) -> Result<(), Fail> {
    for (piece, fails, whole) in [(1, 0, true), (3, 9, true), (2, 3, false), (1, 6, false)] {
        let mut source = source(rt.alloc(), piece, fails)?;
        expect_taken(&rt, take_all(rt.alloc(), &mut source), whole);
    }
    Ok(())
}

// A sink with room for so many bytes, which takes at most `piece` of them a call, and fails at the call of this number.
fn sink(alloc: Global, room: u32, piece: u32, fails: u32) -> Result<MemorySink, Fail> {
    let calls = Vec::from_slice(alloc, &[fails])?;
    Ok(MemorySink::new(alloc, room, piece.max(1), calls)?)
}

fn expect(rt: &impl Abort, put: Result<(), Failed>, whole: bool, bytes: &[u8], written: &str) {
    assert_eq!(rt; put.is_ok(), whole, "{written}");
    assert_eq!(rt; bytes, written.as_bytes());
}

#[test]
fn a_sink_fails_at_the_calls_that_are_listed_and_where_it_is_full(
    rt: HostRuntime,
) -> Result<(), Fail> {
    let cases = [
        (9, 1, 0, true, "line\n"),
        (5, 2, 9, true, "line\n"),
        (4, 3, 0, false, "line"),
        (9, 2, 2, false, "li"),
        (0, 1, 0, false, ""),
    ];
    for (room, piece, fails, whole, written) in cases {
        let mut sink = sink(rt.alloc(), room, piece, fails)?;
        let put = put_line(&mut sink, b"line\n");
        expect(&rt, put, whole, sink.bytes(), written);
    }
    Ok(())
}

#[test]
fn a_steady_sink_fails_where_it_is_full(rt: HostRuntime) -> Result<(), Fail> {
    let mut sink = SteadySink::new(rt.alloc(), 6)?;
    for (line, whole, written) in [
        ("line\n", true, "line\n"),
        ("line\n", false, "line\nl"),
        ("", true, "line\nl"),
    ] {
        let put = put_line(&mut sink, line.as_bytes());
        expect(&rt, put, whole, sink.bytes(), written);
    }
    Ok(())
}

// A reader and a writer of bytes that fail at their second call.
#[derive(Drop)]
struct Faulty {
    calls: u32,
}

impl std::io::Read for Faulty {
    fn read(&mut self, room: &mut [u8]) -> std::io::Result<usize> {
        self.calls = self.calls.saturating_add(1);
        if self.calls == 2 {
            return Err(std::io::Error::from(std::io::ErrorKind::Other));
        }
        Ok(room.len().min(3))
    }
}

impl std::io::Write for Faulty {
    fn write(&mut self, piece: &[u8]) -> std::io::Result<usize> {
        self.calls = self.calls.saturating_add(1);
        if self.calls == 2 {
            return Err(std::io::Error::from(std::io::ErrorKind::Other));
        }
        Ok(if self.calls == 4 {
            0
        } else {
            piece.len().min(3)
        })
    }

    fn flush(&mut self) -> std::io::Result<()> {
        Ok(())
    }
}

#[test]
fn a_reader_of_the_system_hands_on_each_failure(rt: HostRuntime) {
    let mut source = StreamSource::new(Faulty { calls: 0 });
    let mut room = [0u8; 8];
    assert_eq!(rt; source.read(&mut room), Ok(3));
    assert_eq!(rt; source.read(&mut room), Err(Failed));
    assert_eq!(rt; source.read(&mut room), Ok(3));
}

#[test]
fn a_writer_of_the_system_hands_on_each_failure(rt: HostRuntime) {
    let mut sink = StreamSink::new(Faulty { calls: 0 });
    for (line, taken) in [
        ("line", Ok(3)),
        ("line", Err(Failed)),
        ("line", Ok(3)),
        ("line", Err(Failed)),
        ("", Ok(0)),
    ] {
        assert_eq!(rt; sink.write(line.as_bytes()), taken);
    }
}
