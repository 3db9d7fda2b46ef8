//! Pieces that are written, to memory and to a writer as standard output.
use ent_io::{End, MemorySink, Sink, SinkEnd, Status, StdSink, write_whole};
use std::alloc::{AllocError, Global};
use std::io;
use std::io::Write;

/// Whether a sink takes one byte a call, the number of the call that fails, the text after a write of `abc`, and the
/// bytes after which the write stops, if it does. No call has the number 0.
const WRITES: [(bool, u64, &[u8], Option<usize>); 6] = [
    (false, 2, b"abc", None),
    (false, 1, b"", Some(0)),
    (true, 4, b"abc", None),
    (true, 3, b"ab", Some(2)),
    (true, 2, b"a", Some(1)),
    (true, 1, b"", Some(0)),
];

/// The number of the call that fails, the text of a page then, and whether the page is whole.
const PAGES: [(u64, &[u8], bool); 5] = [
    (5, b"head\nx\ny\nfoot\n", true),
    (4, b"head\nx\ny\n", false),
    (3, b"head\nx\n", false),
    (2, b"head\n", false),
    (1, b"", false),
];

/// Returns an empty text. The call with this number fails.
fn sink(alloc: Global, by_one: bool, failing: u64) -> Result<MemorySink, AllocError> {
    let mut calls = Vec::new(alloc);
    calls.push(failing)?;
    Ok(if by_one {
        MemorySink::by_one(alloc, calls)
    } else {
        MemorySink::new(alloc, calls)
    })
}

/// `true` if the piece is written whole, or stops after this many bytes by a failure.
fn writes<W: Sink>(out: &mut W, piece: &[u8], stop: Option<usize>) -> bool {
    match write_whole(out, piece) {
        Ok(()) => stop.is_none(),
        Err(end) => (Some(end.written) == stop) & (end.cause == SinkEnd::Failed),
    }
}

fn has_text(out: &MemorySink, text: &[u8]) -> bool {
    out.text() == text
}

fn writes_so(alloc: Global, by_one: bool, failing: u64, text: &[u8], stop: Option<usize>) -> bool {
    match sink(alloc, by_one, failing) {
        Ok(mut out) => {
            writes(&mut out, b"", None) & writes(&mut out, b"abc", stop) & has_text(&out, text)
        }
        Err(_) => false,
    }
}

fn all_write_so(alloc: Global, cases: &[(bool, u64, &[u8], Option<usize>)]) -> bool {
    for (by_one, failing, text, stop) in cases {
        if !writes_so(alloc, *by_one, *failing, text, *stop) {
            return false;
        }
    }
    true
}

#[test]
fn a_piece_is_written_whole(rt: HostRuntime) {
    assert!(rt; all_write_so(rt.alloc(), &WRITES));
}

/// Writes a head, two lines and a foot.
fn write_page<W: Sink>(out: &mut W) -> Result<Status, End> {
    write_whole(out, b"head\n")?;
    for line in [b"x\n", b"y\n"] {
        write_whole(out, line)?;
    }
    write_whole(out, b"foot\n")?;
    Ok(Status::Done)
}

fn is_written(out: &mut MemorySink, whole: bool) -> bool {
    match write_page(out) {
        Ok(status) => whole & (status == Status::Done),
        Err(end) => !whole & (end == End::WriteFault),
    }
}

fn stops_so(alloc: Global, failing: u64, text: &[u8], whole: bool) -> bool {
    match sink(alloc, false, failing) {
        Ok(mut out) => is_written(&mut out, whole) & has_text(&out, text),
        Err(_) => false,
    }
}

fn all_stop_so(alloc: Global, cases: &[(u64, &[u8], bool)]) -> bool {
    for (failing, text, whole) in cases {
        if !stops_so(alloc, *failing, text, *whole) {
            return false;
        }
    }
    true
}

#[test]
fn a_page_stops_in_a_line(rt: HostRuntime) {
    assert!(rt; all_stop_so(rt.alloc(), &PAGES));
}

fn is_printed(alloc: Global, text: &mut Vec<u8>) -> bool {
    match StdSink::new(alloc, text) {
        Ok(mut out) => writes(&mut out, b"abc", None) & out.finish().is_ok(),
        Err(_) => false,
    }
}

fn prints(alloc: Global) -> bool {
    let mut text = Vec::new(alloc);
    is_printed(alloc, &mut text) & (text.as_slice() == b"abc".as_slice())
}

/// A writer that takes nothing.
#[derive(Drop)]
struct Closed;

impl Write for Closed {
    fn write(&mut self, _buf: &[u8]) -> io::Result<usize> {
        Err(io::Error::from(io::ErrorKind::BrokenPipe))
    }

    fn flush(&mut self) -> io::Result<()> {
        Ok(())
    }
}

/// `true` if the failure shows when the buffer is handed on, and not before.
fn fails_at_the_end(alloc: Global) -> bool {
    match StdSink::new(alloc, Closed) {
        Ok(mut out) => writes(&mut out, b"abc", None) & (out.finish() == Err(SinkEnd::Failed)),
        Err(_) => false,
    }
}

#[test]
fn standard_output_is_flushed_at_the_end(rt: HostRuntime) {
    assert!(rt; prints(rt.alloc()));
    assert!(rt; fails_at_the_end(rt.alloc()));
}
