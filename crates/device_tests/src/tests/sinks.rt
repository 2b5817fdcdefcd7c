//! Sinks: what each write takes, where it was told to fail and where its writer fails.

use ph_io::{MemSink, Sink, StdSink, SureSink, WriteFailed, write_all};
use std::alloc::Global;
use std::io;
use std::io::{ErrorKind, Write};
use std::process::Abort;
use std::test::Fail;

// A writer of which every call fails.
#[derive(Drop)]
struct Broken;

impl Write for Broken {
    fn write(&mut self, _: &[u8]) -> io::Result<usize> {
        Err(io::Error::from(ErrorKind::Other))
    }

    fn flush(&mut self) -> io::Result<()> {
        Ok(())
    }
}

// A writer that takes nothing.
#[derive(Drop)]
struct Stuck;

impl Write for Stuck {
    fn write(&mut self, _: &[u8]) -> io::Result<usize> {
        Ok(0)
    }

    fn flush(&mut self) -> io::Result<()> {
        Ok(())
    }
}

// The pieces are written whole with these answers, behind each of which the sink holds these bytes.
fn writes(rt: &impl Abort, sink: MemSink, rows: &[(&[u8], Result<(), WriteFailed>, &[u8])]) {
    let mut sink = sink;
    for (piece, answer, held) in rows {
        writes_next(rt, &mut sink, piece, *answer, held);
    }
}

fn writes_next(
    rt: &impl Abort,
    sink: &mut MemSink,
    piece: &[u8],
    answer: Result<(), WriteFailed>,
    held: &[u8],
) {
    assert_eq!(rt; write_all(sink, piece), answer);
    assert_eq!(rt; sink.bytes(), held);
}

fn sink(alloc: Global, failing: &[u64]) -> Result<MemSink, Fail> {
    Ok(MemSink::new(alloc, 2, failing.to_vec(alloc)?))
}

#[test]
fn a_sink_in_memory_fails_where_it_was_told(rt: HostRuntime) -> Result<(), Fail> {
    writes(
        &rt,
        sink(rt.alloc(), &[0, 3])?,
        &[
            (b"abc", Err(WriteFailed), b""),
            (b"abc", Ok(()), b"abc"),
            (b"de", Err(WriteFailed), b"abc"),
            (b"defg", Ok(()), b"abcdefg"),
        ],
    );
    Ok(())
}

#[test]
fn a_failed_write_leaves_the_front(rt: HostRuntime) -> Result<(), Fail> {
    writes(
        &rt,
        sink(rt.alloc(), &[1])?,
        &[(b"abc", Err(WriteFailed), b"ab")],
    );
    Ok(())
}

#[test]
fn a_sure_sink_counts_the_bytes(rt: HostRuntime) {
    let mut sink = SureSink::new();
    assert_eq!(rt; sink.write(b"ab"), Ok(2));
    assert_eq!(rt; write_all(&mut sink, b"cde"), Ok(()));
    assert_eq!(rt; sink.count(), 5);
}

// The sink takes so many of two bytes, or fails.
fn takes<S: Sink + Drop>(rt: &impl Abort, sink: S, answer: Result<usize, WriteFailed>) {
    let mut sink = sink;
    assert_eq!(rt; sink.write(b"ab"), answer);
}

#[test]
fn a_writer_of_std_is_a_sink(rt: HostRuntime) {
    takes(&rt, StdSink::new(Vec::new(rt.alloc())), Ok(2));
    takes(&rt, StdSink::new(Broken), Err(WriteFailed));
    takes(&rt, StdSink::new(Stuck), Err(WriteFailed));
    let mut sink = StdSink::new(Vec::new(rt.alloc()));
    assert_eq!(rt; write_all(&mut sink, b"cde"), Ok(()));
}
