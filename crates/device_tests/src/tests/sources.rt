//! Sources: what each read gives, where it was told to fail and where its reader fails.
ghost use Rattle.std.specs.Prelude.{◌<◌, ◌≤◌};

use ph_io::{MemSource, ReadFailed, Source, StdSource, SureSource};
use std::io;
use std::io::{ErrorKind, Read};
use std::process::Abort;
use std::test::Fail;

// A reader of which every call fails.
#[derive(Drop)]
struct Broken;

impl Read for Broken {
    fn read(&mut self, _: &mut [u8]) -> io::Result<usize> {
        Err(io::Error::from(ErrorKind::Other))
    }
}

// The next read, into room for so many bytes, gives this.
fn reads_next<S: Source>(
    rt: &impl Abort,
    source: &mut S,
    size: usize,
    wanted: Result<&[u8], ReadFailed>,
)
    requires some { 0 < size }
    requires few { size ≤ 4 }
{
    let mut room = [0u8; 4];
    match source.read(&mut room[..size]) {
        Ok(n) => assert!(rt; wanted == Ok(&room[..n])),
        Err(failed) => assert!(rt; wanted == Err(failed)),
    }
}

// The reads give these, one behind the other.
fn reads<S: Source + Drop>(
    rt: &impl Abort,
    source: S,
    size: usize,
    wanted: &[Result<&[u8], ReadFailed>],
)
    requires some { 0 < size }
    requires few { size ≤ 4 }
{
    let mut source = source;
    for read in wanted {
        reads_next(rt, &mut source, size, *read);
    }
}

const END: Result<&[u8], ReadFailed> = Ok(b"");

#[test]
fn a_source_in_memory_fails_where_it_was_told(rt: HostRuntime) -> Result<(), Fail> {
    let alloc = rt.alloc();
    let source = MemSource::new(b"ab".to_vec(alloc)?, 1, [1].to_vec(alloc)?);
    reads(&rt, source, 4, &[Ok(b"a"), Err(ReadFailed), Ok(b"b"), END]);
    Ok(())
}

#[test]
fn a_sure_source_fills_the_room(rt: HostRuntime) -> Result<(), Fail> {
    let source = SureSource::new(b"abc".to_vec(rt.alloc())?);
    reads(&rt, source, 2, &[Ok(b"ab"), Ok(b"c"), END]);
    Ok(())
}

#[test]
fn a_reader_of_std_is_a_source(rt: HostRuntime) {
    reads(
        &rt,
        StdSource::new(b"abc".as_slice()),
        4,
        &[Ok(b"abc"), END],
    );
    reads(&rt, StdSource::new(Broken), 4, &[Err(ReadFailed)]);
}
