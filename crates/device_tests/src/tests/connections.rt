//! A connection in memory, and a gate in memory that hands out several.
ghost use Rattle.std.specs.Prelude.{IfOk};
ghost use Rattle.ph_io.specs.MemGates.{IsUnused};

use ph_base::NoMemory;
use ph_io::{
    End, Gate, GateFailed, MemDuplex, MemGate, MemSink, MemSource, ReadFailed, Sink, Source,
    WriteFailed, write_all,
};
use std::alloc::Global;
use std::test::Fail;

/// A connection of these bytes, whose reads and writes of the numbers given fail, and whose reads
/// move one byte.
fn conn(alloc: Global, bytes: &[u8], reads: &[u64], writes: &[u64]) -> Result<MemDuplex, NoMemory>
    ensures { IfOk result IsUnused }
{
    let source = MemSource::new(
        Vec::from_slice(alloc, bytes)?,
        1,
        Vec::from_slice(alloc, reads)?,
    );
    let sink = MemSink::new(alloc, 4, Vec::from_slice(alloc, writes)?);
    Ok(MemDuplex::new(source, sink, None))
}

/// Serves each connection of a gate by writing back the first byte that it sends, until the gate
/// ends or fails. Answers whether it ended.
fn echo<G: Gate>(gate: &mut G) -> bool {
    for _ in 0..u64::MAX {
        let Ok(next) = gate.next() else { return false };
        let Some(mut conn) = next else { return true };
        let mut room = [0u8; 4];
        let end = match conn.read(&mut room) {
            Err(_) => End::ReadFault,
            Ok(n) => match write_all(&mut conn, &room[..n]) {
                Err(_) => End::WriteFault,
                Ok(()) => End::Closed,
            },
        };
        gate.back(conn, end);
    }
    false
}

#[test]
fn a_connection_in_memory_fails_where_it_was_told(rt: HostRuntime) -> Result<(), Fail> {
    let mut conn = conn(rt.alloc(), b"ab", &[1], &[0])?;
    let mut room = [0u8; 4];
    assert_eq!(rt; conn.read(&mut room), Ok(1));
    assert_eq!(rt; room[0], b'a');
    assert_eq!(rt; conn.write(b"cd"), Err(WriteFailed));
    assert_eq!(rt; conn.read(&mut room), Err(ReadFailed));
    assert_eq!(rt; conn.write(b"cd"), Ok(2));
    assert_eq!(rt; conn.written(), b"cd".as_slice());
    Ok(())
}

/// Adds a connection of these bytes, of which the reads and writes of the numbers given fail.
fn add(
    alloc: Global,
    gate: &mut MemGate,
    bytes: &[u8],
    reads: &[u64],
    writes: &[u64],
) -> Result<(), NoMemory> {
    gate.add(conn(alloc, bytes, reads, writes)?)
}

#[test]
fn a_gate_in_memory_keeps_what_became_of_each(rt: HostRuntime) -> Result<(), Fail> {
    let alloc = rt.alloc();
    let mut gate = MemGate::new(alloc, [3].to_vec(alloc)?);
    add(alloc, &mut gate, b"a", &[], &[])?;
    add(alloc, &mut gate, b"b", &[0], &[])?;
    add(alloc, &mut gate, b"c", &[], &[0])?;
    add(alloc, &mut gate, b"d", &[], &[])?;
    assert!(rt; !echo(&mut gate));
    assert_eq!(rt; gate.returned().len(), 3);
    assert!(rt; echo(&mut gate));
    assert_eq!(rt; gate.returned().len(), 4);
    let expected = [
        (End::Closed, b"a".as_slice()),
        (End::ReadFault, b""),
        (End::WriteFault, b""),
        (End::Closed, b"d"),
    ];
    for (back, (end, written)) in gate.returned().iter().zip(&expected) {
        assert_eq!(rt; back.end, *end);
        assert_eq!(rt; back.conn.written(), *written);
    }
    Ok(())
}
