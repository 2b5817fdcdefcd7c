//! One connection over loopback, served from a second thread.
use ph_io::{End, Gate, GateFailed, Sink, Source, write_all};
use ph_net::Port;
use std::io;
use std::io::{Read, Write};
use std::net::{Net, TcpListener, TcpStream};
use std::test::Fail;
use std::thread::{Threads, join};

/// Writes back the first bytes that each connection of a gate sends. Answers how many it served.
pub(super) fn echo<G: Gate>(gate: &mut G) -> Result<u32, GateFailed> {
    let mut served = 0u32;
    for _ in 0..u64::MAX {
        let Some(mut conn) = gate.next()? else {
            return Ok(served);
        };
        served = served.saturating_add(1);
        let mut room = [0u8; 8];
        let end = match conn.read(&mut room) {
            Err(_) => End::ReadFault,
            Ok(n) => match write_all(&mut conn, &room[..n]) {
                Err(_) => End::WriteFault,
                Ok(()) => End::Closed,
            },
        };
        gate.back(conn, end);
    }
    Ok(served)
}

/// What a server of this port answers to these bytes, up to its end.
fn ask<R: Net<Listener = TcpListener, Stream = TcpStream>>(
    rt: &R,
    port: u16,
    bytes: &[u8],
    room: &mut [u8],
) -> io::Result<usize> {
    let mut stream = TcpStream::connect(rt, ("127.0.0.1", port))?;
    stream.write_all(bytes)?;
    let n = stream.read(room)?;
    let end = stream.read(&mut [0u8; 1])?;
    Ok(n.saturating_add(end))
}

#[test]
fn a_connection_is_served_from_a_second_thread(rt: HostRuntime) -> Result<(), Fail> {
    let port = Port::listen(&rt, 0);
    assert!(rt; port.fault().is_none());
    let number = port.number().expect(&rt, "a port of the system's choice");
    let mut gate = port.gate(1);
    let mut room = [0u8; 16];
    let (served, answer) = join(
        &rt,
        || echo(&mut gate),
        || ask(&rt, number, b"a reply", &mut room),
    );
    assert_eq!(rt; served, Ok(1));
    assert_eq!(rt; answer?, 7);
    assert_eq!(rt; room[..7], b"a reply"[..]);
    assert!(rt; gate.next().is_ok());
    Ok(())
}

#[test]
fn a_port_that_is_taken_fails_each_next(rt: HostRuntime) -> Result<(), Fail> {
    let port = Port::listen(&rt, 0);
    let number = port.number().expect(&rt, "a port of the system's choice");
    let taken = Port::listen(&rt, number);
    let mut gate = taken.gate(1);
    assert!(rt; gate.next().is_err());
    let cause = gate.fault().expect(&rt, "the cause");
    assert_eq!(rt; cause.kind(), io::ErrorKind::AddrInUse);
    Ok(())
}
