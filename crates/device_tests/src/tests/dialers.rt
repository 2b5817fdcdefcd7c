//! Dials over loopback.
ghost use Rattle.std.specs.Prelude.{◌<◌, length};

use super::ports::echo;
use ph_base::{Bytes, NoMemory};
use ph_dial::{DialFailed, Dialer};
use ph_io::{ReadFailed, Source, WriteFailed, write_all};
use ph_net::{Port, TcpDialer};
use std::alloc::Global;
use std::io::ErrorKind;
use std::test::Fail;
use std::thread::join;
use std::time::{Duration, Instant};

/// What a call over one connection came to.
#[derive(Clone, Copy, Debug, PartialEq, Eq)]
enum Called {
    Answered(usize),
    NotDialed,
    NotWritten,
    NotRead,
}

/// Sends these bytes to a host and a port and reads once.
fn call<D: Dialer>(dialer: &mut D, host: &Bytes, port: u16, bytes: &[u8], room: &mut [u8]) -> Called
    requires { 0 < length room.old }
{
    let mut conn = match dialer.dial(host, port) {
        Ok(conn) => conn,
        Err(DialFailed) => return Called::NotDialed,
    };
    let called = match write_all(&mut conn, bytes) {
        Err(WriteFailed) => Called::NotWritten,
        Ok(()) => match conn.read(room) {
            Err(ReadFailed) => Called::NotRead,
            Ok(n) => Called::Answered(n),
        },
    };
    dialer.back(conn);
    called
}

/// A host by these bytes.
fn host(alloc: Global, text: &[u8]) -> Result<Bytes, NoMemory> {
    Bytes::from_slice(alloc, text)
}

/// A limit that a test can wait for.
fn short() -> Duration {
    Duration::from_millis(200)
}

/// A limit that no test waits for.
fn long() -> Duration {
    Duration::from_secs(30)
}

#[test]
fn a_number_and_a_name_of_this_machine_are_dialed(rt: HostRuntime) -> Result<(), Fail> {
    let number = host(rt.alloc(), b"127.0.0.1")?;
    let name = host(rt.alloc(), b"localhost")?;
    let port = Port::listen(&rt, 0);
    let at = port.number().expect(&rt, "a port of the system's choice");
    let mut gate = port.gate(2);
    let mut dialer = TcpDialer::new(&rt, long());
    let mut room = [0u8; 16];
    let (served, called) = join(
        &rt,
        || echo(&mut gate),
        || {
            let first = call(&mut dialer, &number, at, b"a reply", &mut room);
            let second = call(&mut dialer, &name, at, b"another", &mut room);
            (first, second)
        },
    );
    assert_eq!(rt; served, Ok(2));
    assert_eq!(rt; called, (Called::Answered(7), Called::Answered(7)));
    assert_eq!(rt; room[..7], b"another"[..]);
    assert_eq!(rt; dialer.broken(), 0);
    assert!(rt; dialer.fault().is_none());
    Ok(())
}

#[test]
fn a_port_where_nobody_listens_refuses_at_once(rt: HostRuntime) -> Result<(), Fail> {
    let host = host(rt.alloc(), b"127.0.0.1")?;
    let port = Port::listen(&rt, 0);
    let at = port.number().expect(&rt, "a port of the system's choice");
    drop(port);
    let mut dialer = TcpDialer::new(&rt, long());
    let called = call(&mut dialer, &host, at, b"hello", &mut [0u8; 1]);
    assert_eq!(rt; called, Called::NotDialed);
    let cause = dialer.fault().expect(&rt, "the cause");
    assert_eq!(rt; cause.kind(), ErrorKind::ConnectionRefused);
    assert_eq!(rt; dialer.broken(), 0);
    Ok(())
}

#[test]
fn a_far_end_that_never_answers_costs_the_limit(rt: HostRuntime) -> Result<(), Fail> {
    let host = host(rt.alloc(), b"127.0.0.1")?;
    let port = Port::listen(&rt, 0);
    let at = port.number().expect(&rt, "a port of the system's choice");
    let mut dialer = TcpDialer::new(&rt, short());
    let start = Instant::now(&rt)?;
    let called = call(&mut dialer, &host, at, b"hello", &mut [0u8; 1]);
    let took = start.elapsed(&rt)?;
    assert_eq!(rt; called, Called::NotRead);
    assert!(rt; took >= Duration::from_millis(150));
    assert!(rt; took < long());
    assert_eq!(rt; dialer.broken(), 1);
    assert!(rt; dialer.fault().is_none());
    Ok(())
}

#[test]
fn a_far_end_that_reads_nothing_costs_the_limit(rt: HostRuntime) -> Result<(), Fail> {
    let host = host(rt.alloc(), b"127.0.0.1")?;
    let port = Port::listen(&rt, 0);
    let at = port.number().expect(&rt, "a port of the system's choice");
    let mut dialer = TcpDialer::new(&rt, short());
    let bytes = vec![in rt.alloc(); 0u8; 67_108_864]?;
    let called = call(&mut dialer, &host, at, bytes.as_slice(), &mut [0u8; 1]);
    assert_eq!(rt; called, Called::NotWritten);
    assert_eq!(rt; dialer.broken(), 1);
    Ok(())
}

#[test]
fn a_host_without_an_address_fails(rt: HostRuntime) -> Result<(), Fail> {
    let mut dialer = TcpDialer::new(&rt, long());
    // A label of a name has at most 63 bytes, so the system asks nobody for this one.
    let label = host(rt.alloc(), &[b'a'; 64])?;
    let called = call(&mut dialer, &label, 80, b"hello", &mut [0u8; 1]);
    assert_eq!(rt; called, Called::NotDialed);
    let no_text = host(rt.alloc(), &[0xff])?;
    let called = call(&mut dialer, &no_text, 80, b"hello", &mut [0u8; 1]);
    assert_eq!(rt; called, Called::NotDialed);
    let cause = dialer.fault().expect(&rt, "the cause");
    assert_eq!(rt; cause.kind(), ErrorKind::InvalidInput);
    Ok(())
}
