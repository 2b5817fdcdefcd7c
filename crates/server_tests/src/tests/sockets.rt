//! A server over loopback, and its clients in other threads.
ghost use Rattle.std.specs.Prelude.{◌≡◌, None};

use super::words::{CREATE, INTENT, words};
use ph_bank::{SimAcquirer, Turns};
use ph_base::Bytes;
use ph_book::Book;
use ph_host::{Worker, run_host};
use ph_io::MemSink;
use ph_net::{Port, TcpGate};
use std::alloc::Global;
use std::io;
use std::io::{Read, Write};
use std::net::{Net, TcpListener, TcpStream};
use std::sync::Wait;
use std::test::Fail;
use std::thread::{Threads, for_each_mut, join};

// Sends these bytes to a server and reads as many as there is room for.
fn ask(stream: &mut TcpStream, bytes: &[u8], room: &mut [u8]) -> io::Result<()> {
    stream.write_all(bytes)?;
    stream.read_exact(room)
}

// Whether this is the reply to a create, whatever the number of its payment intent, which stands in its secret and as its id.
fn is_intent(reply: &[u8; 575]) -> bool {
    reply[..235] == INTENT[..235]
        && reply[235..251] == reply[334..350]
        && reply[251..334] == INTENT[251..334]
        && reply[350..] == INTENT[350..]
}

// One client: so many creates over one connection. Answers how many were answered by a payment intent of a number above
// that of the one before it.
fn client<R: Net<Listener = TcpListener, Stream = TcpStream>>(
    rt: &R,
    port: u16,
    requests: u32,
) -> io::Result<u32> {
    let mut stream = TcpStream::connect(rt, ("127.0.0.1", port))?;
    let mut good = 0u32;
    let mut last = [b'0'; 16];
    for _ in 0..requests {
        let mut room = [0u8; 575];
        ask(&mut stream, CREATE, &mut room)?;
        let number = &room[334..350];
        if is_intent(&room) && number > last.as_slice() {
            good = good.saturating_add(1);
        }
        last.copy_from_slice(number);
    }
    Ok(good)
}

// A worker of this port that serves one connection.
fn worker(port: &Port) -> Worker<TcpGate<'_>, SimAcquirer, Turns, Book>
    ensures { (result.pass ≡ None) × (result.last ≡ None) }
{
    Worker::new(port.gate(1), SimAcquirer::new(), Turns::new(0))
}

// A server of one worker, for one connection.
fn serve_one<R: Threads + Wait + Sync>(
    rt: &R,
    alloc: Global,
    words: &[Bytes],
    port: &Port,
    output: &mut MemSink,
) -> u8 {
    let mut workers = [worker(port)];
    run_host(rt, alloc, words, &mut workers, output).0
}

// A server of sixteen workers, for one connection each.
fn serve_sixteen<R: Threads + Wait + Sync>(
    rt: &R,
    alloc: Global,
    words: &[Bytes],
    port: &Port,
    output: &mut MemSink,
) -> u8 {
    let mut workers = [
        worker(port),
        worker(port),
        worker(port),
        worker(port),
        worker(port),
        worker(port),
        worker(port),
        worker(port),
        worker(port),
        worker(port),
        worker(port),
        worker(port),
        worker(port),
        worker(port),
        worker(port),
        worker(port),
    ];
    run_host(rt, alloc, words, &mut workers, output).0
}

// One request over a connection of its own.
fn ask_once<R: Net<Listener = TcpListener, Stream = TcpStream>>(
    rt: &R,
    port: u16,
    bytes: &[u8],
    room: &mut [u8],
) -> io::Result<()> {
    let mut stream = TcpStream::connect(rt, ("127.0.0.1", port))?;
    ask(&mut stream, bytes, room)
}

#[test]
fn a_create_is_answered_over_loopback(rt: HostRuntime) -> Result<(), Fail> {
    let alloc = rt.alloc();
    let words = words(alloc, b"1")?;
    let port = Port::listen(&rt, 0);
    let number = port.number().expect(&rt, "a port of the system's choice");
    let mut output = MemSink::new(alloc, 4096, Vec::new(alloc));
    let mut room = [0u8; 575];
    let (served, asked) = join(
        &rt,
        || serve_one(&rt, alloc, words.as_slice(), &port, &mut output),
        || ask_once(&rt, number, CREATE, &mut room),
    );
    assert_eq!(rt; served, 0);
    asked?;
    assert_eq!(rt; room[..], *INTENT);
    assert!(rt; output.bytes().starts_with(b"entries 1\ncalls 1\n"));
    Ok(())
}

// So many clients at once, each with fifty requests over a connection of its own. Writes how many of them were answered.
fn clients<R: Net<Listener = TcpListener, Stream = TcpStream> + Threads + Sync>(
    rt: &R,
    port: u16,
    good: &mut [u32],
) {
    for_each_mut(
        rt,
        good,
        16,
        &|_, good| { *good = client(rt, port, 50).unwrap_or(0) },
    );
}

#[test]
fn sixteen_clients_send_fifty_requests_each(rt: HostRuntime) -> Result<(), Fail> {
    let alloc = rt.alloc();
    let words = words(alloc, b"16")?;
    let port = Port::listen(&rt, 0);
    let number = port.number().expect(&rt, "a port of the system's choice");
    let mut output = MemSink::new(alloc, 4096, Vec::new(alloc));
    let mut good = [0u32; 16];
    let (served, _) = join(
        &rt,
        || serve_sixteen(&rt, alloc, words.as_slice(), &port, &mut output),
        || clients(&rt, number, &mut good),
    );
    assert_eq!(rt; served, 0);
    assert_eq!(rt; good, [50; 16]);
    assert_eq!(rt;
        output.bytes(),
        b"entries 800\ncalls 800\nattempts 0\napproved 0\nrows 1601\nevents 800\n".as_slice()
    );
    Ok(())
}
