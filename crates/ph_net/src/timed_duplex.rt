//! A connection over TCP whose calls have a limit of time.
ghost use Rattle.std.specs.Prelude.{◌≡◌, ◌<◌, ◌≤◌, ◌+◌, length, take, refl, None, IfOk, IsErr, OnErr};
ghost use Rattle.std.specs.Duration.{as_nanos};
ghost use Rattle.ph_io.specs.Reads.{Moves, Ends, ReadFails};
ghost use Rattle.ph_io.specs.Writes.{Takes, WriteFails};
ghost use Rattle.ph_net.specs.Forms.{unused, has_failed};
ghost use Rattle.ph_net.specs.Dialers.{timed_source_of, timed_sink_of, beside_timed_source, beside_timed_sink, tick, IsLimited, Stays};

use crate::tcp_duplex::TcpDuplex;
use ph_io::{Duplex, ReadFailed, Sink, Source, WriteFailed};
use std::io;
use std::io::ErrorKind;
use std::marker::Model;
use std::net::TcpStream;
use std::time::Duration;

/// A stream of TCP of which no read and no write waits longer than a limit. One that runs into it
/// fails and is counted, as any other that fails. The limit is that of one call: a far end that sends
/// a byte within each may keep its reader as long as it sends.
///
/// It tells the port of its far end and its limits as the system tells them, no content and no
/// address. Dropping it closes it.
#[derive(Drop)]
pub struct TimedDuplex {
    conn: TcpDuplex,
    port: u16,
    read_limit: Duration,
    write_limit: Duration,
}

impl Model for TimedDuplex {
    ghost use Rattle.std.specs.Duration.{as_nanos};
    ghost use Rattle.ph_net.specs.Dialers.{TimedDuplexState};

    ghost Value = { TimedDuplexState };

    ghost view = { λ d. record {
      conn = d.conn;
      port = d.port;
      read_limit = as_nanos d.read_limit;
      write_limit = as_nanos d.write_limit;
    } };
}

impl TimedDuplex {
    /// A connection over this stream, whose reads and writes have this limit, which the system may
    /// round up to a hundredth of a second more. It sends each write at once (TCP_NODELAY). Where one
    /// of these can't be set, or the system doesn't tell that it is, the stream is closed; a limit of
    /// no time can't be set.
    pub fn new(stream: TcpStream, limit: Duration) -> io::Result<Self>
        ensures unused { IfOk result (λ conn. conn.conn ≡ unused) }
        ensures limited { IfOk result (λ conn. IsLimited conn (as_nanos limit)) }
        ensures no_time { as_nanos limit ≡ 0 → IsErr result }
    {
        stream.set_nodelay(true)?;
        let read_limit = limit_reads(&stream, limit)?;
        let write_limit = limit_writes(&stream, limit)?;
        let port = stream.peer_addr()?.port();
        Ok(TimedDuplex {
            conn: TcpDuplex::new(stream),
            port,
            read_limit,
            write_limit,
        })
    }

    /// The port of its far end.
    pub fn port(&self) -> u16
        ensures { result ≡ self.now.port }
    {
        self.port
    }

    /// Whether a read or a write of it failed.
    pub fn has_failed(&self) -> bool
        ensures { result ≡ has_failed self.now.conn }
    {
        self.conn.has_failed()
    }
}

// Gives the reads of a stream this limit, and answers the one that the system then tells.
fn limit_reads(stream: &TcpStream, limit: Duration) -> io::Result<Duration>
    ensures within { IfOk result (λ told. as_nanos told ≤ as_nanos limit + tick) }
    ensures no_time { as_nanos limit ≡ 0 → IsErr result }
{
    stream.set_read_timeout(Some(limit))?;
    within(stream.read_timeout()?, limit)
}

// Gives the writes of a stream this limit, and answers the one that the system then tells.
fn limit_writes(stream: &TcpStream, limit: Duration) -> io::Result<Duration>
    ensures within { IfOk result (λ told. as_nanos told ≤ as_nanos limit + tick) }
    ensures no_time { as_nanos limit ≡ 0 → IsErr result }
{
    stream.set_write_timeout(Some(limit))?;
    within(stream.write_timeout()?, limit)
}

// The limit that the system tells, where it is the one that was set, to a tick of its clock.
fn within(told: Option<Duration>, limit: Duration) -> io::Result<Duration>
    ensures { IfOk result (λ told. as_nanos told ≤ as_nanos limit + tick) }
{
    let most = limit.saturating_add(Duration::from_millis(10));
    match told {
        Some(told) if told <= most => Ok(told),
        _ => Err(io::Error::from(ErrorKind::Unsupported)),
    }
}

impl Source for TimedDuplex {
    ghost source = { timed_source_of };

    ghost beside_source = { beside_timed_source };

    fn read(&mut self, room: &mut [u8]) -> Result<usize, ReadFailed>
        requires { 0 < length room.old }

        ensures within { IfOk result (λ n. n ≤ length room.old) }
        ensures moves { IfOk result (λ n. 0 < n →
            Moves (timed_source_of self.old) (timed_source_of self.new) (take n room.new)) }
        ensures ends { IfOk result (λ n. n ≡ 0 →
            Ends (timed_source_of self.old) (timed_source_of self.new)) }
        ensures fails { OnErr result (ReadFails (timed_source_of self.old) (timed_source_of self.new)) }
        ensures beside { beside_timed_source self.new ≡ beside_timed_source self.old }

        ensures stays { Stays self.old self.new }
    {
        self.conn.read(room)
    }
}

impl Sink for TimedDuplex {
    ghost sink = { timed_sink_of };

    ghost beside_sink = { beside_timed_sink };

    fn write(&mut self, piece: &[u8]) -> Result<usize, WriteFailed>
        requires { 0 < length piece.now }

        ensures some { IfOk result (λ n. 0 < n) }
        ensures within { IfOk result (λ n. n ≤ length piece.now) }
        ensures takes { IfOk result (λ n.
            Takes (timed_sink_of self.old) (timed_sink_of self.new) (take n piece.now)) }
        ensures fails { OnErr result (WriteFails (timed_sink_of self.old) (timed_sink_of self.new)) }
        ensures beside { beside_timed_sink self.new ≡ beside_timed_sink self.old }

        ensures stays { Stays self.old self.new }
    {
        self.conn.write(piece)
    }
}

impl Duplex for TimedDuplex {
    ghost address = { λ _. None };

    ghost read_keeps = { λ _. refl };

    ghost write_keeps = { λ _. refl };
}
