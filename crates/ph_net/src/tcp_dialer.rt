//! A dialer over TCP.
ghost use Rattle.std.specs.Prelude.{◌≡◌, ◌+◌, ◌-◌, ◌^◌, ◌<◌, min, ◌==◌, is_none, None, IfOk, IsErr, OnErr};
ghost use Rattle.std.specs.Duration.{as_nanos};
ghost use Rattle.ph_io.specs.Gates.{IsFresh};
ghost use Rattle.ph_dial.specs.Dialers.{LeadsTo, Dials, DialFails, HangsUp, dialed_of};
ghost use Rattle.ph_net.specs.Forms.{unused};
ghost use Rattle.ph_net.specs.Dialers.{undialed, told_by_dialer, timed_source_of, timed_sink_of, IsLimited, IsNameOf};

use crate::timed_duplex::TimedDuplex;
use ph_base::Bytes;
use ph_dial::{DialFailed, Dialer};
use std::io;
use std::io::ErrorKind;
use std::marker::Model;
use std::net::{Net, TcpStream, ToSocketAddrs};
use std::time::Duration;

/// Opens connections over TCP within a limit of time, each of whose reads and writes has that limit
/// too, and closes each that comes back. A host is an IP address, an IPv6 one also in brackets, or a
/// name that the system looks up; each of its addresses has an equal part of the limit. The limit
/// isn't that of the look-up, which the system has its own for. It takes no memory.
///
/// A dial fails where the host has no address, where none of its addresses takes the connection in
/// time, and where a limit can't be set; the cause of the last failure is kept.
#[derive(Drop)]
pub struct TcpDialer<'a, R: Net<Stream = TcpStream>> {
    rt: &'a R,
    limit: Duration,
    dials: u64,
    out: u64,
    broken: u64,
    faults: u64,
    fault: Option<io::Error>,
}

impl<'a, R: Net<Stream = TcpStream>> Model for TcpDialer<'a, R> {
    ghost use Rattle.std.specs.Prelude.{◌≡◌, ◌==◌, is_none};
    ghost use Rattle.std.specs.Duration.{as_nanos};
    ghost use Rattle.ph_net.specs.Dialers.{TcpDialerState};

    ghost Value = { TcpDialerState };

    ghost view = { λ d. record {
      limit = as_nanos d.limit;
      dials = d.dials;
      out = d.out;
      broken = d.broken;
      faults = d.faults;
    } };

    ghost invariant = { λ d. is_none d.fault ≡ (d.faults == 0) };
}

impl<'a, R: Net<Stream = TcpStream>> TcpDialer<'a, R> {
    /// A dialer whose dials, reads and writes have this limit. With a limit of no time each dial
    /// fails.
    pub fn new(rt: &'a R, limit: Duration) -> TcpDialer<'a, R>
        ensures { result ≡ undialed (as_nanos limit) }
    {
        TcpDialer {
            rt,
            limit,
            dials: 0,
            out: 0,
            broken: 0,
            faults: 0,
            fault: None,
        }
    }

    /// Why the last dial that failed did, where one did.
    pub fn fault(&self) -> Option<io::Error>
        ensures { is_none result ≡ (self.now.faults == 0) }
    {
        self.fault
    }

    /// How many of the connections that came back were broken: a read or a write of them failed.
    pub fn broken(&self) -> u64
        ensures { result ≡ self.now.broken }
    {
        self.broken
    }

    // A dial that failed for this cause, which is kept and counted.
    fn fails(&mut self, fault: io::Error) -> DialFailed
        ensures { self.new ≡ record self.old { faults = min (self.old.faults + 1) (2 ^ 64 - 1) } }
    {
        self.fault = Some(fault);
        self.faults = self.faults.saturating_add(1);
        DialFailed
    }
}

impl<'a, R: Net<Stream = TcpStream>> Dialer for TcpDialer<'a, R> {
    type Conn = TimedDuplex;

    ghost dialer = { λ d. told_by_dialer d };

    fn dial(&mut self, host: &Bytes, port: u16) -> Result<TimedDuplex, DialFailed>
        ensures dials { IfOk result (λ _. Dials (told_by_dialer self.old) (told_by_dialer self.new)) }
        ensures fresh { IfOk result (λ conn. IsFresh (timed_source_of conn) (timed_sink_of conn)) }
        ensures leads { IfOk result (λ conn.
            LeadsTo (told_by_dialer self.old).calls None host.now port) }
        ensures fails { OnErr result (DialFails (told_by_dialer self.old) (told_by_dialer self.new)) }

        ensures port { IfOk result (λ conn. conn.port ≡ port) }
        ensures limited { IfOk result (λ conn. IsLimited conn self.old.limit) }
        ensures no_time { self.old.limit ≡ 0 → IsErr result }
        ensures dialed { self.new.dials ≡ min (self.old.dials + 1) (2 ^ 64 - 1) }
        ensures limit { self.new.limit ≡ self.old.limit }
    {
        self.dials = self.dials.saturating_add(1);
        let Some(out) = self.out.checked_add(1) else {
            return Err(self.fails(io::Error::from(ErrorKind::QuotaExceeded)));
        };
        match call(self.rt, host, port, self.limit) {
            Ok(conn) => {
                self.out = out;
                Ok(conn)
            }
            Err(fault) => Err(self.fails(fault)),
        }
    }

    /// Closes the connection.
    fn back(&mut self, conn: TimedDuplex)
        requires { 0 < (told_by_dialer self.old).out }
        ensures back { HangsUp (told_by_dialer self.old) (told_by_dialer self.new)
            (dialed_of None (timed_source_of conn) (timed_sink_of conn)) }

        ensures dialed { self.new.dials ≡ self.old.dials }
        ensures limit { self.new.limit ≡ self.old.limit }
    {
        self.out -= 1;
        if conn.has_failed() {
            self.broken = self.broken.saturating_add(1);
        }
        drop(conn);
    }
}

// A connection to this host and port. One that the system says to lead to another port is closed.
fn call<R: Net<Stream = TcpStream>>(
    rt: &R,
    host: &Bytes,
    port: u16,
    limit: Duration,
) -> io::Result<TimedDuplex>
    ensures unused { IfOk result (λ conn. conn.conn ≡ unused) }
    ensures port { IfOk result (λ conn. conn.port ≡ port) }
    ensures limited { IfOk result (λ conn. IsLimited conn (as_nanos limit)) }
    ensures no_time { as_nanos limit ≡ 0 → IsErr result }
{
    let stream = connect(rt, name_of(host)?, port, limit)?;
    let conn = TimedDuplex::new(stream, limit)?;
    if conn.port() == port {
        Ok(conn)
    } else {
        Err(io::Error::from(ErrorKind::AddrNotAvailable))
    }
}

// The name that a host is looked up by: an IPv6 address stands in brackets, as in a URL.
fn name_of(host: &Bytes) -> io::Result<&str>
    ensures { IfOk result (λ name. IsNameOf name.now host.now) }
{
    let name = match host.as_slice() {
        [b'[', name @ .., b']'] => name,
        name => name,
    };
    match str::from_utf8(name) {
        Ok(name) => Ok(name),
        Err(_) => Err(io::Error::from(ErrorKind::InvalidInput)),
    }
}

// Tries each address of the host in turn, each for an equal part of the limit, and answers the last
// fault where none takes a connection.
fn connect<R: Net<Stream = TcpStream>>(
    rt: &R,
    name: &str,
    port: u16,
    limit: Duration,
) -> io::Result<TcpStream> {
    let addresses = (name, port).to_socket_addrs(rt)?;
    let count = u32::try_from(addresses.len()).unwrap_or(u32::MAX);
    let part = limit.checked_div(count).unwrap_or(limit);
    let mut last = io::Error::from(ErrorKind::NotFound);
    for address in addresses {
        match TcpStream::connect_timeout(rt, &address, part) {
            Ok(stream) => return Ok(stream),
            Err(fault) => last = fault,
        }
    }
    Err(last)
}
