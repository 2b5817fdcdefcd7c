//! A gate over TCP.
ghost use Rattle.std.specs.Prelude.{◌≡◌, ◌≤◌, false, ◌==◌, IsErr, IfOk, IfSome, IfNone, OnErr, is_none};
ghost use Rattle.ph_io.specs.Gates.{IsFresh, Gives, GateEnds, GateFails};
ghost use Rattle.ph_net.specs.Forms.{unopened, told_by_gate, source_of, sink_of};

use crate::port::Port;
use crate::tcp_duplex::TcpDuplex;
use ph_io::{End, Gate, GateFailed};
use std::io;
use std::marker::Model;

/// Hands out at most so many connections of a port that other gates share, and closes each that
/// comes back. A call fails where the port isn't listened on, and where the system refuses a
/// connection; the cause of the last failure is kept.
#[derive(Drop)]
pub struct TcpGate<'a> {
    port: &'a Port,
    most: u32,
    given: u32,
    out: u32,
    ended: bool,
    faults: u64,
    fault: Option<io::Error>,
}

impl<'a> Model for TcpGate<'a> {
    ghost use Rattle.std.specs.Prelude.{◌≡◌, ◌≤◌, ◌==◌, is_none};
    ghost use Rattle.ph_net.specs.Forms.{TcpGateState};

    ghost Value = { TcpGateState };

    ghost view = { λ g. record {
      listens = g.port.now;
      most = g.most;
      given = g.given;
      out = g.out;
      ended = g.ended;
      faults = g.faults;
    } };

    ghost invariant = { λ g. (g.given ≤ g.most) × (g.out ≤ g.given)
        × (is_none g.fault ≡ (g.faults == 0)) };
}

impl<'a> TcpGate<'a> {
    /// A gate of this port that hands out at most so many connections.
    pub fn new(port: &'a Port, most: u32) -> TcpGate<'a>
        ensures { result ≡ unopened port.now most }
    {
        TcpGate {
            port,
            most,
            given: 0,
            out: 0,
            ended: false,
            faults: 0,
            fault: None,
        }
    }

    /// Why the last call that failed did, where one did.
    pub fn fault(&self) -> Option<io::Error>
        ensures { is_none result ≡ (self.now.faults == 0) }
    {
        self.fault
    }
}

impl<'a> Gate for TcpGate<'a> {
    type Conn = TcpDuplex;

    ghost gate = { told_by_gate };

    fn next(&mut self) -> Result<Option<TcpDuplex>, GateFailed>
        ensures gives { IfOk result (λ next. IfSome next (λ _.
            Gives (told_by_gate self.old) (told_by_gate self.new))) }
        ensures fresh { IfOk result (λ next. IfSome next (λ conn.
            IsFresh (source_of conn) (sink_of conn))) }
        ensures ends { IfOk result (λ next. IfNone next
            (GateEnds (told_by_gate self.old) (told_by_gate self.new))) }
        ensures fails { OnErr result (GateFails (told_by_gate self.old) (told_by_gate self.new)) }

        ensures within { self.new.given ≤ self.new.most }
        ensures none { IfOk result (λ next. is_none next ≡ (self.old.given == self.old.most)) }
        ensures unheard { self.old.listens ≡ false → IsErr result }
        ensures listens { self.new.listens ≡ self.old.listens }
        ensures most { self.new.most ≡ self.old.most }
    {
        self.ended = false;
        if self.given == self.most && self.port.fault().is_none() {
            self.ended = true;
            return Ok(None);
        }
        match self.port.accept() {
            Ok(stream) => {
                self.given += 1;
                self.out += 1;
                Ok(Some(TcpDuplex::new(stream)))
            }
            Err(fault) => {
                self.fault = Some(fault);
                self.faults = self.faults.saturating_add(1);
                Err(GateFailed)
            }
        }
    }

    /// Closes the connection.
    fn back(&mut self, conn: TcpDuplex, _: End) {
        self.out -= 1;
        drop(conn);
    }
}
