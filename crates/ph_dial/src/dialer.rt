//! What opens connections.
ghost use Rattle.std.specs.Prelude.{◌<◌, IfOk, OnErr};
ghost use Rattle.ph_io.specs.Gates.{IsFresh};
ghost use Rattle.ph_dial.specs.Dialers.{DialerState, LeadsTo, Dials, DialFails, HangsUp, dialed_of};

use ph_base::Bytes;
use ph_io::Duplex;

/// A `dial` that failed. It opened no connection, and its dialer counted it.
#[derive(Clone, Copy, Debug, PartialEq, Eq)]
pub struct DialFailed;

/// A dialer opens connections to far ends, and takes each back after its use. It counts the dials
/// that failed and the connections of which a read or a write failed, in counts that never fall.
///
/// A `Conn` needn't be `Drop`, so code over any dialer can't let one go but by handing it back.
pub trait Dialer {
    /// A connection of it.
    type Conn: Duplex;

    /// What it tells of itself.
    ghost dialer: { Self → DialerState };

    /// Opens a connection to this host and port, of which nothing was read and to which nothing was
    /// written.
    fn dial(&mut self, host: &Bytes, port: u16) -> Result<Self::Conn, DialFailed>
        ensures dials { IfOk result (λ _. Dials (dialer self.old) (dialer self.new)) }
        ensures fresh { IfOk result (λ conn.
            IsFresh (Self.Conn.source conn) (Self.Conn.sink conn)) }
        ensures leads { IfOk result (λ conn.
            LeadsTo (dialer self.old).calls (Self.Conn.address conn) host.now port) }

        ensures fails { OnErr result (DialFails (dialer self.old) (dialer self.new)) };

    /// Takes back a connection after its use, and keeps what became of it where the dialer tells
    /// that. It never fails and takes no memory.
    fn back(&mut self, conn: Self::Conn)
        requires { 0 < (dialer self.old).out }
        ensures { HangsUp (dialer self.old) (dialer self.new)
            (dialed_of (Self.Conn.address conn) (Self.Conn.source conn) (Self.Conn.sink conn)) };
}
