//! Where connections come from.
ghost use Rattle.std.specs.Prelude.{◌<◌, IfOk, IfSome, IfNone, OnErr};
ghost use Rattle.ph_io.specs.Gates.{GateState, IsFresh, Gives, GateEnds, GateFails, TakesBack, return_of};

use crate::duplex::Duplex;
use crate::end::End;

/// A `next` that failed. It handed out no connection, and its gate counted it.
#[derive(Clone, Copy, Debug, PartialEq, Eq)]
pub struct GateFailed;

/// A gate gives connections one after another, and takes each back when its session has ended.
///
/// A `Conn` needn't be `Drop`, so code over any gate can't let one go but by handing it back.
pub trait Gate {
    /// A connection of it.
    type Conn: Duplex;

    /// What it tells of itself.
    ghost gate: { Self → GateState };

    /// The next connection, of which nothing was read and to which nothing was written, or `None`
    /// where there are no more.
    fn next(&mut self) -> Result<Option<Self::Conn>, GateFailed>
        ensures gives { IfOk result (λ next. IfSome next (λ _.
            Gives (gate self.old) (gate self.new))) }
        ensures fresh { IfOk result (λ next. IfSome next (λ conn.
            IsFresh (Self.Conn.source conn) (Self.Conn.sink conn))) }
        ensures ends { IfOk result (λ next. IfNone next (GateEnds (gate self.old) (gate self.new))) }

        ensures fails { OnErr result (GateFails (gate self.old) (gate self.new)) };

    /// Takes back a connection whose session ended so, and keeps what became of it where the gate
    /// tells that. It never fails and takes no memory.
    fn back(&mut self, conn: Self::Conn, end: End)
        requires { 0 < (gate self.old).out }
        ensures { TakesBack (gate self.old) (gate self.new)
            (return_of (Self.Conn.source conn) (Self.Conn.sink conn) end) };
}
