//! What bytes are written to.
ghost use Rattle.std.specs.Prelude.{◌≡◌, ◌<◌, ◌≤◌, length, take, IfOk, OnErr};
ghost use Rattle.ph_io.specs.Told.{SinkState, BesideSink, lone_sink};
ghost use Rattle.ph_io.specs.Writes.{Takes, WriteFails};

/// A write that failed. It wrote no bytes, and its sink counted it.
#[derive(Clone, Copy, Debug, PartialEq, Eq)]
pub struct WriteFailed;

/// A sink of bytes, which counts its faults in a count that never falls.
pub trait Sink {
    /// What it tells of itself.
    ghost sink: { Self → SinkState };

    /// What it tells beside its sink, where it is more than one: its source and its address.
    ghost beside_sink: { Self → BesideSink } = { λ _. lone_sink };

    /// Writes bytes from the front of `piece`, at least one and at most all, and answers how many.
    fn write(&mut self, piece: &[u8]) -> Result<usize, WriteFailed>
        requires { 0 < length piece.now }

        ensures some { IfOk result (λ n. 0 < n) }
        ensures within { IfOk result (λ n. n ≤ length piece.now) }
        ensures takes { IfOk result (λ n.
            Takes (sink self.old) (sink self.new) (take n piece.now)) }

        ensures fails { OnErr result (WriteFails (sink self.old) (sink self.new)) }

        ensures beside { beside_sink self.new ≡ beside_sink self.old };
}
