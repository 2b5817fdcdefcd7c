//! A source and a sink in one.
ghost use Rattle.std.specs.Prelude.{◌≡◌, Option};
ghost use Rattle.ph_io.specs.declared.address.Address.{Address};

use crate::sink::Sink;
use crate::source::Source;

/// A connection: bytes are read from it and written to it, each for itself. A read leaves what is
/// told of its sink, and a write what is told of its source. It may tell where it leads to, and
/// neither changes that.
pub trait Duplex: Source + Sink {
    /// The host and the port that it leads to, where it tells them.
    ghost address: { Self → Option Address };

    /// Beside its source stand its sink and its address, which a read so keeps.
    ghost read_keeps: { (conn : Self) → Self.beside_source conn ≡
        record { sink = Self.sink conn; address = address conn } };

    /// Beside its sink stand its source and its address, which a write so keeps.
    ghost write_keeps: { (conn : Self) → Self.beside_sink conn ≡
        record { source = Self.source conn; address = address conn } };
}
