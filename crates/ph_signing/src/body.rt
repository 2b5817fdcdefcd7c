//! Reading a body to its end.
ghost use Rattle.ph_signing.specs.Bodies.{Gathers};

use ph_base::Bytes;
use ph_io::Source;
use std::alloc::Global;

// How many bytes a body has at most.
const LIMIT: usize = 65_536;

/// Why there is no body.
#[derive(Clone, Copy, Debug, PartialEq, Eq)]
pub enum BodyFault {
    /// The input has more than 65,536 bytes.
    TooLong,
    /// A read failed.
    ReadFault,
    /// There was no memory.
    NoMemory,
}

/// All that the input gives up to its end, at most 65,536 bytes.
pub fn gather<S: Source>(alloc: Global, input: &mut S) -> Result<Bytes, BodyFault>
    ensures { Gathers (S.source input.old) (S.source input.new) result }
{
    let mut body = Vec::new(alloc);
    let mut room = [0u8; 4096];
    'reads: while body.len() <= LIMIT {
        match input.read(&mut room) {
            Ok(0) => return Ok(Bytes::new(body)),
            Ok(n) => match body.extend_from_slice(&room[..n]) {
                Ok(()) => {}
                Err(_) => return Err(BodyFault::NoMemory),
            },
            Err(_) => return Err(BodyFault::ReadFault),
        }
    }
    Err(BodyFault::TooLong)
}
