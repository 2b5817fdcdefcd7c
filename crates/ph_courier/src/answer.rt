//! Reading the answer of a far end.
ghost use Rattle.std.specs.Prelude.{◌≡◌};
ghost use Rattle.ph_courier.specs.Listens.{Listens};

use crate::heard::{outcome, status};
use ph_delivery::Outcome;
use ph_io::Source;

// How many bytes of an answer are looked at.
const LIMIT: usize = 16_384;

/// Reads an answer until its head is there, or it ends, or 16,384 bytes of it are there, and says what
/// it says. `Unreached` comes only where a read failed. It takes no memory.
pub fn listen<S: Source>(source: &mut S) -> Outcome
    ensures heard { Listens (S.source source.old) (S.source source.new) result }
    ensures beside { S.beside_source source.new ≡ S.beside_source source.old }
{
    let mut room = [0u8; LIMIT];
    let mut at = 0;
    'reads: while at < LIMIT {
        if let Some(code) = status(&room[..at]) {
            return outcome(code);
        }
        match source.read(&mut room[at..]) {
            Ok(0) => return Outcome::Refused(0),
            Ok(n) => at += n,
            Err(_) => return Outcome::Unreached,
        }
    }
    match status(&room) {
        Some(code) => outcome(code),
        None => Outcome::Refused(0),
    }
}
