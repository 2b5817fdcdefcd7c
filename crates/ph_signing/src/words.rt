//! The numbers among the words.
ghost use Rattle.std.specs.Prelude.{◌≡◌};
ghost use Rattle.ph_base.specs.Numbers.{number_in};
ghost use Rattle.ph_signing.specs.Words as spec;
ghost use Rattle.ph_signing.specs.Words.{shown};

use ph_base::read_number;
use ph_items::CLOCK_LIMIT;

/// When a header is judged, and with which tolerance, in seconds.
#[derive(Clone, Copy, Debug, PartialEq, Eq)]
pub struct Times {
    /// The moment, in seconds since 1970.
    pub now: u64,
    /// How many seconds old a signature may be.
    pub tolerance: u64,
}

// The moment that a word is, in decimal seconds since 1970, where a clock shows it.
fn moment(word: &[u8]) -> Option<u64>
    ensures { result ≡ shown (number_in word.now) }
{
    let moment = read_number(word)?;
    if moment <= CLOCK_LIMIT {
        Some(moment)
    } else {
        None
    }
}

/// The moment of a `sign`, where the command is that and its moment is one that a clock shows.
pub fn sign_moment(word: &[u8], t: &[u8]) -> Option<u64>
    ensures { result ≡ spec.sign_moment word.now t.now }
{
    if word == b"sign".as_slice() {
        moment(t)
    } else {
        None
    }
}

/// The moment and the tolerance of a `verify`, where the command is that and both are numbers.
pub fn verify_times(word: &[u8], now: &[u8], tolerance: &[u8]) -> Option<Times>
    ensures { result ≡ spec.verify_times word.now now.now tolerance.now }
{
    if word != b"verify".as_slice() {
        return None;
    }
    let now = read_number(now)?;
    let tolerance = read_number(tolerance)?;
    Some(Times { now, tolerance })
}
