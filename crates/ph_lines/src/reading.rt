//! The fields of a line, read from the left. A reader is given what is left of the line, behind a space, and gives what
//! is left behind its field; none is left behind the last one.
ghost use Rattle.std.specs.Prelude.{◌≡◌, ◌==◌, ◌∷◌, length, position};
ghost use Rattle.std.specs.List.{slice_split};
ghost use Rattle.std.specs.Option.{option_copied};
ghost use Rattle.ph_lines.specs.Reading.{Gives, bytes_at, field_at, fields_left, flag_at, flag_of, hex_of, is_space, number_at, number_of, octets_at, octets_of};

use hex::FromHexError;
use itoa::Buffer;
use ph_base::{Bytes, NoMemory, read_number};
use std::alloc::{AllocError, Global};

/// Why a line wasn't read.
#[derive(Clone, Copy, Debug, PartialEq, Eq)]
pub enum Unread {
    /// It isn't of the form.
    Form,
    /// There was no memory for what it says.
    NoMemory,
}

impl From<AllocError> for Unread {
    ghost use Rattle.std.specs.Prelude.{◌≡◌};
    ghost use Rattle.ph_lines.specs.declared.reading.Unread.TheVariants as unread;

    ghost from_gives = { λ _ e. e ≡ unread.NoMemory };

    fn from(_: AllocError) -> Self {
        Unread::NoMemory
    }
}

impl From<NoMemory> for Unread {
    ghost use Rattle.std.specs.Prelude.{◌≡◌};
    ghost use Rattle.ph_lines.specs.declared.reading.Unread.TheVariants as unread;

    ghost from_gives = { λ _ e. e ≡ unread.NoMemory };

    fn from(_: NoMemory) -> Self {
        Unread::NoMemory
    }
}

// Where the first space is.
fn space(line: &[u8]) -> Option<usize>
    ensures { result ≡ position is_space line.now }
{
    line.iter().position(|b| *b == b' ')
}

// The first field of a line, and what is left behind it.
#[tactic(auto, using(crate::proofs::SplitLemmas::cut_found, crate::proofs::SplitLemmas::cut_none))]
fn cut(line: &[u8]) -> (&[u8], Option<&[u8]>)
    ensures { slice_split is_space line.now ≡ result.0.now ∷ fields_left (option_copied result.1) }
{
    match space(line) {
        Some(at) => (&line[..at], Some(&line[at + 1..])),
        None => (line, None),
    }
}

/// The next field as it stands.
pub fn word(rest: Option<&[u8]>) -> Result<(&[u8], Option<&[u8]>), Unread>
    ensures { Gives (λ x. (x.0.now, fields_left (option_copied x.1))) result (field_at (fields_left (option_copied rest.entry))) }
{
    match rest {
        Some(line) => Ok(cut(line)),
        None => Err(Unread::Form),
    }
}

// The number that a field is.
#[tactic(auto, unfolding(crate::specs::Reading::number_of))]
fn number_in(word: &[u8]) -> Result<u64, Unread>
    ensures { Gives (λ n. n) result (number_of word.now) }
{
    let Some(number) = read_number(word) else {
        return Err(Unread::Form);
    };
    if Buffer::new().format(number).as_bytes() == word {
        Ok(number)
    } else {
        Err(Unread::Form)
    }
}

// The bytes of digits in lower case.
#[tactic(auto, unfolding(crate::specs::Reading::hex_of))]
fn hex_in(alloc: Global, text: &[u8]) -> Result<Bytes, Unread>
    ensures { Gives (λ bytes. bytes) result (hex_of text.now) }
{
    match hex::decode(alloc, text) {
        Ok(bytes) => {
            let again = hex::encode(alloc, &bytes)?;
            if again.as_bytes() == text {
                Ok(Bytes::new(bytes))
            } else {
                Err(Unread::Form)
            }
        }
        Err(FromHexError::OutOfMemory) => Err(Unread::NoMemory),
        Err(_) => Err(Unread::Form),
    }
}

// The bytes that a field is, which may be absent.
#[tactic(auto, unfolding(crate::specs::Reading::octets_of))]
fn octets_in(alloc: Global, word: &[u8]) -> Result<Option<Bytes>, Unread>
    ensures { Gives (λ bytes. bytes) result (octets_of word.now) }
{
    if word == b"-".as_slice() {
        return Ok(None);
    }
    match word {
        [b'=', text @ ..] => Ok(Some(hex_in(alloc, text)?)),
        _ => Err(Unread::Form),
    }
}

// Whether a field says yes.
fn flag_in(word: &[u8]) -> Result<bool, Unread>
    ensures { Gives (λ b. b) result (flag_of word.now) }
{
    if word == b"0".as_slice() {
        Ok(false)
    } else if word == b"1".as_slice() {
        Ok(true)
    } else {
        Err(Unread::Form)
    }
}

/// The next field, a number in decimal without leading zeros.
#[tactic(auto, unfolding(crate::specs::Reading::by_word))]
pub fn number(rest: Option<&[u8]>) -> Result<(u64, Option<&[u8]>), Unread>
    ensures { Gives (λ x. (x.0, fields_left (option_copied x.1))) result (number_at (fields_left (option_copied rest.entry))) }
{
    let (field, rest) = word(rest)?;
    Ok((number_in(field)?, rest))
}

/// The next field, `=` and bytes in lower-case hexadecimal, or `-` where they are absent.
#[tactic(auto, unfolding(crate::specs::Reading::by_word))]
pub fn octets(alloc: Global, rest: Option<&[u8]>) -> Result<(Option<Bytes>, Option<&[u8]>), Unread>
    ensures { Gives (λ x. (x.0, fields_left (option_copied x.1))) result (octets_at (fields_left (option_copied rest.entry))) }
{
    let (field, rest) = word(rest)?;
    Ok((octets_in(alloc, field)?, rest))
}

/// The next field, `=` and bytes in lower-case hexadecimal.
pub fn bytes(alloc: Global, rest: Option<&[u8]>) -> Result<(Bytes, Option<&[u8]>), Unread>
    ensures { Gives (λ x. (x.0, fields_left (option_copied x.1))) result (bytes_at (fields_left (option_copied rest.entry))) }
{
    let (found, rest) = octets(alloc, rest)?;
    match found {
        Some(bytes) => Ok((bytes, rest)),
        None => Err(Unread::Form),
    }
}

/// The next field, `1` or `0`.
#[tactic(auto, unfolding(crate::specs::Reading::by_word))]
pub fn flag(rest: Option<&[u8]>) -> Result<(bool, Option<&[u8]>), Unread>
    ensures { Gives (λ x. (x.0, fields_left (option_copied x.1))) result (flag_at (fields_left (option_copied rest.entry))) }
{
    let (field, rest) = word(rest)?;
    Ok((flag_in(field)?, rest))
}

/// Whether no field is left.
#[tactic(auto, using(crate::proofs::SplitLemmas::some_left))]
pub fn is_ended(rest: Option<&[u8]>) -> bool
    ensures { result ≡ (length (fields_left (option_copied rest.entry)) == 0) }
{
    match rest {
        None => true,
        Some(_) => false,
    }
}
