//! Escapes in a case's words and lines.

use crate::case::CaseError;
use ph_base::read_number;

// What stands behind a backslash.
#[derive(Clone, Copy)]
enum Escape<'t> {
    Byte(u8),
    Repeated { text: &'t [u8], times: u64 },
}

/// Adds the bytes of a text to `bytes`, with its escapes read: `\r`, `\n`, `\t`, `\\`, `\xHH` for a byte, and
/// `\{TEXT*N}` for N times the text, in which nothing is an escape. Any other backslash is a fault of this line.
pub fn add_unescaped(bytes: &mut Vec<u8>, text: &str, line: usize) -> Result<(), CaseError> {
    let mut rest = text.as_bytes();
    // A step reads one byte at least.
    for _ in 0..text.len() {
        rest = add_first(bytes, rest, line)?;
    }
    Ok(())
}

// Adds the first byte of a text, or what its escape stands for, and gives the rest.
fn add_first<'t>(bytes: &mut Vec<u8>, text: &'t [u8], line: usize) -> Result<&'t [u8], CaseError> {
    match text {
        [] => Ok(text),
        [b'\\', behind @ ..] => match read_escape(behind) {
            Some((escape, rest)) => {
                add_escape(bytes, escape)?;
                Ok(rest)
            }
            None => Err(CaseError::Line(line)),
        },
        [first, behind @ ..] => {
            bytes.push(*first)?;
            Ok(behind)
        }
    }
}

// The escape behind a backslash, and what stands behind it.
fn read_escape(text: &[u8]) -> Option<(Escape<'_>, &[u8])> {
    match text {
        [b'r', rest @ ..] => Some((Escape::Byte(b'\r'), rest)),
        [b'n', rest @ ..] => Some((Escape::Byte(b'\n'), rest)),
        [b't', rest @ ..] => Some((Escape::Byte(b'\t'), rest)),
        [b'\\', rest @ ..] => Some((Escape::Byte(b'\\'), rest)),
        [b'x', high, low, rest @ ..] => Some((Escape::Byte(byte(*high, *low)?), rest)),
        [b'{', rest @ ..] => repeated(rest),
        _ => None,
    }
}

// The byte of two hexadecimal digits.
fn byte(high: u8, low: u8) -> Option<u8> {
    Some(digit(high)? << 4 | digit(low)?)
}

fn digit(digit: u8) -> Option<u8> {
    match digit {
        b'0'..=b'9' => Some(digit - b'0'),
        b'a'..=b'f' => Some(digit - b'a' + 10),
        b'A'..=b'F' => Some(digit - b'A' + 10),
        _ => None,
    }
}

// What `\{` begins.
fn repeated(rest: &[u8]) -> Option<(Escape<'_>, &[u8])> {
    let star = rest.iter().position(|b| *b == b'*')?;
    let (text, behind) = rest.split_at(star);
    let end = behind.iter().position(|b| *b == b'}')?;
    let (number, left) = behind.split_at(end);
    let times = read_number(number.get(1..)?)?;
    Some((Escape::Repeated { text, times }, left.get(1..)?))
}

fn add_escape(bytes: &mut Vec<u8>, escape: Escape<'_>) -> Result<(), CaseError> {
    match escape {
        Escape::Byte(byte) => bytes.push(byte)?,
        Escape::Repeated { text, times } => {
            for _ in 0..times {
                bytes.extend_from_slice(text)?;
            }
        }
    }
    Ok(())
}
