//! The lines of a head, behind the CR and LF bytes that it begins with.
ghost use Rattle.std.specs.Prelude.{◌≡◌, ◌==◌, ◌≤◌, IfSome, count_by, length};
ghost use Rattle.std.specs.List.{position_or_len};
ghost use Rattle.ph_http.specs.Lines.{has_other_version, has_too_many_lines, lines_of, names_other_version};

use crate::cut::leading_len;

/// A request line, 64 headers and the empty line.
const LINE_LIMIT: usize = 66;

// The bytes from the request line on.
fn lines(head: &[u8]) -> &[u8]
    ensures { result.now ≡ lines_of head.entry.now }
{
    &head[leading_len(head)..]
}

// How many LF bytes there are.
fn count_ends(bytes: &[u8]) -> usize
    ensures { result ≡ count_by (λ b. b == 10) bytes.now }
{
    let mut count = 0;
    for byte in bytes {
        if *byte == b'\n' {
            count += 1;
        }
    }
    count
}

/// The head has more lines than a request line, 64 headers and the empty line.
#[tactic(auto, unfolding(crate::specs::Lines::has_too_many_lines))]
pub fn too_many_lines(head: &[u8]) -> bool
    ensures { result ≡ has_too_many_lines head.now }
{
    count_ends(lines(head)) > LINE_LIMIT
}

// Where the first LF stands, or the length where none does.
fn first_end(bytes: &[u8]) -> usize
    ensures value { result ≡ position_or_len (λ b. b == 10) bytes.now }
    ensures within { result ≤ length bytes.now }
{
    match bytes.iter().position(|&b| b == b'\n') {
        Some(at) => at,
        None => bytes.len(),
    }
}

// The line without the CR that it ends with, if it does.
fn bare(line: &[u8]) -> &[u8]
    ensures { result.now ≡ Rattle.ph_http.specs.Lines.without_cr line.entry.now }
{
    if line.len() > 0 && line[line.len() - 1] == b'\r' {
        &line[..line.len() - 1]
    } else {
        line
    }
}

// The request line, without its line end.
fn request_line(head: &[u8]) -> &[u8]
    ensures { result.now ≡ Rattle.ph_http.specs.Lines.request_line head.entry.now }
{
    let lines = lines(head);
    bare(&lines[..first_end(lines)])
}

// The text is a version: `HTTP/`, a digit, a point and a digit.
fn is_version(text: &[u8]) -> bool
    requires { length text.now ≡ 8 }
    ensures { result ≡ Rattle.ph_http.specs.Lines.is_version text.now }
{
    &text[..5] == b"HTTP/".as_slice()
        && text[5].is_ascii_digit()
        && text[6] == b'.'
        && text[7].is_ascii_digit()
}

// The text is one of the versions that are spoken.
fn is_spoken(text: &[u8]) -> bool
    ensures { result ≡ Rattle.ph_http.specs.Lines.is_spoken text.now }
{
    text == b"HTTP/1.0".as_slice() || text == b"HTTP/1.1".as_slice()
}

// The line ends with a version, and not with one that is spoken.
fn is_other(line: &[u8]) -> bool
    ensures { result ≡ names_other_version line.now }
{
    if line.len() < 8 {
        return false;
    }
    let text = &line[line.len() - 8..];
    is_version(text) && !is_spoken(text)
}

/// The request line of the head ends with a version other than 1.0 and 1.1.
#[tactic(auto, unfolding(crate::specs::Lines::has_other_version))]
pub fn other_version(head: &[u8]) -> bool
    ensures { result ≡ has_other_version head.now }
{
    is_other(request_line(head))
}
