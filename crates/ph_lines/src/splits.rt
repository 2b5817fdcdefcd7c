//! The line that unread bytes begin with.
ghost use Rattle.std.specs.Prelude.{◌≡◌, ◌≤◌, drop, length, vec_len, position, IfOk};
ghost use Rattle.std.specs.List.{position_or_len};
ghost use Rattle.ph_lines.specs.Lines.{FrontIs, is_lf};

use ph_base::{Bytes, NoMemory};
use std::alloc::Global;

// The longest line, without its LF.
const LONGEST: usize = 300_000;

/// What unread bytes begin with.
#[derive(Drop)]
pub(crate) enum Front {
    /// A line, without its LF.
    Line(Bytes),
    /// A line that is too long.
    Long,
    /// Less than a line.
    Wants,
}

// Takes the first bytes away.
fn drop_front(items: &mut Vec<u8>, n: usize)
    requires { n ≤ vec_len items.old }
    ensures { items.new.items ≡ drop n items.old.items }
{
    let rest = items.len() - n;
    items.copy_within(n.., 0);
    items.truncate(rest);
}

// Where the first LF is.
fn found(bytes: &[u8]) -> Option<usize>
    ensures { result ≡ position is_lf bytes.now }
{
    bytes.iter().position(|b| *b == b'\n')
}

// Where the first LF is, or how many bytes there are.
#[tactic(auto, using(crate::proofs::LineLemmas::is_found, crate::proofs::LineLemmas::is_length, crate::proofs::LineLemmas::within))]
fn lf(bytes: &[u8]) -> usize
    ensures place { result ≡ position_or_len is_lf bytes.now }
    ensures within { result ≤ length bytes.now }
{
    match found(bytes) {
        Some(at) => at,
        None => bytes.len(),
    }
}

/// Takes the first line away with its LF, where a whole one is there.
#[tactic(auto, unfolding(crate::specs::Lines::first))]
pub(crate) fn take_line(alloc: Global, unread: &mut Vec<u8>) -> Result<Front, NoMemory>
    ensures { IfOk result (λ front. FrontIs unread.old.items unread.new.items front) }
{
    let at = lf(unread);
    if at > LONGEST {
        return Ok(Front::Long);
    }
    if at == unread.len() {
        return Ok(Front::Wants);
    }
    let line = Bytes::from_slice(alloc, &unread[..at])?;
    drop_front(unread, at + 1);
    Ok(Front::Line(line))
}
