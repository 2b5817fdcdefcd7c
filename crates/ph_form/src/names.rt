//! The names of a form: a base, and keys in brackets.
ghost use Rattle.std.specs.Prelude.{◌≡◌, ◌≤◌, false, [], length, option_map, IfOk};
ghost use Rattle.std.specs.List.{position_or_len};
ghost use Rattle.ph_form.specs.Names.{base_of, child, is_below, is_bracket, is_within, keys_from, keys_of, tail_of};

use ph_base::{Bytes, NoMemory};
use std::alloc::Global;

fn is_bracket(b: u8) -> bool
    ensures { result ≡ is_bracket b }
{
    b == b'[' || b == b']'
}

/// Where a name's base ends: at its first bracket, or at its end.
fn base_len(name: &[u8]) -> usize
    ensures value { result ≡ position_or_len is_bracket name.now }
    ensures within { result ≤ length name.now }
{
    for (i, b) in name.iter().enumerate() {
        if is_bracket(*b) {
            return i;
        }
    }
    name.len()
}

/// The keys of a text as `[key][key]`, or `None` where it has another form.
fn keys_in(alloc: Global, text: &[u8]) -> Result<Option<Vec<Bytes>>, NoMemory>
    ensures { IfOk result (λ o. option_map (λ v. v.items) o ≡ keys_from [] false [] text.now) }
{
    let mut keys = Vec::new(alloc);
    let mut inside = false;
    let mut key = Vec::new(alloc);
    for b in text {
        if inside {
            if *b == b']' {
                keys.push(Bytes::new(key))?;
                key = Vec::new(alloc);
                inside = false;
            } else {
                if *b == b'[' {
                    return Ok(None);
                }
                key.push(*b)?;
            }
        } else {
            if *b != b'[' {
                return Ok(None);
            }
            inside = true;
        }
    }
    if inside { Ok(None) } else { Ok(Some(keys)) }
}

/// The base of a name: what stands before its first bracket.
pub fn base(name: &[u8]) -> &[u8]
    ensures { result.now ≡ base_of name.now }
{
    &name[..base_len(name)]
}

/// What follows the base of a name.
pub fn tail(name: &[u8]) -> &[u8]
    ensures { result.now ≡ tail_of name.now }
{
    &name[base_len(name)..]
}

/// The keys of a name, or `None` where something else than keys in brackets follows its base.
pub fn keys(alloc: Global, name: &[u8]) -> Result<Option<Vec<Bytes>>, NoMemory>
    ensures { IfOk result (λ o. option_map (λ v. v.items) o ≡ keys_of name.now) }
{
    keys_in(alloc, tail(name))
}

/// The name of a key below a beginning, as `beginning[key]`.
pub fn child(alloc: Global, beginning: &[u8], key: &[u8]) -> Result<Bytes, NoMemory>
    ensures { IfOk result (λ b. b ≡ child beginning.now key.now) }
{
    let mut name = Vec::new(alloc);
    name.extend_from_slice(beginning)?;
    name.push(b'[')?;
    name.extend_from_slice(key)?;
    name.push(b']')?;
    Ok(Bytes::new(name))
}

#[tactic(auto, using(crate::proofs::IndexLemmas::below_short))]
/// Whether a name lies below another, as `metadata[order]` below `metadata`.
pub fn is_below(upper: &[u8], name: &[u8]) -> bool
    ensures { result ≡ is_below upper.now name.now }
{
    for (i, c) in upper.iter().enumerate() {
        if i == name.len() {
            return false;
        }
        if name[i] != *c {
            return false;
        }
    }
    upper.len() < name.len() && name[upper.len()] == b'['
}

/// Whether a name is another or lies below it.
pub fn is_within(upper: &[u8], name: &[u8]) -> bool
    ensures { result ≡ is_within upper.now name.now }
{
    upper == name || is_below(upper, name)
}
