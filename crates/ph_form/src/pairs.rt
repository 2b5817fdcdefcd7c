//! The decoded pairs of a form.
ghost use Rattle.std.specs.Prelude.{◌≡◌, ◌++◌, map, string_bytes, IfOk, OnOk};
ghost use Rattle.ph_form.specs.Pairs.{pair_bytes, pairs_in, pairs_of, text_of};

use form_urlencoded::{decode, raw_pairs};
use ph_base::NoMemory;
use std::alloc::Global;

/// The text of an encoded name or value (WHATWG URL standard, section 5.1: `+` is a space, `%` begins two
/// hexadecimal digits, and bytes that are no UTF-8 become U+FFFD).
fn text(alloc: Global, raw: &[u8]) -> Result<String, NoMemory>
    ensures { IfOk result (λ s. string_bytes s ≡ text_of raw.now) }
{
    Ok(decode(alloc, raw)?.into_owned(alloc)?)
}

/// Adds the pairs of an input, in order.
fn add_pairs(alloc: Global, pairs: &mut Vec<(String, String)>, input: &[u8]) -> Result<(), NoMemory>
    ensures { OnOk result (map pair_bytes pairs.new.items ≡ map pair_bytes pairs.old.items ++ pairs_of input.now) }
{
    let mut left = raw_pairs(input);
    'pairs: while let Some((name, value)) = left.next() {
        let name = text(alloc, name)?;
        let value = text(alloc, value)?;
        pairs.push((name, value))?;
    }
    Ok(())
}

/// The pairs of a query and after them those of a body.
pub fn pairs(alloc: Global, query: &[u8], body: &[u8]) -> Result<Vec<(String, String)>, NoMemory>
    ensures { IfOk result (λ v. map pair_bytes v.items ≡ pairs_in query.now body.now) }
{
    let mut pairs = Vec::new(alloc);
    add_pairs(alloc, &mut pairs, query)?;
    add_pairs(alloc, &mut pairs, body)?;
    Ok(pairs)
}
