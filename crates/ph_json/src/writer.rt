//! The text of a document.
ghost use Rattle.std.specs.Prelude.{◌≡◌, IfOk, map, false};
ghost use Rattle.serde_json.specs.Written.{compact_text, has_float, items_have_float, members_have_float};
ghost use Rattle.serde_json.specs.View.{view, items_view, members_view};
ghost use Rattle.ph_json.specs.Text.{text_of, by_key, member_of};
ghost use Rattle.ph_json.specs.Written.{written_members};

use crate::doc::Doc;
use ph_base::{Bytes, NoMemory};
use serde_json::{Map, Value};
use std::alloc::{AllocError, Global};

/// The JSON text of a document (RFC 8259): compact, with each object's members in the byte order of their keys.
///
/// In a text `"`, `\` and the control bytes below 32 are escaped, by `\"`, `\\`, `\b`, `\f`, `\n`, `\r`, `\t` or
/// `\u00` and two digits in lower case; every other character stands as it is.
pub fn text(alloc: Global, doc: &Doc) -> Result<Bytes, NoMemory>
    ensures { IfOk result (λ bytes. bytes ≡ text_of doc.now) }
{
    Ok(Bytes::new(value_of(alloc, doc)?.to_vec(alloc)?))
}

// The value that `serde_json` writes.
#[cycle(value_of)]
fn value_of(alloc: Global, doc: &Doc) -> Result<Value, AllocError>
    ensures text { IfOk result (λ value. compact_text (view value) ≡ text_of doc.now) }
    ensures whole { IfOk result (λ value. has_float (view value) ≡ false) }
{
    match doc {
        Doc::Null => Ok(Value::Null),
        Doc::Truth(truth) => Ok(Value::Bool(*truth)),
        Doc::Number(number) => Ok(Value::from(*number)),
        Doc::Text(bytes) => Ok(Value::String(String::from_utf8_lossy(alloc, bytes.as_slice())?)),
        Doc::List(docs) => Ok(Value::Array(values_of(alloc, docs.as_slice())?)),
        Doc::Object(members) => Ok(Value::Object(map_of(alloc, members.as_slice())?)),
    }
}

#[cycle(value_of)]
fn values_of(alloc: Global, docs: &[Doc]) -> Result<Vec<Value>, AllocError>
    ensures texts { IfOk result (λ values. map (λ value. compact_text (view value)) values.items ≡ map text_of docs.now) }
    ensures whole { IfOk result (λ values. items_have_float (items_view values.items) ≡ false) }
{
    let mut values = Vec::new(alloc);
    for doc in docs {
        values.push(value_of(alloc, doc)?)?;
    }
    Ok(values)
}

#[cycle(value_of)]
fn map_of(alloc: Global, members: &[(Bytes, Doc)]) -> Result<Map<String, Value>, AllocError>
    ensures texts { IfOk result (λ values. written_members (members_view values.entries) ≡ by_key (map member_of members.now)) }
    ensures whole { IfOk result (λ values. members_have_float (members_view values.entries) ≡ false) }
{
    let mut values = Map::new(alloc);
    for member in members {
        let key = String::from_utf8_lossy(alloc, member.0.as_slice())?;
        let value = value_of(alloc, &member.1)?;
        serde_json::put(&mut values, alloc, key.as_str(), value)?;
    }
    Ok(values)
}
