//! A JSON document.
ghost use Rattle.std.specs.Prelude.{◌≡◌, IfOk};

use ph_base::{Bytes, NoMemory};
use sqlite_items::Items;
use std::alloc::Global;

/// A JSON document (RFC 8259) whose numbers are whole.
///
/// A text is in UTF-8: in the written text each byte sequence that isn't becomes U+FFFD, as in std's
/// `from_utf8_lossy`. An object is a list of pairs of a key and its value, in any order: the written text has
/// each key once, in byte order, and of equal keys the last one counts.
#[derive(Drop)]
pub enum Doc {
    Null,
    Truth(bool),
    Number(i64),
    Text(Bytes),
    List(Items<Doc>),
    Object(Items<(Bytes, Doc)>),
}

impl Doc {
    /// A text with a copy of these bytes.
    pub fn text_of(alloc: Global, bytes: &[u8]) -> Result<Doc, NoMemory>
        ensures { IfOk result (λ doc. doc ≡ Doc.Text bytes.now) }
    {
        Ok(Doc::Text(Bytes::from_slice(alloc, bytes)?))
    }

    /// The list of these documents. It takes no memory.
    pub fn list(docs: Vec<Doc>) -> Doc
        ensures { result ≡ Doc.List docs.items }
    {
        Doc::List(Items::from_vec(docs))
    }
}
