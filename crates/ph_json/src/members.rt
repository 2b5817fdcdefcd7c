//! The members of an object, put one after another.
ghost use Rattle.std.specs.Prelude.{◌≡◌, [], ◌∷◌, ◌++◌, OnOk, OnErr};

use crate::doc::Doc;
use ph_base::{Bytes, NoMemory};
use sqlite_items::Items;
use std::alloc::Global;
use std::marker::Model;

/// The members of an object to be, which contracts see as the list of pairs of a key and its value, in the order
/// in which they were put. A call that finds no memory leaves them as they were, but for `append`.
///
/// A function that puts up to eight members and ensures their list is proved alone; make a longer object of
/// pieces, each by a function of its own, joined by `append`.
#[derive(Drop)]
pub struct Members {
    alloc: Global,
    items: Items<(Bytes, Doc)>,
}

impl Model for Members {
    ghost use Rattle.std.specs.Prelude.{ℕ, List};
    ghost use Rattle.std.specs.Coded.{codes};
    ghost use Rattle.ph_json.specs.declared.doc.Doc.{Doc};
    ghost use Rattle.ph_json.specs.contracts.doc.Doc as doc;

    ghost Value = { List (List ℕ × Doc) };

    ghost coded = { Prim.hlevel (codes, doc.the_row.coded) };

    ghost view = { λ m. m.items };
}

impl Members {
    ghost use Rattle.ph_json.specs.Values.{member_if, number_or_null, text_or_null};

    /// No members yet. It takes no memory.
    pub fn new(alloc: Global) -> Self
        ensures { result ≡ [] }
    {
        Members {
            alloc,
            items: Items::new(alloc),
        }
    }

    /// Puts a member at the end.
    pub fn put(&mut self, key: &str, value: Doc) -> Result<(), NoMemory>
        ensures ok { OnOk result (self.new ≡ self.old ++ (key.now, value) ∷ []) }
        ensures err { OnErr result (self.new ≡ self.old) }
    {
        self.put_at(key.as_bytes(), value)
    }

    /// Puts a member whose key is given as bytes at the end.
    pub fn put_at(&mut self, key: &[u8], value: Doc) -> Result<(), NoMemory>
        ensures ok { OnOk result (self.new ≡ self.old ++ (key.now, value) ∷ []) }
        ensures err { OnErr result (self.new ≡ self.old) }
    {
        let key = Bytes::from_slice(self.alloc, key)?;
        self.items.push((key, value))?;
        Ok(())
    }

    /// Puts a member at the end, or nothing where there is no value.
    pub fn put_if(&mut self, key: &str, value: Option<Doc>) -> Result<(), NoMemory>
        ensures ok { OnOk result (self.new ≡ self.old ++ member_if key.now value) }
        ensures err { OnErr result (self.new ≡ self.old) }
    {
        match value {
            None => Ok(()),
            Some(value) => self.put(key, value),
        }
    }

    /// Puts `null` at the end.
    pub fn null(&mut self, key: &str) -> Result<(), NoMemory>
        ensures ok { OnOk result (self.new ≡ self.old ++ (key.now, Doc.Null) ∷ []) }
        ensures err { OnErr result (self.new ≡ self.old) }
    {
        self.put(key, Doc::Null)
    }

    /// Puts a truth value at the end.
    pub fn truth(&mut self, key: &str, truth: bool) -> Result<(), NoMemory>
        ensures ok { OnOk result (self.new ≡ self.old ++ (key.now, Doc.Truth truth) ∷ []) }
        ensures err { OnErr result (self.new ≡ self.old) }
    {
        self.put(key, Doc::Truth(truth))
    }

    /// Puts a number at the end.
    pub fn number(&mut self, key: &str, number: i64) -> Result<(), NoMemory>
        ensures ok { OnOk result (self.new ≡ self.old ++ (key.now, Doc.Number number) ∷ []) }
        ensures err { OnErr result (self.new ≡ self.old) }
    {
        self.put(key, Doc::Number(number))
    }

    /// Puts a number at the end, or `null` where there is none.
    pub fn number_or_null(&mut self, key: &str, number: Option<i64>) -> Result<(), NoMemory>
        ensures ok { OnOk result (self.new ≡ self.old ++ (key.now, number_or_null number) ∷ []) }
        ensures err { OnErr result (self.new ≡ self.old) }
    {
        match number {
            None => self.null(key),
            Some(number) => self.number(key, number),
        }
    }

    /// Puts a text with a copy of these bytes at the end.
    pub fn text(&mut self, key: &str, text: &[u8]) -> Result<(), NoMemory>
        ensures ok { OnOk result (self.new ≡ self.old ++ (key.now, Doc.Text text.now) ∷ []) }
        ensures err { OnErr result (self.new ≡ self.old) }
    {
        let text = Doc::text_of(self.alloc, text)?;
        self.put(key, text)
    }

    /// Puts a text with a copy of this word at the end.
    pub fn word(&mut self, key: &str, word: &str) -> Result<(), NoMemory>
        ensures ok { OnOk result (self.new ≡ self.old ++ (key.now, Doc.Text word.now) ∷ []) }
        ensures err { OnErr result (self.new ≡ self.old) }
    {
        self.text(key, word.as_bytes())
    }

    /// Puts a text with a copy of these bytes at the end, or `null` where there are none.
    pub fn text_or_null(&mut self, key: &str, text: &Option<Bytes>) -> Result<(), NoMemory>
        ensures ok { OnOk result (self.new ≡ self.old ++ (key.now, text_or_null text.now) ∷ []) }
        ensures err { OnErr result (self.new ≡ self.old) }
    {
        match text {
            None => self.null(key),
            Some(text) => self.text(key, text.as_slice()),
        }
    }

    /// Moves the members of `more` to the end. Where there is no memory they are dropped.
    pub fn append(&mut self, more: Members) -> Result<(), NoMemory>
        ensures { OnOk result (self.new ≡ self.old ++ more) }
    {
        let Members { alloc: _, items } = more;
        self.items.append(items)?;
        Ok(())
    }

    /// The object of these members. It takes no memory.
    pub fn done(self) -> Doc
        ensures { result ≡ Doc.Object self }
    {
        let Members { alloc: _, items } = self;
        Doc::Object(items)
    }
}
