//! Lists that a call keeps.
ghost use Rattle.std.specs.Prelude.{◌≡◌, ℕ, List};

use ph_base::Bytes;
use std::marker::Model;

/// Keys with their texts, in byte order of the keys, which contracts see as the list of pairs.
#[derive(Drop, Debug)]
pub struct Pairs {
    items: Vec<(Bytes, Bytes)>,
}

impl Model for Pairs {
    ghost Value = { List (List ℕ × List ℕ) };

    ghost view = { λ p. p.items.items };
}

impl Pairs {
    /// The pairs of a `Vec`. It takes no memory.
    pub fn new(items: Vec<(Bytes, Bytes)>) -> Self
        ensures { result ≡ items.items }
    {
        Pairs { items }
    }

    /// The pairs as a slice.
    pub fn as_slice(&self) -> &[(Bytes, Bytes)]
        ensures { result.now ≡ self.now }
    {
        self.items.as_slice()
    }

    /// The `Vec` that the pairs were made from. It takes no memory.
    pub fn into_vec(self) -> Vec<(Bytes, Bytes)>
        ensures { result.items ≡ self }
    {
        let Pairs { items } = self;
        items
    }
}

/// A list of texts, which contracts see as the list itself.
#[derive(Drop, Debug)]
pub struct Texts {
    items: Vec<Bytes>,
}

impl Model for Texts {
    ghost Value = { List (List ℕ) };

    ghost view = { λ t. t.items.items };
}

impl Texts {
    /// The texts of a `Vec`. It takes no memory.
    pub fn new(items: Vec<Bytes>) -> Self
        ensures { result ≡ items.items }
    {
        Texts { items }
    }

    /// The texts as a slice.
    pub fn as_slice(&self) -> &[Bytes]
        ensures { result.now ≡ self.now }
    {
        self.items.as_slice()
    }

    /// The `Vec` that the list was made from. It takes no memory.
    pub fn into_vec(self) -> Vec<Bytes>
        ensures { result.items ≡ self }
    {
        let Texts { items } = self;
        items
    }
}
