//! One text of a form, with its name.
ghost use Rattle.std.specs.Prelude.{◌≡◌, ◌↔◌, ◌&&◌, IsTrue, bytes_eq};
ghost use Rattle.std.specs.Cmp.Lexicographic.{pointwise};

use ph_base::Bytes;

/// A text and the whole name that it stands under, as `metadata[order]`.
#[derive(Drop, Debug)]
pub struct Leaf {
    /// The base, and each key in brackets; an empty key shows the number that it took.
    pub name: Bytes,
    /// The text.
    pub text: Bytes,
}

fn is_same(one: &Leaf, other: &Leaf) -> bool
    ensures { result ≡ (bytes_eq one.now.name other.now.name && bytes_eq one.now.text other.now.text) }
{
    one.name.as_slice() == other.name.as_slice() && one.text.as_slice() == other.text.as_slice()
}

fn all_same(one: &[Leaf], other: &[Leaf]) -> bool
    ensures { result ≡ pointwise (λ x y. bytes_eq x.name y.name && bytes_eq x.text y.text) one.now other.now }
{
    if one.len() != other.len() {
        return false;
    }
    for i in 0..one.len() {
        if !is_same(&one[i], &other[i]) {
            return false;
        }
    }
    true
}

/// Whether two lists of leaves are the same.
pub fn are_same(one: &[Leaf], other: &[Leaf]) -> bool
    ensures { IsTrue result ↔ (one.now ≡ other.now) }
{
    all_same(one, other)
}
