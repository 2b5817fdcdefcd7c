//! The function of the bytes and `httparse`'s own definition of a head say the same.
ghost use Rattle.std.specs.Prelude.{◌≡◌, ℕ, List, Some, None};
ghost use Rattle.httparse.specs.Grammar.{RequestHead};
ghost use Rattle.ph_head.specs.Head.{IsNoHead, IsOneHead};
ghost use Rattle.ph_head.specs.Reader.{head_of};

/// The head that the function gives is exactly one that `httparse` reads, with 64 headers at most.
pub fn head_is_one()
    ensures { (bytes : List ℕ) (head : RequestHead) → head_of bytes ≡ Some head → IsOneHead bytes head }
{}

/// Where `httparse` reads exactly one head with 64 headers at most, the function gives it.
pub fn one_head_is()
    ensures { (bytes : List ℕ) (head : RequestHead) → IsOneHead bytes head → head_of bytes ≡ Some head }
{}

/// Where `httparse` reads no such head, the function gives none.
pub fn other_heads_are_none()
    ensures { (bytes : List ℕ) → IsNoHead bytes → head_of bytes ≡ None }
{}
