//! What the definitions promise by themselves.
ghost use Rattle.std.specs.Prelude.{◌≡◌, ◌↔◌, ◌<◌, ◌^◌, ℕ, List, true, false, length, Some};
ghost use Rattle.ph_form.specs.Leaves.{is_free, least_free};
ghost use Rattle.ph_form.specs.Names.{AreKeys, keys_of, tail_of};
ghost use Rattle.ph_form.specs.declared.leaf.Leaf.{Leaf};

/// The number that an empty key takes is free, and each number below it is taken. It makes no call and does nothing:
/// its clause holds of every list of leaves that memory can hold.
pub fn least_number_is_free()
    ensures free { (leaves : List Leaf) (beginning : List ℕ) → length leaves < 2 ^ 63 → is_free leaves beginning (least_free leaves beginning) ≡ true }
    ensures least { (leaves : List Leaf) (beginning : List ℕ) (n : ℕ) → length leaves < 2 ^ 63 → n < least_free leaves beginning → is_free leaves beginning n ≡ false }
{}

/// A name has these keys exactly where what follows its base is these keys, each in brackets, one after another, and
/// none of them has a bracket. It makes no call and does nothing: its clause holds of every name.
pub fn keys_stand_in_brackets()
    ensures { (name : List ℕ) (keys : List (List ℕ)) → (keys_of name ≡ Some keys) ↔ AreKeys keys (tail_of name) }
{}
