//! What two calls under one key are compared by.
ghost use Rattle.std.specs.Prelude.{◌≡◌, ◌↔◌, IsTrue};
ghost use Rattle.ph_idem.specs.Shapes.{is_same_form, is_same_shape};

use ph_base::Bytes;
use ph_form::Form;

/// What two calls under one key are compared by: whoever sends the same again means the same call.
#[derive(Drop, Debug)]
pub struct Shape {
    pub method: Bytes,
    pub path: Bytes,
    /// The form of query and body, whose pairs may have come in any order.
    pub tree: Form,
}

// Whether two forms are equal.
fn is_same_form(one: &Form, other: &Form) -> bool
    ensures test { result ≡ is_same_form one.now other.now }
    ensures exactly { IsTrue result ↔ (one.now ≡ other.now) }
{
    one.is_same(other)
}

impl Shape {
    /// Whether another call has the same method, path and form.
    pub fn is_same(&self, other: &Shape) -> bool
        ensures test { result ≡ is_same_shape self.now other.now }
        ensures exactly { IsTrue result ↔ (self.now ≡ other.now) }
    {
        self.method.as_slice() == other.method.as_slice()
            && self.path.as_slice() == other.path.as_slice()
            && is_same_form(&self.tree, &other.tree)
    }
}
