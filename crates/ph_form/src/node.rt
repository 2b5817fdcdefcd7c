//! What stands at a name of a form.

/// What stands at a name of a form: a text, a map of what lies below it, or nothing. Never both, since a name that
/// has a text has nothing below it.
#[derive(Clone, Copy, Debug, PartialEq, Eq)]
pub enum Node {
    Absent,
    Text,
    Map,
}
