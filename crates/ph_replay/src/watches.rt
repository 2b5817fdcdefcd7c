//! Who is told how far it is.

/// Who is told how far a history is entered anew. What it does with that changes nothing of what is answered.
pub trait Watch {
    /// So many entries were entered, of so many.
    fn entered(&mut self, entries: u64, of: u64);
}

/// Nobody.
#[derive(Drop)]
pub struct Unwatched;

impl Watch for Unwatched {
    fn entered(&mut self, _: u64, _: u64) {}
}
