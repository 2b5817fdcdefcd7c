//! Objects whose history is one of a book.
ghost use Rattle.std.specs.Prelude.{◌≡◌, ℕ, ◌<◌, ◌^◌, Bool, List, map, IsTrue};
ghost use Rattle.ph_attempts.specs.declared.flights.Flight.{Flight};
ghost use Rattle.ph_base.specs.declared.acquirer.Why.{Why};
ghost use Rattle.ph_book.specs.declared.acts.Act.{Act};
ghost use Rattle.ph_book.specs.declared.acts.Act.TheVariants as act;
ghost use Rattle.ph_book.specs.declared.acts.Entry.{Entry};
ghost use Rattle.ph_book.specs.declared.acts.Query.{Query};
ghost use Rattle.ph_book.specs.declared.hosted.Kept.{Kept};
ghost use Rattle.ph_book.specs.declared.setup.Setup.{Setup};
ghost use Rattle.ph_book.specs.Entries as book;
ghost use Rattle.ph_book.specs.Hosts as host;
ghost use Rattle.ph_book.specs.Legal.{IsLegal, is_full};
ghost use Rattle.ph_book.specs.Queries.{Sees};

use crate::acts::{Act, Answer, Query};
use ph_lock::Object;

/// The mark of an entry, which never changes: whether the entry stands in a store, too. A book has no store, and its
/// entries are all marked `Yes`.
#[derive(Clone, Copy, Debug, PartialEq, Eq)]
pub enum Kept {
    /// It stands wherever it has to.
    Yes,
    /// The store failed: the entry stands in the history alone.
    Failed,
    /// There was no memory to store it: the entry stands in the history alone.
    NoMemory,
}

/// An object whose history, without the marks of its entries, is one of a book: what it answers, what it allows, when it
/// is full and what is seen of it are the book's. An entry has a mark beside.
pub trait Hosted: Object<Act = Act, Query = Query, Seen = bool> {
    // the setup of the book
    ghost setup: { Self.Base → Setup };

    // the book's entry
    ghost plain: { Self.Entry → Entry };

    ghost mark: { Self.Entry → Kept };

    /// The book's answer to an entry, and the entry's mark.
    fn part(answer: Self::Answer) -> (Answer, Kept)
        ensures answer { (b : Self.Base) (h : List Self.Entry) (e : Self.Entry) → Self.answers b h e answer → host.Answers (setup b) (map plain h) (plain e) result.0 }
        ensures mark { (b : Self.Base) (h : List Self.Entry) (e : Self.Entry) → Self.answers b h e answer → result.1 ≡ mark e };

    // an entry is of its caller
    ghost naming: { (e : Self.Entry) → (plain e).caller ≡ Self.by e };

    // what stands of an act is the book's entry of it
    ghost entering: { (c : ℕ) (a : Act) (e : Self.Entry) → Self.by e ≡ c → Self.deed e ≡ Self.deed_of a → plain e ≡ book.entry_of c a };

    // a lawful history is a legal one of the book
    ghost legality: { (b : Self.Base) (h : List Self.Entry) → Self.lawful b h → IsLegal (setup b) (map plain h) };

    // a setup has room for fewer entries than its type
    ghost few: { (b : Self.Base) (h : List Self.Entry) → Self.lawful b h → (setup b).entries < 2 ^ 32 };

    // what the book allows is allowed
    ghost allowing: { (b : Self.Base) (h : List Self.Entry) (c : ℕ) (a : Act) → host.Allows (setup b) (map plain h) c a → Self.allows b h c a };

    // nothing else is
    ghost allowed: { (b : Self.Base) (h : List Self.Entry) (c : ℕ) (a : Act) → Self.allows b h c a → host.Allows (setup b) (map plain h) c a };

    // an act that is full is full in the book
    ghost filling: { (b : Self.Base) (h : List Self.Entry) (a : Act) → Self.full b h a → IsTrue (is_full (setup b) (map plain h) (book.deed_of a)) };

    // and nothing else is
    ghost filled: { (b : Self.Base) (h : List Self.Entry) (a : Act) → IsTrue (is_full (setup b) (map plain h) (book.deed_of a)) → Self.full b h a };

    // a park is never refused
    ghost parking: { (ticket : Flight) (why : Why) → Self.granted (act.Park ticket why) };

    // what is seen is what a book shows
    ghost seeing: { (b : Self.Base) (h : List Self.Entry) (q : Query) (seen : Bool) → Self.sees b h q seen → Sees (setup b) (map plain h) q seen };
}
