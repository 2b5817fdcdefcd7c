//! Objects that one history describes.
ghost use Rattle.std.specs.Prelude.{◌≡◌, ℕ, ◌^◌, ◌<◌, List, [], ◌++◌, IfOk, IfErr, IsOk, IsErr};
ghost use Rattle.ph_lock.specs.Histories.{AllBelow, NoneOf};
ghost use Rattle.ph_lock.specs.Added.{Added};
ghost use Rattle.ph_lock.specs.declared.object.Refused.{Refused};

/// Why an act was refused.
#[derive(Clone, Copy, Debug, PartialEq, Eq)]
pub enum Refused {
    /// There was no memory. No contract says when this comes.
    NoMemory,
    /// The object's history is full for this act.
    Full,
}

/// An object whose state is its base, which no call changes, and one history of entries, the oldest first.
///
/// An entry has a caller and a deed, and may carry more, as a mark. The ghost members are what contracts say of the
/// object; `Entry`, `Deed` and `Base` are for contracts alone, and no code makes values of them for the lock's sake.
pub trait Object {
    type Act;

    type Answer;

    type Query;

    type Seen;

    type Entry;

    type Deed;

    type Base;

    ghost base: { Self → Self.Base };

    // any base, for a seat that stands for nothing any more
    ghost blank: { Self.Base };

    ghost history: { Self → List Self.Entry };

    // what `callers` answers
    ghost top: { Self → ℕ };

    // the caller of an entry
    ghost by: { Self.Entry → ℕ };

    ghost deed: { Self.Entry → Self.Deed };

    // the deed that an act gives
    ghost deed_of: { Self.Act → Self.Deed };

    // the answer to the entry that comes after this history
    ghost answers: { Self.Base → List Self.Entry → Self.Entry → Self.Answer → Type 0 };

    // the history allows a caller the act
    ghost allows: { Self.Base → List Self.Entry → ℕ → Self.Act → Type 0 };

    ghost lawful: { Self.Base → List Self.Entry → Type 0 };

    // the history has no room for the act
    ghost full: { Self.Base → List Self.Entry → Self.Act → Type 0 };

    // the act is never refused
    ghost granted: { Self.Act → Type 0 };

    // what a query sees of the history
    ghost sees: { Self.Base → List Self.Entry → Self.Query → Self.Seen → Type 0 };

    /// Enters an act of a caller, as one entry at the end of the history. A refused act is handed back, and nothing changes.
    fn apply(&mut self, caller: u64, act: Self::Act) -> Result<Self::Answer, (Self::Act, Refused)>
        requires caller { caller < 2 ^ 62 }
        requires allowed { allows (base self.old) (history self.old) caller act }
        requires lawful { lawful (base self.old) (history self.old) }
        ensures base { base self.new ≡ base self.old }
        ensures lawful { lawful (base self.new) (history self.new) }
        ensures ok { IfOk result (λ answer. Added by deed deed_of answers (base self.old) (history self.old) (history self.new) caller act answer) }
        ensures err { IfErr result (λ r. (r.0 ≡ act) × (history self.new ≡ history self.old)) }
        ensures full { IfErr result (λ r. r.1 ≡ Refused.Full → full (base self.old) (history self.old) act) }
        ensures no_room { full (base self.old) (history self.old) act → IsErr result }
        ensures granted { granted act → IsOk result };

    /// Answers a query, and changes nothing.
    fn look(&self, query: &Self::Query) -> Self::Seen
        ensures { sees (base self.now) (history self.now) query.now result };

    /// A number above each caller of the history, and 0 where it has no entry.
    fn callers(&self) -> u64
        ensures top { result ≡ top self.now }
        ensures above { AllBelow by result (history self.now) }
        ensures none { history self.now ≡ [] → result ≡ 0 };

    // an allowed act stays allowed when entries of other callers are added
    ghost stays: { (b : Self.Base) (h more : List Self.Entry) (c : ℕ) (a : Self.Act) → NoneOf by c more → allows b h c a → allows b (h ++ more) c a };
}
