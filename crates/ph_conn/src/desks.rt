//! Where a session enters its acts: a book that no one else has, or a lock with a pass.
ghost use Rattle.std.specs.Prelude.{◌≡◌, ◌^◌, ◌<◌, IfErr, IfOk, IsOk, IsTrue};
ghost use Rattle.ph_lock.specs.declared.object.Refused.{Refused};
ghost use Rattle.ph_book.specs.Entries.{IsGranted, deed_of};
ghost use Rattle.ph_book.specs.Legal.{is_full};
ghost use Rattle.ph_conn.specs.Fronts.{Entered, Known, MayDo, OnlySaw, entries_in};

use ph_book::{Act, Answer, Kept};
use ph_lock::Refused;

/// Where acts of one caller are entered in one history.
pub trait Desk {
    /// What the caller holds of it.
    type Held;

    // what is known of the history
    ghost known: { Self.Held → Known };

    // it is held of this desk
    ghost fits: { Self → Self.Held → Type 0 };

    // what is held became so
    ghost becomes: { Self.Held → Self.Held → Type 0 };

    /// Enters an act, and answers what is said to it and whether the entry is kept. A refused act is handed back, and a
    /// park is never refused.
    fn enter(&self, held: &mut Self::Held, act: Act) -> Result<(Answer, Kept), (Act, Refused)>
        requires fits { fits self.now held.old }
        requires allowed { MayDo (known held.old) act }
        ensures fits { fits self.now held.new }
        ensures becomes { becomes held.old held.new }
        ensures ok { IfOk result (λ answered. Entered (known held.old) (known held.new) act answered.0 answered.1) }
        ensures err { IfErr result (λ refused. (refused.0 ≡ act) × OnlySaw (known held.old) (known held.new)) }
        ensures still { IfErr result (λ _. MayDo (known held.new) act) }
        ensures full { IfErr result (λ refused. refused.1 ≡ Refused.Full
            → IsTrue (is_full (known held.new).setup (entries_in (known held.new).front) (deed_of act))) }
        ensures granted { IsGranted act → IsOk result };

    // the caller is one that may enter acts
    ghost small: { (desk : Self) (held : Self.Held) → fits desk held → (known held).caller < 2 ^ 62 };

    // it became what it is
    ghost stays: { (held : Self.Held) → becomes held held };

    ghost further: { (old middle new : Self.Held) → becomes old middle → becomes middle new → becomes old new };
}
