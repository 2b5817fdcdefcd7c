//! A book that no one else has.
ghost use Rattle.std.specs.Prelude.{◌≡◌, ◌^◌, ◌<◌, IfErr, IfOk, IsOk, IsTrue, ⊤};
ghost use Rattle.ph_lock.specs.declared.object.Refused.{Refused};
ghost use Rattle.ph_book.specs.Entries.{IsGranted, deed_of};
ghost use Rattle.ph_book.specs.Legal.{is_full};
ghost use Rattle.ph_conn.specs.Fronts.{Entered, MayDo, OnlySaw, entries_in, known_alone};

use crate::desks::Desk;
use ph_book::{Act, Answer, Book, Kept};
use ph_lock::Refused;

/// The desk of a book alone: acts are entered as caller 0, and each entry is kept.
#[derive(Drop)]
pub struct Alone;

impl Desk for Alone {
    type Held = Book;

    ghost known = { known_alone };

    ghost fits = { λ _ book. (known_alone book).caller < 2 ^ 62 };

    ghost becomes = { λ _ _. ⊤ };

    fn enter(&self, held: &mut Book, act: Act) -> Result<(Answer, Kept), (Act, Refused)>
        requires allowed { MayDo (known_alone held.old) act }
        ensures ok { IfOk result (λ answered. Entered (known_alone held.old) (known_alone held.new) act answered.0 answered.1) }
        ensures err { IfErr result (λ refused. (refused.0 ≡ act) × OnlySaw (known_alone held.old) (known_alone held.new)) }
        ensures still { IfErr result (λ _. MayDo (known_alone held.new) act) }
        ensures full { IfErr result (λ refused. refused.1 ≡ Refused.Full
            → IsTrue (is_full (known_alone held.new).setup (entries_in (known_alone held.new).front) (deed_of act))) }
        ensures granted { IsGranted act → IsOk result }
    {
        match held.apply(0, act) {
            Ok(answer) => Ok((answer, Kept::Yes)),
            Err(refused) => Err(refused),
        }
    }

    ghost small = { λ _ _ fit. fit };

    ghost stays = { λ _. tt };

    ghost further = { λ _ _ _ _ _. tt };
}
