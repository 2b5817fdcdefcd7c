//! A lock, on whose object a session acts through a pass.
ghost use Rattle.std.specs.Prelude.{◌≡◌, ◌^◌, ◌<◌, IfErr, IfOk, IsOk, IsTrue};
ghost use Rattle.ph_lock.specs.declared.object.Refused.{Refused};
ghost use Rattle.ph_book.specs.Entries.{IsGranted, deed_of};
ghost use Rattle.ph_book.specs.Legal.{is_full};
ghost use Rattle.ph_conn.specs.Fronts.{Entered, Grown, IsFit, MayDo, OnlySaw, entries_in, known_by};
ghost use Rattle.ph_conn.specs.Grows.{grown_further, grown_stays};

use crate::desks::Desk;
use ph_book::{Act, Answer, Hosted, Kept};
use ph_lock::{Lock, Pass, Refused};
use std::sync::Wait;

/// The desk of a lock: acts are entered in turns, each as the caller of the pass.
#[derive(Drop)]
pub struct Locked<'a, R: Wait, O: Hosted> {
    pub rt: &'a R,
    pub lock: &'a Lock<O>,
}

impl<'a, R: Wait, O: Hosted> Desk for Locked<'a, R, O> {
    type Held = Pass<O>;

    ghost known = { λ pass. known_by O.setup O.plain O.mark pass };

    ghost fits = { λ desk pass. IsFit O.by O.lawful desk.lock.now pass };

    ghost becomes = { Grown };

    fn enter(&self, held: &mut Pass<O>, act: Act) -> Result<(Answer, Kept), (Act, Refused)>
        requires fits { IsFit O.by O.lawful self.now.lock.now held.old }
        requires allowed { MayDo (known_by O.setup O.plain O.mark held.old) act }
        ensures fits { IsFit O.by O.lawful self.now.lock.now held.new }
        ensures becomes { Grown held.old held.new }
        ensures ok { IfOk result (λ answered. Entered (known_by O.setup O.plain O.mark held.old) (known_by O.setup O.plain O.mark held.new) act answered.0 answered.1) }
        ensures err { IfErr result (λ refused. (refused.0 ≡ act) × OnlySaw (known_by O.setup O.plain O.mark held.old) (known_by O.setup O.plain O.mark held.new)) }
        ensures still { IfErr result (λ _. MayDo (known_by O.setup O.plain O.mark held.new) act) }
        ensures full { IfErr result (λ refused. refused.1 ≡ Refused.Full
            → IsTrue (is_full (known_by O.setup O.plain O.mark held.new).setup (entries_in (known_by O.setup O.plain O.mark held.new).front) (deed_of act))) }
        ensures granted { IsGranted act → IsOk result }
    {
        match self.lock.act(self.rt, held, act) {
            Ok(answer) => Ok(O::part(answer)),
            Err(refused) => Err(refused),
        }
    }

    ghost small = { λ _ _ fit. fit.small };

    ghost stays = { grown_stays };

    ghost further = { grown_further };
}
