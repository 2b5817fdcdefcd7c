//! The lock, and the calls that take its passes.
ghost use Rattle.std.specs.Prelude.{◌≡◌, ◌^◌, ◌<◌, List, [], ◌∷◌, Some, IfOk, IfErr, IsOk};
ghost use Rattle.ph_lock.specs.Histories.{StartsWith, NoneOf, longer, own_entries};
ghost use Rattle.ph_lock.specs.Passes.{IsPass, SamePass, OnlySaw, Entered};
ghost use Rattle.ph_lock.specs.declared.object.Refused.{Refused};

use crate::knowledge::{Begin, OwnTable};
use crate::pass::{Note, Pass, PassView};
use crate::steps::Fresh;
use crate::turns::{enter, leave, merge, name, take_out};
use crate::{Object, Refused};
use atomic_table::Table;
use ph_base::NoMemory;
use std::alloc::Global;
use std::marker::Model;
use std::snapshot::Snapshot;
use std::sync::Wait;

/// An object that passes act on in turns, first come, first served. Contracts see which lock it is.
pub struct Lock<O: Object> {
    table: OwnTable<O>,
}

impl<O: Object> Model for Lock<O> {
    ghost use Rattle.std.specs.Prelude.{◌≡◌};
    ghost use Rattle.atomic_table.specs.Seated.{TableId};

    ghost Value = { TableId };

    ghost view = { λ l. l.table.shared.table_id };

    ghost invariant = { λ l. (l.table.shared.table_id.words ≡ 3) × (l.table.shared.table_id.slots ≡ 1) };
}

impl<O: Object> Lock<O> {
    /// A lock over an object, and its first pass. Where there is no memory, the object comes back.
    pub fn new(alloc: Global, object: O) -> Result<(Lock<O>, Pass<O>), (O, NoMemory)>
        requires callers { O.top object < 2 ^ 62 }
        requires lawful { O.lawful (O.base object) (O.history object) }
        ensures first { IfOk result (λ made. made.1 ≡ record { lock = made.0; base = O.base object; caller = O.top object; front = O.history object; mine = [] }) }
        ensures pass { IfOk result (λ made. IsPass O.by O.lawful made.1) }
        ensures err { IfErr result (λ refused. refused.0 ≡ object) }
    {
        let caller = object.callers();
        let about = Begin {
            object: Snapshot::of(&object),
            caller,
        };
        let Ok(mut slots) = Vec::with_capacity(alloc, 1) else {
            return Err((object, NoMemory));
        };
        slots.push_reserved(Some(object));
        match Table::new(alloc, &[0, 0, caller + 1], slots, &about) {
            Ok((table, seat)) => Ok((Lock { table }, Pass { seat, caller })),
            Err(refused) => Err((only_slot(refused), NoMemory)),
        }
    }

    /// Enters an act of the pass's caller in a turn of its own. It may wait. A refused act is handed back.
    pub fn act<R: Wait>(
        &self,
        rt: &R,
        pass: &mut Pass<O>,
        act: O::Act,
    ) -> Result<O::Answer, (O::Act, Refused)>
        requires lock { pass.old.lock ≡ self.now }
        requires allowed { O.allows pass.old.base pass.old.front pass.old.caller act }
        ensures same { SamePass pass.old pass.new }
        ensures pass { IsPass O.by O.lawful pass.new }
        ensures front { StartsWith pass.new.front pass.old.front }
        ensures ok { IfOk result (λ answer. Entered O.by O.deed O.deed_of O.answers O.full pass.old pass.new act answer) }
        ensures err { IfErr result (λ refused. (refused.0 ≡ act) × OnlySaw pass.old pass.new) }
        ensures still { IfErr result (λ _. O.allows pass.new.base pass.new.front pass.new.caller act) }
        ensures full { IfErr result (λ refused. refused.1 ≡ Refused.Full → O.full pass.new.base pass.new.front act) }
        ensures granted { O.granted act → IsOk result }
    {
        let mut object = enter(rt, &self.table.shared, &mut pass.seat);
        let answer = object.apply(pass.caller, act);
        leave(&self.table.shared, &mut pass.seat, object, pass.caller);
        answer
    }

    /// Answers a query of the object's history, which the pass's front then is. It may wait.
    pub fn look<R: Wait>(&self, rt: &R, pass: &mut Pass<O>, query: &O::Query) -> O::Seen
        requires lock { pass.old.lock ≡ self.now }
        ensures same { SamePass pass.old pass.new }
        ensures pass { IsPass O.by O.lawful pass.new }
        ensures front { OnlySaw pass.old pass.new }
        ensures seen { O.sees pass.new.base pass.new.front query.now result }
    {
        let object = enter(rt, &self.table.shared, &mut pass.seat);
        let seen = object.look(query);
        leave(&self.table.shared, &mut pass.seat, object, pass.caller);
        seen
    }

    /// Another pass, with the same front and a caller of its own. It may wait, and never returns once 2^62 callers are named.
    pub fn split<R: Wait>(&self, rt: &R, pass: &mut Pass<O>) -> Pass<O>
        requires lock { pass.old.lock ≡ self.now }
        ensures same { pass.new ≡ pass.old }
        ensures new { result ≡ record { lock = pass.old.lock; base = pass.old.base; caller = result.caller; front = pass.old.front; mine = [] } }
        ensures none { NoneOf O.by result.caller result.front }
        ensures pass { IsPass O.by O.lawful result }
    {
        let Note { mut seat } = self.note(pass);
        let caller = name(rt, &self.table.shared, &mut seat);
        Pass { seat, caller }
    }

    /// Takes in another pass, and answers what it showed last. The front is the longer of the two.
    pub fn join(&self, pass: &mut Pass<O>, other: Pass<O>) -> PassView<O>
        requires lock { (pass.old.lock ≡ self.now) × (other.lock ≡ self.now) }
        ensures same { SamePass pass.old pass.new }
        ensures pass { IsPass O.by O.lawful pass.new }
        ensures front { OnlySaw pass.old pass.new }
        ensures both { StartsWith pass.new.front other.front }
        ensures longer { pass.new.front ≡ longer pass.old.front other.front }
        ensures view { result ≡ other }
    {
        let view = PassView {
            pass: Snapshot::of(&other),
        };
        let Pass { seat, caller: _ } = other;
        merge(&self.table.shared, &mut pass.seat, seat);
        view
    }

    /// What the pass knows, for another pass to meet.
    pub fn note(&self, pass: &mut Pass<O>) -> Note<O>
        requires lock { pass.old.lock ≡ self.now }
        ensures same { pass.new ≡ pass.old }
        ensures note { result ≡ record { lock = pass.old.lock; base = pass.old.base; front = pass.old.front } }
        ensures lawful { O.lawful result.base result.front }
    {
        Note {
            seat: self.table.shared.split_seat::<Fresh<O>>(&mut pass.seat),
        }
    }

    /// Takes in a note. The front is the longer of the pass's and the note's.
    pub fn meet(&self, pass: &mut Pass<O>, note: Note<O>)
        requires lock { (pass.old.lock ≡ self.now) × (note.lock ≡ self.now) }
        ensures same { SamePass pass.old pass.new }
        ensures pass { IsPass O.by O.lawful pass.new }
        ensures front { OnlySaw pass.old pass.new }
        ensures both { StartsWith pass.new.front note.front }
        ensures longer { pass.new.front ≡ longer pass.old.front note.front }
    {
        let Note { seat } = note;
        merge(&self.table.shared, &mut pass.seat, seat);
    }

    /// Takes the last turn and gives the object back, with what the pass showed last. It may wait.
    pub fn close<R: Wait>(self, rt: &R, pass: Pass<O>) -> (O, PassView<O>)
        requires lock { pass.lock ≡ self }
        ensures base { O.base result.0 ≡ pass.base }
        ensures history { StartsWith (O.history result.0) pass.front }
        ensures lawful { O.lawful (O.base result.0) (O.history result.0) }
        ensures mine { own_entries O.by pass.caller 1 (O.history result.0) ≡ pass.mine }
        ensures view { result.1 ≡ pass }
    {
        let view = PassView {
            pass: Snapshot::of(&pass),
        };
        let Pass { seat, caller: _ } = pass;
        let Lock { table } = self;
        (take_out(rt, table, seat), view)
    }
}

// The value of the one slot of a table that was refused.
fn only_slot<O>(refused: atomic_table::Refused<Option<O>, Global>) -> O
    requires { (o : O) × (refused.slots.items ≡ Some o ∷ []) }
    ensures { refused.slots.items ≡ Some result ∷ [] }
{
    let atomic_table::Refused { mut slots } = refused;
    let last = slots.pop().unwrap();
    slots.destroy_empty();
    last.unwrap()
}
