//! Turns at the table: a seat draws a ticket, waits until it is served, takes the object out and puts it back.
ghost use Rattle.std.specs.Prelude.{◌≡◌, ℕ, ◌%◌, ◌^◌, ◌<◌, List, ◌∷◌, [], Some, None};
ghost use Rattle.ph_lock.specs.Rule.{IsNamed};
ghost use Rattle.ph_lock.specs.Steps.{Found, IsHistoryOf, left_with, named_as, with_stage};
ghost use Rattle.ph_lock.specs.Histories.{StartsWith, longer, own_entries};
ghost use Rattle.ph_lock.specs.declared.knowledge.Stage.TheVariants.{Idle, Waits, Holds, Closes};

use crate::Object;
use crate::knowledge::{LockSeat, LockTable, OwnTable};
use crate::steps::{Draw, Leave, Merge, Name, Shut, Tell, Turn};
use std::sync::Wait;
use std::{hint, thread};

// The words of the table.
const TICKET: usize = 0;

const SERVING: usize = 1;

const CALLERS: usize = 2;

// The slot of the object.
const OBJECT: usize = 0;

// Callers are below it.
const MOST: u64 = 1 << 62;

// A seat that waits for its turn looks so often before it begins to sleep between looks, until the word changes. Turns
// are served first come, first served, so a waiter that went on looking could keep the holder, or the next in line,
// off the processor; one that slept at once would pay for it where the turn is short.
const LOOKS: u32 = 50;

/// Draws a ticket, waits until it is served, and takes the object out.
pub fn enter<R: Wait, O: Object>(rt: &R, table: &LockTable<O>, seat: &mut LockSeat<O>) -> O
    requires table { (seat.old.table_id ≡ table.now.table_id) × (table.now.table_id.words ≡ 3) × (table.now.table_id.slots ≡ 1) }
    requires idle { (seat.old.me.0.stage ≡ Idle) × (seat.old.me.1 ≡ []) × IsNamed seat.old.me.0.caller }
    ensures table { (seat.new.table_id ≡ seat.old.table_id) × (seat.new.id ≡ seat.old.id) }
    ensures entered { (t : ℕ) × (seat.new.me ≡ (with_stage seat.old.me.0 (Holds t (O.history result)), (0, None) ∷ [])) }
    ensures found { Found O.base O.history O.by O.lawful seat.old.me.0 result }
{
    let ticket = table.fetch_add::<Draw<O>>(seat, TICKET, 1);
    wait_turn(rt, table, seat, ticket);
    table.exchange(seat, OBJECT, None).unwrap()
}

// What the system compares before it lets a thread sleep.
fn low_half(word: u64) -> u32
    ensures { result ≡ word % 2 ^ 32 }
{
    (word & 0xffff_ffff) as u32
}

// Waits until the ticket is served.
fn wait_turn<R: Wait, O: Object>(rt: &R, table: &LockTable<O>, seat: &mut LockSeat<O>, ticket: u64)
    requires table { (seat.old.table_id ≡ table.now.table_id) × (table.now.table_id.words ≡ 3) × (table.now.table_id.slots ≡ 1) }
    requires waits { (t : ℕ) × (seat.old.me.0.stage ≡ Waits t) × (ticket ≡ t % 2 ^ 64) × (seat.old.me.1 ≡ []) }
    ensures table { (seat.new.table_id ≡ seat.old.table_id) × (seat.new.id ≡ seat.old.id) }
    ensures taken { (t : ℕ) × (o : O) × (seat.new.me ≡ (with_stage seat.old.me.0 (Holds t (O.history o)), (0, Some o) ∷ [])) × Found O.base O.history O.by O.lawful seat.old.me.0 o }
{
    let mut looks = 0;
    for _ in rt.forever() {
        let served = table.load::<Turn<O>>(seat, SERVING);
        if served == ticket {
            return;
        }
        if looks < LOOKS {
            looks += 1;
            hint::spin_loop();
        } else {
            table.park(rt, SERVING, low_half(served));
        }
    }
    unreachable!()
}

/// Puts the object back, and gives the turn to the next ticket.
pub fn leave<O: Object>(table: &LockTable<O>, seat: &mut LockSeat<O>, object: O, caller: u64)
    requires table { (seat.old.table_id ≡ table.now.table_id) × (table.now.table_id.words ≡ 3) × (table.now.table_id.slots ≡ 1) }
    requires held { (seat.old.me.1 ≡ (0, None) ∷ []) × (seat.old.me.0.caller ≡ Some caller) }
    requires history { (t : ℕ) × (h : List O.Entry) × (seat.old.me.0.stage ≡ Holds t h) × IsHistoryOf O.by caller h (O.history object) }
    requires kept { (O.base object ≡ seat.old.me.0.base) × O.lawful seat.old.me.0.base (O.history object) }
    ensures table { (seat.new.table_id ≡ seat.old.table_id) × (seat.new.id ≡ seat.old.id) }
    ensures left { seat.new.me ≡ (left_with O.by seat.old.me.0 caller (O.history object), []) }
{
    let was = table.exchange(seat, OBJECT, Some(object));
    let None = was else { unreachable!() };
    let served = table.fetch_add::<Leave<O>>(seat, SERVING, 1);
    // A ticket that is drawn after this look finds the word changed, so its seat does not sleep on the old one.
    if table.peek(TICKET) != served.wrapping_add(1) {
        table.wake_all(SERVING);
    }
}

// Takes a turn that never ends, and leaves the object in its slot.
fn shut<R: Wait, O: Object>(rt: &R, table: &LockTable<O>, seat: &mut LockSeat<O>)
    requires table { (seat.old.table_id ≡ table.now.table_id) × (table.now.table_id.words ≡ 3) × (table.now.table_id.slots ≡ 1) }
    requires idle { (seat.old.me.0.stage ≡ Idle) × (seat.old.me.1 ≡ []) × IsNamed seat.old.me.0.caller }
    ensures table { (seat.new.table_id ≡ seat.old.table_id) × (seat.new.id ≡ seat.old.id) }
    ensures closes { (t : ℕ) × (o : O) × (seat.new.me.0 ≡ with_stage seat.old.me.0 (Closes t (O.history o))) × Found O.base O.history O.by O.lawful seat.old.me.0 o }
{
    let ticket = table.fetch_add::<Draw<O>>(seat, TICKET, 1);
    wait_turn(rt, table, seat, ticket);
    table.load::<Shut<O>>(seat, SERVING);
}

/// Takes the last turn at a table, and the object out of it for good.
pub fn take_out<R: Wait, O: Object>(rt: &R, table: OwnTable<O>, mut seat: LockSeat<O>) -> O
    requires table { (seat.table_id ≡ table.shared.table_id) × (table.shared.table_id.words ≡ 3) × (table.shared.table_id.slots ≡ 1) }
    requires idle { (seat.me.0.stage ≡ Idle) × (seat.me.1 ≡ []) × IsNamed seat.me.0.caller }
    ensures found { Found O.base O.history O.by O.lawful seat.me.0 result }
{
    shut(rt, &table.shared, &mut seat);
    let mut closed = table.close_with(seat);
    let slot = closed.take(OBJECT);
    closed.free();
    slot.unwrap()
}

/// Takes in another seat, and learns that both fronts begin the one that is kept.
pub fn merge<O: Object>(table: &LockTable<O>, seat: &mut LockSeat<O>, other: LockSeat<O>)
    requires table { (seat.old.table_id ≡ table.now.table_id) × (other.table_id ≡ table.now.table_id) × (table.now.table_id.words ≡ 3) × (table.now.table_id.slots ≡ 1) }
    requires idle { (seat.old.me.0.stage ≡ Idle) × (other.me.0.stage ≡ Idle) × (other.me.1 ≡ []) }
    ensures table { (seat.new.table_id ≡ seat.old.table_id) × (seat.new.id ≡ seat.old.id) }
    ensures front { (seat.new.me.0.front ≡ longer seat.old.me.0.front other.me.0.front) × StartsWith seat.new.me.0.front seat.old.me.0.front × StartsWith seat.new.me.0.front other.me.0.front }
    ensures rest { (seat.new.me.1 ≡ seat.old.me.1) × (seat.new.me.0.caller ≡ seat.old.me.0.caller) × (seat.new.me.0.mine ≡ seat.old.me.0.mine) × (seat.new.me.0.base ≡ seat.old.me.0.base) × (seat.new.me.0.stage ≡ Idle) }
    ensures legal { O.lawful seat.new.me.0.base seat.new.me.0.front }
    ensures own { (name : ℕ) → seat.new.me.0.caller ≡ Some name → own_entries O.by name 1 seat.new.me.0.front ≡ seat.new.me.0.mine }
{
    table.join_seat::<Merge<O>>(seat, other);
    table.load::<Tell<O>>(seat, SERVING);
}

/// Takes a name for a seat that has none, trying again where another seat took the number first.
pub fn name<R: Wait, O: Object>(rt: &R, table: &LockTable<O>, seat: &mut LockSeat<O>) -> u64
    requires table { (seat.old.table_id ≡ table.now.table_id) × (table.now.table_id.words ≡ 3) × (table.now.table_id.slots ≡ 1) }
    requires idle { (seat.old.me.0.stage ≡ Idle) × (seat.old.me.0.caller ≡ None) }
    ensures table { (seat.new.table_id ≡ seat.old.table_id) × (seat.new.id ≡ seat.old.id) × (seat.new.me.1 ≡ seat.old.me.1) }
    ensures named { (seat.new.me.0 ≡ named_as seat.old.me.0 result) × (result < 2 ^ 62) }
    ensures none { own_entries O.by result 1 seat.old.me.0.front ≡ [] }
{
    for _ in rt.forever() {
        let next = table.peek(CALLERS);
        if next < MOST {
            let found = table.compare_exchange::<Name<O>>(seat, CALLERS, next, next + 1);
            if found == next {
                return next;
            }
        }
        thread::yield_now();
    }
    unreachable!()
}
