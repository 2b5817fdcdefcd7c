//! A history that is entered anew, entry by entry.
ghost use Rattle.std.specs.Prelude.{◌≡◌, ◌+◌, ◌<◌, ◌^◌, ◌≤◌, [], length, IfOk, IfErr, OnOk, OnErr};
ghost use Rattle.ph_base.specs.declared.acquirer.Why.TheVariants as why_given;
ghost use Rattle.ph_book.specs.declared.acts.Deed.TheVariants as deed;
ghost use Rattle.ph_book.specs.Entries.{call_entry, finish_entry, park_entry, resume_entry, tick_entry};
ghost use Rattle.ph_book.specs.History.{said_to};
ghost use Rattle.ph_book.specs.Laws.{runs_of};
ghost use Rattle.ph_book.specs.Legal.{IsLegal};
ghost use Rattle.ph_book.specs.Replies.{Replies};
ghost use Rattle.ph_book.specs.State.{entered};
ghost use Rattle.ph_book.specs.Tickets.{Holds};
ghost use Rattle.ph_items.specs.Clocks.{clock_limit};
ghost use Rattle.ph_replay.specs.Unentered.{IsUnentered};
ghost use Rattle.ph_replay.specs.Told.{told_of};

use crate::copies::copy_raw;
use crate::laws::live_runs;
use crate::tickets::take_ticket;
use crate::told::{Told, tell};
use crate::unentered::{Unentered, reason_of};
use ph_attempts::Ticket;
use ph_base::{NoMemory, Ruling, Why};
use ph_book::{Act, Answer, Book, Deed, Entry, Setup, history_is_legal};
use ph_http::{Raw, Reply};
use ph_items::CLOCK_LIMIT;
use std::alloc::Global;
use std::marker::Model;

// The first number that is no caller's.
const CALLERS: u64 = 4_611_686_018_427_387_904;

/// A book, what was replied to the entries of its history, and the tickets of the runs that are live in it, in the order
/// in which they began. It can't be dropped: `end` spends the tickets.
pub struct Replayed {
    book: Book,
    replies: Vec<Told>,
    tickets: Vec<Ticket>,
}

impl Model for Replayed {
    ghost use Rattle.ph_replay.specs.State.{IsReplay, ReplayState};

    ghost Value = { ReplayState };

    ghost view = { λ r. record { book = r.book; replies = r.replies.items; tickets = r.tickets.items } };

    ghost invariant = { λ r. IsReplay r.book.setup r.book.history r.replies.items r.tickets.items };
}

impl Replayed {
    /// A book without entries.
    pub(crate) fn new(alloc: Global, setup: Setup) -> Result<Replayed, NoMemory>
        requires opened { setup.opened ≤ clock_limit }
        ensures { IfOk result (λ replayed. replayed.book ≡ record { setup = setup; history = [] }) }
    {
        Ok(Replayed {
            book: Book::new(alloc, setup)?,
            replies: Vec::new(alloc),
            tickets: Vec::new(alloc),
        })
    }

    /// The book.
    pub fn book(&self) -> &Book
        ensures { result.now ≡ self.now.book }
    {
        &self.book
    }

    /// What is told of each reply, in the order of the entries.
    pub fn replies(&self) -> &[Told]
        ensures value { result.now ≡ self.now.replies }
        ensures all { self.now.replies ≡ told_of self.now.book.setup self.now.book.history }
    {
        self.replies.as_slice()
    }

    /// The tickets of the runs that are live in the book, in the order in which they began.
    pub fn tickets(&self) -> &[Ticket]
        ensures value { result.now ≡ self.now.tickets }
        ensures all { self.now.tickets ≡ runs_of self.now.book.setup self.now.book.history }
    {
        self.tickets.as_slice()
    }

    // Its history is legal, all of its replies are told, and the tickets are those of its live runs.
    pub(crate) fn lawful(&self)
        ensures legal { IsLegal self.now.book.setup self.now.book.history }
        ensures replies { self.now.replies ≡ told_of self.now.book.setup self.now.book.history }
        ensures tickets { self.now.tickets ≡ runs_of self.now.book.setup self.now.book.history }
    {
        history_is_legal(&self.book);
    }

    /// Enters an entry anew. Where it may not come after those before it, it isn't entered.
    pub(crate) fn enter(&mut self, alloc: Global, entry: &Entry) -> Result<(), Unentered>
        ensures entered { OnOk result (self.new.book ≡ entered self.old.book entry.now) }
        ensures unentered { IfErr result (λ why. IsUnentered self.old.book.setup self.old.book.history entry.now why) }
    {
        if entry.caller >= CALLERS {
            return Err(Unentered::Illegal);
        }
        match &entry.deed {
            Deed::Call(raw) => {
                let raw = copy_raw(alloc, raw)?;
                self.call(entry.caller, raw)
            }
            Deed::Finish(run, ruling) => self.finish(entry.caller, *run, *ruling),
            Deed::Park(run, why) => self.park(entry.caller, *run, *why),
            Deed::Resume => self.resume(entry.caller),
            Deed::Tick(moment) => self.tick(entry.caller, *moment),
        }
    }

    // Enters a request.
    fn call(&mut self, caller: u64, raw: Raw) -> Result<(), Unentered>
        requires caller { caller < 2 ^ 62 }
        ensures entered { OnOk result (self.new.book ≡ entered self.old.book (call_entry caller raw)) }
        ensures unentered { IfErr result (λ why. IsUnentered self.old.book.setup self.old.book.history (call_entry caller raw) why) }
    {
        self.replies.reserve(1)?;
        self.tickets.reserve(1)?;
        let place = next_place(&self.book);
        live_runs(&self.book);
        match self.book.apply(caller, Act::Call(raw)) {
            Ok(Answer::Reply(reply)) => {
                self.replies.push_reserved(tell(place, &reply));
                Ok(())
            }
            Ok(Answer::Wait(ticket)) => {
                self.tickets.push_reserved(ticket);
                Ok(())
            }
            Ok(Answer::Done) => unreachable!(),
            Err((act, refused)) => {
                let Act::Call(_) = act else { unreachable!() };
                Err(reason_of(refused))
            }
        }
    }

    // Enters a ruling on a run of a caller.
    fn finish(&mut self, caller: u64, run: u64, ruling: Ruling) -> Result<(), Unentered>
        requires caller { caller < 2 ^ 62 }
        ensures entered { OnOk result (self.new.book ≡ entered self.old.book (record { caller = caller; deed = deed.Finish run ruling })) }
        ensures unentered { IfErr result (λ why. IsUnentered self.old.book.setup self.old.book.history (record { caller = caller; deed = deed.Finish run ruling }) why) }
    {
        self.replies.reserve(1)?;
        let place = next_place(&self.book);
        live_runs(&self.book);
        let Some(ticket) = take_ticket(&mut self.tickets, caller, run) else {
            return Err(Unentered::Illegal);
        };
        match ruled(&mut self.book, ticket, ruling) {
            Ok(reply) => {
                self.replies.push_reserved(tell(place, &reply));
                Ok(())
            }
            Err(reply) => {
                self.replies.push_reserved(tell(place, &reply));
                Err(Unentered::NoMemory)
            }
        }
    }

    // Enters that a run of a caller was given up.
    fn park(&mut self, caller: u64, run: u64, why: Why) -> Result<(), Unentered>
        requires caller { caller < 2 ^ 62 }
        ensures entered { OnOk result (self.new.book ≡ entered self.old.book (record { caller = caller; deed = deed.Park run why })) }
        ensures unentered { IfErr result (λ why_not. IsUnentered self.old.book.setup self.old.book.history (record { caller = caller; deed = deed.Park run why }) why_not) }
    {
        self.replies.reserve(1)?;
        let place = next_place(&self.book);
        live_runs(&self.book);
        let Some(ticket) = take_ticket(&mut self.tickets, caller, run) else {
            return Err(Unentered::Illegal);
        };
        let reply = given_up(&mut self.book, ticket, why);
        self.replies.push_reserved(tell(place, &reply));
        Ok(())
    }

    // Enters that the attempt that waits longest is taken up again.
    fn resume(&mut self, caller: u64) -> Result<(), Unentered>
        requires caller { caller < 2 ^ 62 }
        ensures entered { OnOk result (self.new.book ≡ entered self.old.book (resume_entry caller)) }
        ensures unentered { IfErr result (λ why. IsUnentered self.old.book.setup self.old.book.history (resume_entry caller) why) }
    {
        self.tickets.reserve(1)?;
        live_runs(&self.book);
        match self.book.apply(caller, Act::Resume) {
            Ok(Answer::Wait(ticket)) => {
                self.tickets.push_reserved(ticket);
                Ok(())
            }
            Ok(Answer::Done) => Ok(()),
            Ok(Answer::Reply(_)) => unreachable!(),
            Err((act, refused)) => {
                let Act::Resume = act else { unreachable!() };
                Err(reason_of(refused))
            }
        }
    }

    // Enters a moment of the clock.
    fn tick(&mut self, caller: u64, moment: u64) -> Result<(), Unentered>
        requires caller { caller < 2 ^ 62 }
        ensures entered { OnOk result (self.new.book ≡ entered self.old.book (tick_entry caller moment)) }
        ensures unentered { IfErr result (λ why. IsUnentered self.old.book.setup self.old.book.history (tick_entry caller moment) why) }
    {
        if moment > CLOCK_LIMIT {
            return Err(Unentered::Illegal);
        }
        live_runs(&self.book);
        match self.book.apply(caller, Act::Tick(moment)) {
            Ok(answer) => {
                let Answer::Done = answer else { unreachable!() };
                Ok(())
            }
            Err((act, refused)) => {
                let Act::Tick(_) = act else { unreachable!() };
                Err(reason_of(refused))
            }
        }
    }

    /// Gives up the runs that are live, each for the reason that the acquirer didn't answer in time, and lets the book
    /// go.
    pub fn end(self) {
        let Replayed {
            mut book,
            replies: _,
            mut tickets,
        } = self;
        'runs: while !tickets.is_empty() {
            live_runs(&book);
            let ticket = tickets.remove(0);
            let _reply = given_up(&mut book, ticket, Why::Pending);
        }
        tickets.destroy_empty();
    }
}

// The place of the next entry.
fn next_place(book: &Book) -> u64
    ensures { result ≡ length book.now.history + 1 }
{
    book.history().len() as u64 + 1
}

// Enters a ruling on the order of a ticket's run. Where there is no memory for it, the run is given up, and the reply to
// that comes back as the error.
fn ruled(book: &mut Book, ticket: Ticket, ruling: Ruling) -> Result<Reply, Reply>
    requires caller { ticket.caller < 2 ^ 62 }
    requires own { Holds book.old.setup book.old.history ticket.caller ticket }
    ensures entered { OnOk result (book.new ≡ entered book.old (finish_entry ticket.caller ticket ruling)) }
    ensures said { IfOk result (λ reply. said_to book.old.setup book.old.history (finish_entry ticket.caller ticket ruling) ≡ Replies reply) }
    ensures given_up { OnErr result (book.new ≡ entered book.old (park_entry ticket.caller ticket why_given.NoMemory)) }
    ensures given_up_said { IfErr result (λ reply. said_to book.old.setup book.old.history (park_entry ticket.caller ticket why_given.NoMemory) ≡ Replies reply) }
{
    let caller = ticket.caller();
    match book.apply(caller, Act::Finish(ticket, ruling)) {
        Ok(answer) => {
            let Answer::Reply(reply) = answer else {
                unreachable!()
            };
            Ok(reply)
        }
        Err((act, _)) => {
            let Act::Finish(ticket, _) = act else {
                unreachable!()
            };
            Err(given_up(book, ticket, Why::NoMemory))
        }
    }
}

// Gives up the run of a ticket. That is never refused.
fn given_up(book: &mut Book, ticket: Ticket, why: Why) -> Reply
    requires caller { ticket.caller < 2 ^ 62 }
    requires own { Holds book.old.setup book.old.history ticket.caller ticket }
    ensures entered { book.new ≡ entered book.old (park_entry ticket.caller ticket why) }
    ensures said { said_to book.old.setup book.old.history (park_entry ticket.caller ticket why) ≡ Replies result }
{
    let caller = ticket.caller();
    let entered = book.apply(caller, Act::Park(ticket, why));
    let Ok(answer) = entered else { unreachable!() };
    let Answer::Reply(reply) = answer else {
        unreachable!()
    };
    reply
}
