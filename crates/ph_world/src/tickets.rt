//! The tickets of the runs in flight, and what the end of one does to the book.
ghost use Rattle.std.specs.Prelude.{◌≡◌, ◌<◌, ◌≤◌, ◌++◌, Some, vec_len, vec_capacity, IfOk, IfErr, OnOk, OnErr};
ghost use Rattle.std.specs.List.{insert, position};
ghost use Rattle.ph_book.specs.Entries.{finish_entry, park_entry};
ghost use Rattle.ph_book.specs.State.{entered};
ghost use Rattle.ph_world.specs.Flights.{AllInHand, AreApart, InHand, and_entry, finish_of, flight_in, given_in, is_of, park_of, reply_in, reply_to, said_behind, tickets_in, without};
ghost use Rattle.ph_world.specs.Playing.{ended};

use ph_attempts::Ticket;
use ph_base::{NoMemory, Ruling, Why};
use ph_book::{Act, Answer, Book, runs_follow};
use ph_http::Reply;

/// The place among tickets of that of the run of a number.
pub fn place_of(tickets: &[Ticket], run: u64) -> Option<usize>
    ensures { result ≡ position (is_of run) tickets.now }
{
    tickets.iter().position(|ticket| ticket.run() == run)
}

/// Keeps the ticket that an answer is, and gives the reply that it is.
pub fn keep(tickets: &mut Vec<Ticket>, answer: Answer) -> Option<Reply>
    requires room { vec_len tickets.old < vec_capacity tickets.old }
    ensures tickets { tickets.new.items ≡ tickets.old.items ++ tickets_in answer }
    ensures reply { result ≡ given_in answer }
{
    match answer {
        Answer::Reply(reply) => Some(reply),
        Answer::Wait(ticket) => {
            tickets.push_reserved(ticket);
            None
        }
        Answer::Done => None,
    }
}

/// Gives up the run of a ticket.
pub fn park(book: &mut Book, ticket: Ticket, why: Why) -> Reply
    requires in_hand { InHand book.old ticket }
    ensures book { book.new ≡ entered book.old (park_entry ticket.caller ticket why) }
    ensures reply { reply_in (said_behind book.old (park_entry ticket.caller ticket why)) ≡ Some result }
{
    let parked = book.apply(ticket.caller(), Act::Park(ticket, why));
    let Ok(answer) = parked else { unreachable!() };
    let Answer::Reply(reply) = answer else {
        unreachable!()
    };
    reply
}

// Enters a ruling on the order of a ticket's run. Where there is no memory, the ticket comes back.
fn finish(book: &mut Book, ticket: Ticket, ruling: Ruling) -> Result<Reply, Ticket>
    requires in_hand { InHand book.old ticket }
    ensures book { OnOk result (book.new ≡ entered book.old (finish_entry ticket.caller ticket ruling)) }
    ensures reply { IfOk result (λ reply. reply_in (said_behind book.old (finish_entry ticket.caller ticket ruling)) ≡ Some reply) }
    ensures back { IfErr result (λ back. back ≡ ticket) }
    ensures unchanged { OnErr result (book.new ≡ book.old) }
{
    match book.apply(ticket.caller(), Act::Finish(ticket, ruling)) {
        Ok(answer) => {
            let Answer::Reply(reply) = answer else {
                unreachable!()
            };
            Ok(reply)
        }
        Err((act, _)) => {
            let Act::Finish(ticket, _) = act else {
                unreachable!()
            };
            Err(ticket)
        }
    }
}

/// Gives up the run of a number, where it is in flight.
pub fn park_run(book: &mut Book, tickets: &mut Vec<Ticket>, run: u64, why: Why) -> Option<Reply>
    requires in_hand { AllInHand book.old tickets.old.items }
    ensures book { book.new ≡ and_entry book.old (park_of why (flight_in tickets.old.items run)) }
    ensures tickets { tickets.new.items ≡ without run tickets.old.items }
    ensures reply { result ≡ reply_to book.old (park_of why (flight_in tickets.old.items run)) }
{
    match place_of(tickets.as_slice(), run) {
        None => None,
        Some(at) => {
            let ticket = tickets.remove(at);
            Some(park(book, ticket, why))
        }
    }
}

/// Enters a ruling on the order of the run of a number, where it is in flight.
pub fn finish_run(
    book: &mut Book,
    tickets: &mut Vec<Ticket>,
    run: u64,
    ruling: Ruling,
) -> Result<Option<Reply>, NoMemory>
    requires in_hand { AllInHand book.old tickets.old.items }
    ensures book { OnOk result (book.new ≡ and_entry book.old (finish_of ruling (flight_in tickets.old.items run))) }
    ensures tickets { OnOk result (tickets.new.items ≡ without run tickets.old.items) }
    ensures reply { IfOk result (λ reply. reply ≡ reply_to book.old (finish_of ruling (flight_in tickets.old.items run))) }
    ensures unchanged { OnErr result ((book.new ≡ book.old) × (tickets.new.items ≡ tickets.old.items)) }
{
    match place_of(tickets.as_slice(), run) {
        None => Ok(None),
        Some(at) => {
            let ticket = tickets.remove(at);
            match finish(book, ticket, ruling) {
                Ok(reply) => Ok(Some(reply)),
                Err(ticket) => {
                    put_back(tickets, at, ticket);
                    Err(NoMemory)
                }
            }
        }
    }
}

// Puts a ticket back at the place where it was taken out.
fn put_back(tickets: &mut Vec<Ticket>, at: usize, ticket: Ticket)
    requires within { at ≤ vec_len tickets.old }
    requires room { vec_len tickets.old < vec_capacity tickets.old }
    ensures { tickets.new.items ≡ insert tickets.old.items at ticket }
{
    match tickets.insert(at, ticket) {
        Ok(()) => {}
        Err(_) => unreachable!(),
    }
}

/// Gives up each of these runs in order, and has the book that is left.
pub fn park_all(mut book: Book, mut tickets: Vec<Ticket>) -> Book
    requires in_hand { AllInHand book tickets.items }
    requires apart { AreApart tickets.items }
    ensures { result ≡ ended book tickets.items }
{
    while !tickets.is_empty() {
        runs_follow(book.setup(), book.history());
        let ticket = tickets.remove(0);
        let _ = park(&mut book, ticket, Why::Pending);
    }
    tickets.destroy_empty();
    book
}
