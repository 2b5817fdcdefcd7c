//! The top call of a server.
ghost use Rattle.std.specs.Prelude.{◌≡◌, ◌≢◌, [], All, None, Some, IfNone, IfSome, IsSomeAnd, false, true, length, map};
ghost use Rattle.std.specs.List.{AllZip};
ghost use Rattle.ph_lock.specs.Histories.{StartsWith};
ghost use Rattle.ph_lock.specs.Passes.{SamePass};
ghost use Rattle.ph_book.specs.History.{doings_of};
ghost use Rattle.ph_book.specs.Hosts.{IsLawful};
ghost use Rattle.ph_book.specs.Legal.{IsLegal};
ghost use Rattle.ph_conn.specs.Laws.{AuthorisedOnce, HoldLaws};
ghost use Rattle.ph_host.specs.Endings.{end_text, wants_history};
ghost use Rattle.ph_host.specs.KeyLaws.{HoldKeyLaws};
ghost use Rattle.ph_host.specs.Plans.{WritesUsage, is_host_of, plan_of};
ghost use Rattle.ph_host.specs.Servers.{IsNewPass, ServedBy, Tells, WorksBy, status_of_ends};
ghost use Rattle.ph_host.specs.Setups.{setup_of};
ghost use Rattle.ph_host.specs.declared.workers.WorkerEnd.TheVariants as WorkerEnd;

use crate::endings::write_end;
use crate::flags::asks_history;
use crate::gates::serve_gate;
use crate::planning::plan;
use crate::plans::Plan;
use crate::setups::{book, options};
use crate::usage::usage;
use crate::workers::{Worker, WorkerEnd};
use ph_bank::{Acquirer, Patience};
use ph_base::{Bytes, NoMemory};
use ph_book::{Book, Hosted};
use ph_conn::TalkRules;
use ph_io::{Gate, Sink};
use ph_lock::{Lock, Pass};
use std::alloc::Global;
use std::sync::Wait;
use std::thread::{Threads, for_each_mut};

// How many requests a session over one connection serves.
const LIMIT: u32 = 1_000;

/// Runs the server that the words ask for, with the workers that it is handed, until each of them has ended. It answers the exit
/// status and the book, which nobody else has then; there is none with status 2, or with 6 where there was no memory for it.
///
/// Each worker serves the connections of its gate one after another, in a thread of its own where one can be made, and all of
/// them act on one book. A session serves at most 1,000 requests. When all have ended, the text of the book's
/// history is written to the output, where `--history` asks for it, and then the summary. The status is
///
/// | status | where |
/// |---|---|
/// | 0 | the gate of each worker has no more connections |
/// | 2 | the words ask for no server, or for another number of workers: the output is the usage line |
/// | 4 | a write failed |
/// | 6 | there was no memory |
/// | 7 | a gate failed |
/// | 9 | the history had no room for a request |
///
/// Of several workers, the first one whose gate hasn't ended says which of 6, 7 and 9 it is.
///
/// Each worker is one that hasn't begun: it has no pass and has shown none.
pub fn run_host<
    R: Threads + Wait + Sync,
    G: Gate<Conn: Send> + Send,
    A: Acquirer + Send,
    P: Patience + Send,
    K: Sink,
>(
    rt: &R,
    alloc: Global,
    words: &[Bytes],
    workers: &mut [Worker<G, A, P, Book>],
    output: &mut K,
) -> (u8, Option<Book>)
    requires fresh { All (λ worker. (worker.pass ≡ None) × (worker.last ≡ None)) workers.old }

    // The words ask for no server, or for another number of workers.
    ensures usage { is_host_of (length workers.old) (plan_of words.now) ≡ false → (result.0 ≡ 2) × (result.1 ≡ None)
        × (workers.new ≡ workers.old) × WritesUsage (K.sink output.old) (K.sink output.new) }

    // There was no memory for the book: nothing was served, and nothing written.
    ensures none { is_host_of (length workers.old) (plan_of words.now) ≡ true → IfNone result.1 ((result.0 ≡ 6)
        × (workers.new ≡ workers.old) × (K.sink output.new ≡ K.sink output.old)) }

    // Each worker served its gate by a pass of one book of the words' setup, which knew nothing of the history before; the
    // book that comes back is that one, and its history begins with what each pass showed last.
    ensures workers { IfSome result.1 (λ book. (book.setup ≡ setup_of words.now)
        × AllZip (λ old new. (new.pass ≡ None) × IsSomeAnd new.last (λ shown. StartsWith book.history shown.front
        × WorksBy (setup_of words.now) shown new.end (A.link old.link) (A.link new.link) (P.counts old.patience) (P.counts new.patience) (G.gate old.gate) (G.gate new.gate))) workers.old workers.new) }

    // The book's history is legal, so the laws of attempts hold of it. Where each attempt that is settled there is settled with the
    // decision that a worker's link tells, no confirmation was authorised twice among that link's asks.
    ensures laws { IfSome result.1 (λ book. IsLegal book.setup book.history × HoldLaws (doings_of book.setup book.history)) }
    ensures authorised_once { IfSome result.1 (λ book. All (λ worker. AuthorisedOnce (doings_of book.setup book.history) (A.link worker.link)) workers.new) }

    // The laws of idempotency keys hold of every legal history of its setup, and so of its own: an equal request under the same key
    // finds, for a day, what the first one came to, and begins no attempt.
    ensures keys { IfSome result.1 (λ book. HoldKeyLaws book.setup) }

    // The text of its history was written, where the words ask for it, and then the summary, and the status is that of the workers'
    // ends; or a write of it failed.
    ensures summary { IfSome result.1 (λ book. Tells (map (λ worker. worker.end) workers.new) result.0 (end_text (wants_history words.now) book.setup book.history) (K.sink output.old) (K.sink output.new)) }
{
    match plan(words) {
        Plan::Host { workers: count, .. } if workers.len() == usize::from(count) => {
            match book(alloc, words) {
                Ok(book) => {
                    let history = asks_history(options(words));
                    host(rt, alloc, book, history, workers, output)
                }
                Err(NoMemory) => (6, None),
            }
        }
        _ => (usage(output), None),
    }
}

// Runs the workers over one book, and writes its history, where it is asked for, and the summary.
fn host<
    R: Threads + Wait + Sync,
    G: Gate<Conn: Send> + Send,
    A: Acquirer + Send,
    P: Patience + Send,
    K: Sink,
>(
    rt: &R,
    alloc: Global,
    book: Book,
    history: bool,
    workers: &mut [Worker<G, A, P, Book>],
    output: &mut K,
) -> (u8, Option<Book>)
    requires fresh { All (λ worker. (worker.pass ≡ None) × (worker.last ≡ None)) workers.old }
    requires empty { book.history ≡ [] }
    requires lawful { IsLawful book.setup book.history }
    ensures none { IfNone result.1 ((result.0 ≡ 6) × (workers.new ≡ workers.old) × (K.sink output.new ≡ K.sink output.old)) }
    ensures workers { IfSome result.1 (λ closed. (closed.setup ≡ book.setup)
        × AllZip (λ old new. (new.pass ≡ None) × IsSomeAnd new.last (λ shown. StartsWith closed.history shown.front
        × WorksBy book.setup shown new.end (A.link old.link) (A.link new.link) (P.counts old.patience) (P.counts new.patience) (G.gate old.gate) (G.gate new.gate))) workers.old workers.new) }
    ensures laws { IfSome result.1 (λ closed. IsLegal closed.setup closed.history × HoldLaws (doings_of closed.setup closed.history)) }
    ensures authorised_once { IfSome result.1 (λ closed. All (λ worker. AuthorisedOnce (doings_of closed.setup closed.history) (A.link worker.link)) workers.new) }
    ensures keys { IfSome result.1 (λ closed. HoldKeyLaws closed.setup) }
    ensures summary { IfSome result.1 (λ closed. Tells (map (λ worker. worker.end) workers.new) result.0 (end_text history closed.setup closed.history) (K.sink output.old) (K.sink output.new)) }
{
    let (lock, mut first) = match Lock::new(alloc, book) {
        Ok(made) => made,
        Err((_, NoMemory)) => return (6, None),
    };
    split_each(rt, &lock, &mut first, workers);
    serve_all(rt, alloc, &lock, workers);
    join_each(&lock, &mut first, workers);
    let (book, _) = lock.close(rt, first);
    match write_end(&book, history, output) {
        Ok(()) => (status(workers), Some(book)),
        Err(_) => (4, Some(book)),
    }
}

// Gives each worker a pass of its own, which knows what the first one does.
fn split_each<R: Wait, G, A, P>(
    rt: &R,
    lock: &Lock<Book>,
    first: &mut Pass<Book>,
    workers: &mut [Worker<G, A, P, Book>],
)
    requires lock { first.old.lock ≡ lock.now }
    ensures same { first.new ≡ first.old }
    ensures passes { AllZip (λ old new. (new.gate ≡ old.gate) × (new.link ≡ old.link) × (new.patience ≡ old.patience) × (new.last ≡ old.last)
        × IsSomeAnd new.pass (IsNewPass lock.now first.old.base first.old.front)) workers.old workers.new }
{
    for worker in workers.iter_mut() {
        split_one(rt, lock, first, worker);
    }
}

// Gives a worker a pass of its own.
fn split_one<R: Wait, G, A, P>(
    rt: &R,
    lock: &Lock<Book>,
    first: &mut Pass<Book>,
    worker: &mut Worker<G, A, P, Book>,
)
    requires lock { first.old.lock ≡ lock.now }
    ensures same { first.new ≡ first.old }
    ensures gate { worker.new.gate ≡ worker.old.gate }
    ensures link { worker.new.link ≡ worker.old.link }
    ensures patience { worker.new.patience ≡ worker.old.patience }
    ensures last { worker.new.last ≡ worker.old.last }
    ensures pass { IsSomeAnd worker.new.pass (IsNewPass lock.now first.old.base first.old.front) }
{
    let pass = lock.split(rt, first);
    worker.pass = Some(pass);
}

// Lets each worker serve its gate, in a thread of its own where one can be made.
fn serve_all<
    R: Threads + Wait + Sync,
    O: Hosted + Send,
    G: Gate<Conn: Send> + Send,
    A: Acquirer + Send,
    P: Patience + Send,
>(rt: &R, alloc: Global, lock: &Lock<O>, workers: &mut [Worker<G, A, P, O>])
where
    O::Answer: Send,
    O::Entry: Send,
    O::Deed: Send,
    O::Base: Send,
    requires passes { All (λ worker. IsSomeAnd worker.pass (λ pass. pass.lock ≡ lock.now)) workers.old }
    ensures served { AllZip (λ old new. (new.last ≡ old.last) × IfSome old.pass (λ before. IsSomeAnd new.pass (λ after.
        ServedBy O.by O.lawful O.setup O.plain O.mark before after new.end (A.link old.link) (A.link new.link) (P.counts old.patience) (P.counts new.patience) (G.gate old.gate) (G.gate new.gate)))) workers.old workers.new }
{
    let threads = workers.len();
    if threads > 0 {
        let work = |_: usize, worker: &mut Worker<G, A, P, O>|
            requires { IsSomeAnd worker.now.pass (λ pass. pass.lock ≡ lock.now) }
            ensures last { worker.exit.now.last ≡ worker.entry.now.last }
            ensures served { IfSome worker.entry.now.pass (λ before. IsSomeAnd worker.exit.now.pass (λ after.
                ServedBy O.by O.lawful O.setup O.plain O.mark before after worker.exit.now.end (A.link worker.entry.now.link) (A.link worker.exit.now.link) (P.counts worker.entry.now.patience) (P.counts worker.exit.now.patience) (G.gate worker.entry.now.gate) (G.gate worker.exit.now.gate))) }
        { serve(rt, alloc, lock, worker) };
        for_each_mut(rt, workers, threads, &work);
    }
}

// Lets a worker serve its gate.
fn serve<R: Wait, O: Hosted, G: Gate, A: Acquirer, P: Patience>(
    rt: &R,
    alloc: Global,
    lock: &Lock<O>,
    worker: &mut Worker<G, A, P, O>,
)
    requires pass { IsSomeAnd worker.old.pass (λ pass. pass.lock ≡ lock.now) }
    ensures last { worker.new.last ≡ worker.old.last }
    ensures served { IfSome worker.old.pass (λ before. IsSomeAnd worker.new.pass (λ after.
        ServedBy O.by O.lawful O.setup O.plain O.mark before after worker.new.end (A.link worker.old.link) (A.link worker.new.link) (P.counts worker.old.patience) (P.counts worker.new.patience) (G.gate worker.old.gate) (G.gate worker.new.gate))) }
{
    let Some(pass) = &mut worker.pass else {
        unreachable!()
    };
    let rules = TalkRules { limit: LIMIT };
    worker.end = serve_gate(
        rt,
        alloc,
        lock,
        pass,
        &mut worker.gate,
        &mut worker.link,
        &mut worker.patience,
        &rules,
    );
}

// Takes each worker's pass back into the first one, whose front then begins with that of each.
fn join_each<G, A, P>(
    lock: &Lock<Book>,
    first: &mut Pass<Book>,
    workers: &mut [Worker<G, A, P, Book>],
)
    requires lock { first.old.lock ≡ lock.now }
    requires passes { All (λ worker. IsSomeAnd worker.pass (λ pass. pass.lock ≡ lock.now)) workers.old }
    ensures same { SamePass first.old first.new }
    ensures front { StartsWith first.new.front first.old.front }
    ensures joined { AllZip (λ old new. (new.gate ≡ old.gate) × (new.link ≡ old.link) × (new.patience ≡ old.patience) × (new.end ≡ old.end)
        × (new.pass ≡ None) × IsSomeAnd old.pass (λ pass. (new.last ≡ Some pass) × StartsWith first.new.front pass.front)) workers.old workers.new }
{
    for worker in workers.iter_mut() {
        join_one(lock, first, worker);
    }
}

// Takes a worker's pass back into the first one.
fn join_one<G, A, P>(lock: &Lock<Book>, first: &mut Pass<Book>, worker: &mut Worker<G, A, P, Book>)
    requires lock { first.old.lock ≡ lock.now }
    requires pass { IsSomeAnd worker.old.pass (λ pass. pass.lock ≡ lock.now) }
    ensures same { SamePass first.old first.new }
    ensures front { StartsWith first.new.front first.old.front }
    ensures gate { worker.new.gate ≡ worker.old.gate }
    ensures link { worker.new.link ≡ worker.old.link }
    ensures patience { worker.new.patience ≡ worker.old.patience }
    ensures end { worker.new.end ≡ worker.old.end }
    ensures none { worker.new.pass ≡ None }
    ensures joined { IsSomeAnd worker.old.pass (λ pass. (worker.new.last ≡ Some pass) × StartsWith first.new.front pass.front) }
{
    let Some(pass) = worker.pass.take() else {
        unreachable!()
    };
    let view = lock.join(first, pass);
    worker.last = Some(view);
}

// The exit status of workers that have ended: that of the first whose gate hasn't.
fn status<G, A, P>(workers: &[Worker<G, A, P, Book>]) -> u8
    requires ended { All (λ worker. worker.end ≢ WorkerEnd.Idle) workers.now }
    ensures { result ≡ status_of_ends (map (λ worker. worker.end) workers.now) }
{
    match workers {
        [] => 0,
        [worker, others @ ..] => match worker.end {
            WorkerEnd::Done { .. } => status(others),
            WorkerEnd::GateFault => 7,
            WorkerEnd::NoMemory => 6,
            WorkerEnd::Full => 9,
            WorkerEnd::Idle => unreachable!(),
        },
    }
}
