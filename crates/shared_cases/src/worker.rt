//! One client's session over the shared book.
ghost use Rattle.std.specs.Prelude.{◌≡◌, All};

use ph_bank::{Acquirer, MemAcquirer, Patience, Turns};
use ph_book::Book;
use ph_conn::{Closed, TalkError, TalkRules, serve_shared};
use ph_io::{MemDuplex, MemSink, MemSource};
use ph_lock::{Lock, Pass};
use std::alloc::Global;
use std::sync::Wait;
use std::thread::{Threads, for_each_mut};

/// A client: its pass, its connection, its link to the acquirer, and how its session ended.
#[derive(Drop)]
pub struct Worker<A: Acquirer> {
    pub pass: Pass<Book>,
    pub conn: MemDuplex,
    pub link: A,
    pub patience: Turns,
    pub ended: Option<Result<Closed, TalkError>>,
}

/// A client that sends these bytes.
pub fn connect<A: Acquirer>(alloc: Global, pass: Pass<Book>, bytes: Vec<u8>, link: A) -> Worker<A>
    ensures { result.pass ≡ pass }
{
    Worker {
        pass,
        conn: MemDuplex::new(
            MemSource::new(bytes, 64, Vec::new(alloc)),
            MemSink::new(alloc, 4096, Vec::new(alloc)),
            None,
        ),
        link,
        patience: Turns::new(3),
        ended: None,
    }
}

/// Serves a client's connection.
pub fn serve<R: Wait, A: Acquirer>(rt: &R, alloc: Global, lock: &Lock<Book>, worker: &mut Worker<A>)
    requires lock { worker.old.pass.lock ≡ lock.now }
    ensures lock { worker.new.pass.lock ≡ worker.old.pass.lock }
{
    let rules = TalkRules { limit: 100 };
    worker.ended = Some(serve_shared(
        rt,
        alloc,
        lock,
        &mut worker.pass,
        &mut worker.conn,
        &mut worker.link,
        &mut worker.patience,
        &rules,
    ));
}

/// Serves all clients at once, each in a thread of its own.
pub fn serve_all<R: Threads + Wait + Sync>(
    rt: &R,
    alloc: Global,
    lock: &Lock<Book>,
    workers: &mut [Worker<MemAcquirer>],
)
    requires { All (λ w. w.pass.lock ≡ lock.now) workers.old }
{
    let threads = workers.len();
    if threads > 0 {
        for_each_mut(
            rt,
            workers,
            threads,
            &|_, worker| { serve(rt, alloc, lock, worker) },
        );
    }
}
