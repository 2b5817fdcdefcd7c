//! Workers: each serves the connections of its own gate, one after another.
ghost use Rattle.std.specs.Prelude.{◌≡◌, None};
ghost use Rattle.ph_host.specs.declared.workers.WorkerEnd.TheVariants as WorkerEnd;

use ph_lock::{Object, Pass, PassView};

/// How a worker ended.
#[derive(Clone, Copy, Debug, PartialEq, Eq)]
pub enum WorkerEnd {
    /// It hasn't begun.
    Idle,
    /// Its gate has no more connections.
    Done {
        /// How many connections it served.
        sessions: u64,
        /// How many of these sessions were broken off by a read or a write that failed, by an input that ended within a request, or
        /// by a store that failed.
        broken: u64,
    },
    /// Its gate failed.
    GateFault,
    /// There was no memory for a session.
    NoMemory,
    /// The history had no room for a request.
    Full,
}

/// One worker of a server. Its pass is its own while it serves; before and after, it has none.
#[derive(Drop)]
pub struct Worker<G, A, P, O: Object> {
    /// Where its connections come from.
    pub gate: G,
    /// Its link to the acquirer.
    pub link: A,
    /// How long a session of its waits for a ruling.
    pub patience: P,
    /// Its pass, while it serves.
    pub pass: Option<Pass<O>>,
    /// What its pass showed last.
    pub last: Option<PassView<O>>,
    /// How it ended.
    pub end: WorkerEnd,
}

impl<G, A, P, O: Object> Worker<G, A, P, O> {
    /// A worker that hasn't begun.
    pub fn new(gate: G, link: A, patience: P) -> Self
        ensures { result ≡ record { gate = gate; link = link; patience = patience; pass = None; last = None; end = WorkerEnd.Idle } }
    {
        Worker {
            gate,
            link,
            patience,
            pass: None,
            last: None,
            end: WorkerEnd::Idle,
        }
    }
}
