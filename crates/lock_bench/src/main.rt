//! Threads that act on one locked tally: each works for a while, and works again inside its turn.
//!
//! Its words are the number of threads, the acts of each, and the rounds of work outside and inside the lock. What it
//! prints is the same whatever the schedule; how long it takes is for the one who runs it to measure.
#![tactic(auto)]

mod busy;

ghost use Rattle.std.specs.Prelude.{◌≡◌, ◌<◌, ◌≤◌, All, IfOk};

use busy::{Busy, work};
use ph_lock::tally::{Add, Over};
use ph_lock::{Lock, Object, Pass};
use std::alloc::{AllocError, Global};
use std::sync::Wait;
use std::thread::{Threads, for_each_mut};
use std::{env, io};

/// How much is to be done.
#[derive(Clone, Copy)]
struct Load {
    threads: u32,
    acts: u32,
    outside: u32,
    inside: u32,
}

/// One thread's pass, and what its work came to.
#[derive(Drop)]
struct Worker {
    pass: Pass<Busy>,
    mixed: u64,
}

// Acts so often, working between the acts.
fn act_often<R: Wait>(rt: &R, lock: &Lock<Busy>, worker: &mut Worker, load: Load)
    requires lock { worker.old.pass.lock ≡ lock.now }
{
    for at in 0..load.acts {
        let amount = at as u64 + 1;
        worker.mixed ^= work(amount, load.outside);
        let _ = lock.act(rt, &mut worker.pass, Add(amount));
    }
}

// All workers act at once.
fn act_all<R: Threads + Wait + Sync>(rt: &R, lock: &Lock<Busy>, workers: &mut [Worker], load: Load)
    requires { All (λ w. w.pass.lock ≡ lock.now) workers.old }
{
    let threads = workers.len();
    if threads > 0 {
        for_each_mut(
            rt,
            workers,
            threads,
            &|_, worker| { act_often(rt, lock, worker, load) },
        );
    }
}

// Workers for so many threads, each with a pass of its own.
fn workers_of<R: Wait>(
    rt: &R,
    alloc: Global,
    lock: &Lock<Busy>,
    first: &mut Pass<Busy>,
    threads: u32,
) -> Result<Vec<Worker>, AllocError>
    requires { first.old.lock ≡ lock.now }
    ensures same { first.new ≡ first.old }
    ensures workers { IfOk result (λ all. All (λ w. w.pass.lock ≡ lock.now) all.items) }
{
    let mut all = Vec::new(alloc);
    for _ in 0..threads {
        let pass = lock.split(rt, first);
        all.push(Worker { pass, mixed: 0 })?;
    }
    Ok(all)
}

// The words after the program's name.
fn load_of(words: &[String]) -> Option<Load> {
    let [_, threads, acts, outside, inside] = words else {
        return None;
    };
    Some(Load {
        threads: threads.parse().ok()?,
        acts: acts.parse().ok()?,
        outside: outside.parse().ok()?,
        inside: inside.parse().ok()?,
    })
}

fn main(rt: HostRuntime) -> io::Result<()> {
    let mut words = Vec::new(rt.alloc());
    for word in env::args(&rt)? {
        words.push(word)?;
    }
    let Some(load) = load_of(&words) else {
        println!(rt; "words: THREADS ACTS OUTSIDE INSIDE")?;
        return Ok(());
    };
    let total = load.threads as u64 * load.acts as u64;
    if total >= 1 << 31 {
        println!(rt; "too many acts")?;
        return Ok(());
    }
    let busy = Busy::new(rt.alloc(), total, load.inside);
    let Ok((lock, mut first)) = Lock::new(rt.alloc(), busy) else {
        println!(rt; "no memory")?;
        return Ok(());
    };
    let made = workers_of(&rt, rt.alloc(), &lock, &mut first, load.threads);
    let mut mixed = 0;
    if let Ok(mut workers) = made {
        act_all(&rt, &lock, workers.as_mut_slice(), load);
        for worker in &workers {
            mixed ^= worker.mixed;
        }
    }
    let (busy, _view) = lock.close(&rt, first);
    let all = !busy.look(&Over(total)) && (total == 0 || busy.look(&Over(total - 1)));
    println!(rt;
        "{total} acts, all entered: {all}, {mixed}, {}",
        busy.mixed()
    )?;
    Ok(())
}
