//! What no session shows: readers and writers of std that fail, futures that are dropped, tickets, and threads.

mod acquirers;
mod connections;
mod dialers;
mod locks;
mod ports;
mod sinks;
mod sources;
mod tickets;
