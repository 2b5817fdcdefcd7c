//! Tests of what stands at payhost's edges: devices, acquirers, tickets and the lock.
#![tactic(auto)]

#[cfg(test)]
mod tests;
