//! Tests of a server: workers over gates in memory and over TCP.
#![tactic(auto)]

#[cfg(test)]
mod tests;
