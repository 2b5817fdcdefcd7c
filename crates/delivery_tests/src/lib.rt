//! Tests of deliveries and of their signatures.
#![tactic(auto)]

#[cfg(test)]
mod tests;
