//! Tests of operations and of what they stand on, over rows that no history has today: those of several accounts, and
//! of states that no call reaches. What a history shows stands in `cases`.
#![tactic(auto)]

#[cfg(test)]
mod tests;
