//! Operations over rows of several accounts, and over states that no call reaches.

mod accounts;
mod batches;
mod books;
mod calls;
mod disputes;
mod documents;
mod refusals;
mod rows;
mod splits;
