//! The world: one history on which requests arrive, futures are polled and dropped, links fail, the acquirer decides and
//! clocks show moments, in any order.
//!
//! A list of moves is any such order. After every one of them the laws hold that are the contracts of `laws`: above all,
//! no confirmation is authorised twice, whatever is dropped, sent again or taken up again. `World` carries moves out, on
//! a book: it is always what some list of moves leads to, so the laws hold of it, and no move has a condition.
#![tactic(auto)]

mod ask;
mod inner;
mod laws;
mod moves;
mod requests;
mod tickets;
mod world;

pub use ask::Ask;
pub use laws::{
    asks_are_of_live_attempts, asks_are_orders, authorised_once, decisions_stay, legal,
    never_asked_when_settled, replies_are_answers, rulings_are_decisions, settled_stays,
};
pub use moves::{Move, WorldError};
pub use world::World;
