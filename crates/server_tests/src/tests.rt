//! What no session shows: several workers over one book.

mod gates;
mod histories;
mod link;
mod sockets;
mod told;
mod two;
mod words;
