//! Connections over TCP: a port of 127.0.0.1, the gates of the workers that share it, a dialer to far
//! ends, and what a gate and a dialer hand out.
#![tactic(auto)]

mod port;
mod tcp_dialer;
mod tcp_duplex;
mod tcp_gate;
mod timed_duplex;

pub use port::Port;
pub use tcp_dialer::TcpDialer;
pub use tcp_duplex::TcpDuplex;
pub use tcp_gate::TcpGate;
pub use timed_duplex::TimedDuplex;
