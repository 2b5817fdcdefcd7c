//! A port of this machine.
ghost use Rattle.std.specs.Prelude.{◌≡◌, true, not, is_some, OnOk, OnSome};
ghost use Rattle.ph_net.specs.Forms.{unopened};

use crate::tcp_gate::TcpGate;
use std::io;
use std::marker::Model;
use std::net::{IpAddr, Ipv4Addr, Net, SocketAddr, TcpListener, TcpStream};

/// A port of 127.0.0.1 that is listened on, or the cause why it can't be. The gates of several
/// workers share one.
///
/// Contracts see whether it is listened on.
#[derive(Drop)]
pub struct Port {
    listener: io::Result<TcpListener>,
}

impl Model for Port {
    ghost use Rattle.std.specs.Prelude.{Bool, is_ok};

    ghost Value = { Bool };

    ghost view = { λ p. is_ok p.listener };
}

impl Port {
    /// Listens on the port of this number; 0 stands for any that is free.
    pub fn listen<R: Net<Listener = TcpListener, Stream = TcpStream>>(rt: &R, number: u16) -> Port {
        let address = SocketAddr::new(IpAddr::V4(Ipv4Addr::LOCALHOST), number);
        Port {
            listener: TcpListener::bind(rt, address),
        }
    }

    /// Why it isn't listened on, where it isn't.
    pub fn fault(&self) -> Option<io::Error>
        ensures { is_some result ≡ not self.now }
    {
        self.listener.as_ref().err().copied()
    }

    /// Its number, where it is listened on and the system tells it.
    pub fn number(&self) -> Option<u16>
        ensures { OnSome result (self.now ≡ true) }
    {
        let listener = self.listener.as_ref().ok()?;
        let address = listener.local_addr().ok()?;
        Some(address.port())
    }

    /// A gate that hands out at most so many of its connections.
    pub fn gate(&self, most: u32) -> TcpGate<'_>
        ensures { result ≡ unopened self.now most }
    {
        TcpGate::new(self, most)
    }

    /// The next connection. It sends each write at once (TCP_NODELAY), so that no reply is held back
    /// until the one before it is acknowledged. Where that can't be set, the connection is closed.
    pub(crate) fn accept(&self) -> io::Result<TcpStream>
        ensures { OnOk result (self.now ≡ true) }
    {
        match &self.listener {
            Ok(listener) => {
                let (stream, _) = listener.accept()?;
                stream.set_nodelay(true)?;
                Ok(stream)
            }
            Err(fault) => Err(*fault),
        }
    }
}
