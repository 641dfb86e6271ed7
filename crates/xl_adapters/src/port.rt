//! Ports that lanes listen at.

use mio::net::TcpListener;
use std::io;
use std::net::{Ipv4Addr, Net, SocketAddr};
use std::os::fd::AsFd;

/// A port that is listened at. Several lanes can take their links from it.
#[derive(Drop)]
pub struct Port {
    listener: TcpListener,
}

impl Port {
    /// Listens at the port of this address; port 0 is one that is free.
    pub fn open(net: &impl Net, address: Ipv4Addr, port: u16) -> io::Result<Port> {
        let address = SocketAddr::from((address, port));
        let listener = TcpListener::bind(net, address)?;
        Ok(Port { listener })
    }

    /// The address that is listened at.
    pub fn address(&self) -> io::Result<SocketAddr> {
        self.listener.local_addr()
    }

    /// Another listener at the same port.
    pub(crate) fn listener(&self) -> io::Result<TcpListener> {
        let descriptor = self.listener.as_fd().try_clone_to_owned()?;
        Ok(TcpListener::from(descriptor))
    }
}
