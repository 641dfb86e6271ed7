//! Waits for sockets, each a while at most.

use mio::event::Source;
use mio::{Events, Interest, Poll, Token};
use std::alloc::Global;
use std::io;
use std::net::Net;
use std::time::Duration;

/// How many milliseconds one wait takes at most.
const WAIT: u64 = 10;

/// Waits until one of some sockets may be ready, or until a while has passed.
#[derive(Drop)]
pub(crate) struct Waiter {
    poll: Poll,
    events: Events<Global>,
}

impl Waiter {
    /// A waiter for no socket yet.
    pub(crate) fn new(alloc: Global, net: &impl Net) -> io::Result<Waiter> {
        Ok(Waiter {
            poll: Poll::new(net)?,
            events: Events::with_capacity(alloc, 4)?,
        })
    }

    /// Has waits end once there may be something to read from the socket, or a connection to accept.
    pub(crate) fn add_reads<S: Source>(&self, socket: &mut S) -> io::Result<()> {
        let registry = self.poll.registry();
        registry.register(socket, Token(0), Interest::READABLE)
    }

    /// Has waits end once the socket may take bytes.
    pub(crate) fn add_writes<S: Source>(&self, socket: &mut S) -> io::Result<()> {
        let registry = self.poll.registry();
        registry.register(socket, Token(0), Interest::WRITABLE)
    }

    /// Waits. A wait that fails has waited.
    pub(crate) fn wait(&mut self) {
        let most = Some(Duration::from_millis(WAIT));
        let _ = self.poll.poll(&mut self.events, most);
    }
}
