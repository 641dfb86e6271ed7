//! Lanes over TCP.
ghost use Rattle.std.specs.Prelude.{◌≡◌, ◌≤◌, ◌||◌, length, IfOk, None, false};

use crate::link::{is_pending, receive, send};
use crate::port::Port;
use crate::wait::Waiter;
use mio::net::{TcpListener, TcpStream};
use std::alloc::Global;
use std::io;
use std::io::ErrorKind;
use std::net::{Net, Shutdown};
use xl_base::{Kind, Lane, NextOutcome, ReceiveOutcome, WriteOutcome};

/// A lane whose links are the connections that come to a port. A wait for a link, or for bytes of one, takes some 10 milliseconds
/// at most. A send fails if the link doesn't take the bytes in five seconds of waits. It never says that no link comes any more.
#[derive(Drop)]
pub struct TcpLane {
    kind: Kind,
    listener: Option<TcpListener>,
    accepts: Waiter,
    reads: Waiter,
    writes: Waiter,
    link: Option<TcpStream>,
    faults: u64,
    lost: u64,
    asked: u64,
}

impl TcpLane {
    /// A lane at this port, whose links speak this. If there is no port, since it could not be opened, each wait for a link fails.
    pub fn new(
        alloc: Global,
        net: &impl Net,
        port: Option<&Port>,
        kind: Kind,
    ) -> io::Result<TcpLane>
        ensures counts { IfOk result (λ lane. (lane.faults ≡ 0) × (lane.lost ≡ 0) × (lane.asked ≡ 0)) }
        ensures kind { IfOk result (λ lane. (lane.kind ≡ kind) × (lane.link ≡ None)) }
    {
        let accepts = Waiter::new(alloc, net)?;
        let reads = Waiter::new(alloc, net)?;
        let writes = Waiter::new(alloc, net)?;
        let listener = listener_at(port, &accepts)?;
        Ok(TcpLane {
            kind,
            listener,
            accepts,
            reads,
            writes,
            link: None,
            faults: 0,
            lost: 0,
            asked: 0,
        })
    }
}

/// A listener at this port, which ends waits.
fn listener_at(port: Option<&Port>, accepts: &Waiter) -> io::Result<Option<TcpListener>> {
    let Some(port) = port else {
        return Ok(None);
    };
    let mut listener = port.listener()?;
    accepts.add_reads(&mut listener)?;
    Ok(Some(listener))
}

/// The next connection of a listener, None if there is none yet. A connection that was given up before it was taken is none.
fn accept(listener: &TcpListener) -> io::Result<Option<TcpStream>> {
    match listener.accept() {
        Ok((stream, _)) => Ok(Some(stream)),
        Err(error) => {
            if is_pending(&error) || matches!(error.kind(), ErrorKind::ConnectionAborted) {
                Ok(None)
            } else {
                Err(error)
            }
        }
    }
}

/// The next connection of a listener, for which this waits a while.
fn accept_soon(listener: &TcpListener, accepts: &mut Waiter) -> io::Result<Option<TcpStream>> {
    if let Some(stream) = accept(listener)? {
        return Ok(Some(stream));
    }
    accepts.wait();
    accept(listener)
}

/// Has waits end for the connection. Small messages are sent at once.
fn attend(stream: &mut TcpStream, reads: &Waiter, writes: &Waiter) -> io::Result<()> {
    stream.set_nodelay(true)?;
    reads.add_reads(stream)?;
    writes.add_writes(stream)
}

impl TcpLane {
    /// The next connection in place of the one before; whether there was one.
    fn take_next(&mut self) -> io::Result<bool>
        ensures kind { self.new.kind ≡ self.old.kind }
        ensures counts { (self.new.faults ≡ self.old.faults) × (self.new.lost ≡ self.old.lost) × (self.new.asked ≡ self.old.asked) }
    {
        let Some(listener) = &self.listener else {
            return Err(io::Error::from(ErrorKind::NotConnected));
        };
        let Some(mut stream) = accept_soon(listener, &mut self.accepts)? else {
            return Ok(false);
        };
        attend(&mut stream, &self.reads, &self.writes)?;
        self.link = Some(stream);
        Ok(true)
    }
}

impl Lane for TcpLane {
    ghost told = { λ _. None };

    ghost faults = { λ l. l.faults };

    ghost lost = { λ l. l.lost };

    ghost ended = { λ _. false };

    ghost asked = { λ l. l.asked };

    fn faults(&self) -> u64 {
        self.faults
    }

    fn lost(&self) -> u64 {
        self.lost
    }

    fn ended(&self) -> bool {
        false
    }

    fn asked(&self) -> u64 {
        self.asked
    }

    fn next(&mut self) -> NextOutcome {
        self.asked = self.asked.saturating_add(1);
        match self.take_next() {
            Ok(true) => NextOutcome::Link(self.kind),
            Ok(false) => NextOutcome::Quiet,
            Err(_) => {
                self.faults = self.faults.saturating_add(1);
                self.lost = self.lost.saturating_add(1);
                NextOutcome::Failed
            }
        }
    }

    fn recv(&mut self, buffer: &mut [u8]) -> ReceiveOutcome {
        self.asked = self.asked.saturating_add(1);
        let Some(stream) = &mut self.link else {
            return ReceiveOutcome::End;
        };
        let outcome = receive(stream, &mut self.reads, buffer);
        if let ReceiveOutcome::Failed = outcome {
            self.faults = self.faults.saturating_add(1);
        }
        outcome
    }

    fn send(&mut self, bytes: &[u8]) -> WriteOutcome {
        let sent = match &mut self.link {
            Some(stream) => send(stream, &mut self.writes, bytes),
            None => false,
        };
        if sent {
            return WriteOutcome::Wrote;
        }
        self.faults = self.faults.saturating_add(1);
        WriteOutcome::Failed
    }

    fn shut(&mut self) {
        if let Some(stream) = self.link.take() {
            let _ = stream.shutdown(Shutdown::Both);
        }
    }
}
