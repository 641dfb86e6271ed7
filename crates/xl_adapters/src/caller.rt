//! A caller that dials the clients.
ghost use Rattle.std.specs.Prelude.{◌≡◌, ◌≤◌, length, IfOk, None};
ghost use Rattle.xl_adapters.specs.declared.caller.Unanswered.TheVariants.{NoMemory};

use crate::link::{receive, send};
use crate::wait::Waiter;
use mio::net::TcpStream;
use std::alloc::{AllocError, Global};
use std::io;
use std::io::ErrorKind;
use std::net::{Ipv4Addr, Net, SocketAddr};
use xl_base::{CallOutcome, Caller, Kind, MOST_MESSAGE_BYTES, ReceiveOutcome, Sequence};
use xl_frame::{Cutter, FeedErr, wrap};

/// How many waits of 10 milliseconds a client has to answer one call.
const MOST_WAITS: u64 = 200;

/// Which clients are dialled.
#[derive(Clone, Copy, Debug, PartialEq, Eq)]
pub enum Reach {
    /// Those on this machine: the addresses from 127.0.0.0 to 127.255.255.255.
    Loopback,
    /// Whoever is named.
    All,
}

/// A caller that dials a universal address over TCP (RFC 5665 5.2.3.3: h1.h2.h3.h4.p1.p2), sends the call as an RPC record, and waits two
/// seconds at most for the record that answers. Nobody answers an address that isn't one, isn't in reach, refuses the connection, or
/// gives no whole record in time; another fault is a failed call.
#[derive(Drop)]
pub struct TcpCaller<R> {
    net: R,
    reach: Reach,
    reads: Waiter,
    writes: Waiter,
    faults: u64,
    asked: u64,
}

impl<R: Net + Drop> TcpCaller<R> {
    /// A caller that dials the clients in reach.
    pub fn new(alloc: Global, net: R, reach: Reach) -> io::Result<TcpCaller<R>>
        ensures counts { IfOk result (λ caller. (caller.faults ≡ 0) × (caller.asked ≡ 0)) }
        ensures reach { IfOk result (λ caller. caller.reach ≡ reach) }
    {
        let reads = Waiter::new(alloc, &net)?;
        let writes = Waiter::new(alloc, &net)?;
        Ok(TcpCaller {
            net,
            reach,
            reads,
            writes,
            faults: 0,
            asked: 0,
        })
    }
}

/// A part of an address: a decimal number below 256.
fn part_of(text: &[u8]) -> Option<u8> {
    let mut value: u8 = 0;
    if text.is_empty() {
        return None;
    }
    for digit in text {
        if !digit.is_ascii_digit() {
            return None;
        }
        value = value.checked_mul(10)?.checked_add(*digit - b'0')?;
    }
    Some(value)
}

/// The six parts of a universal address.
fn parts_of(text: &[u8]) -> Option<[u8; 6]> {
    let mut parts = [0u8; 6];
    let mut count = 0usize;
    for word in text.split(|byte| *byte == b'.') {
        let place = parts.get_mut(count)?;
        *place = part_of(word)?;
        count += 1;
    }
    if count == 6 { Some(parts) } else { None }
}

/// The socket address that a universal address names, if it is in reach.
fn address_of(reach: Reach, text: &[u8]) -> Option<SocketAddr> {
    let [a, b, c, d, high, low] = parts_of(text)?;
    let host = Ipv4Addr::new(a, b, c, d);
    if reach == Reach::Loopback && !host.is_loopback() {
        return None;
    }
    Some(SocketAddr::from((host, u16::from_be_bytes([high, low]))))
}

/// How an attempt at a call ended that gave no answer.
enum Unanswered {
    /// Nobody is there, or nobody answered.
    Nobody,
    /// The system failed.
    Failed,
    /// Memory ran out.
    NoMemory,
}

impl From<AllocError> for Unanswered {
    ghost from_gives = { λ _ unanswered. unanswered ≡ NoMemory };

    fn from(_refused: AllocError) -> Unanswered {
        Unanswered::NoMemory
    }
}

/// Whether the system says of a connection that nobody is there.
fn is_nobody(error: &io::Error) -> bool {
    matches!(
        error.kind(),
        ErrorKind::ConnectionRefused
            | ErrorKind::ConnectionReset
            | ErrorKind::HostUnreachable
            | ErrorKind::NetworkUnreachable
            | ErrorKind::TimedOut
    )
}

/// What a connection that failed so leaves unanswered.
fn failure_of(error: &io::Error) -> Unanswered {
    if is_nobody(error) {
        Unanswered::Nobody
    } else {
        Unanswered::Failed
    }
}

/// Whether a connection that was begun is there, None if not yet.
fn is_there(stream: &TcpStream) -> Result<bool, Unanswered> {
    match stream.take_error() {
        Ok(None) => {}
        Ok(Some(error)) | Err(error) => return Err(failure_of(&error)),
    }
    match stream.peer_addr() {
        Ok(_) => Ok(true),
        Err(error) => match error.kind() {
            ErrorKind::NotConnected => Ok(false),
            _ => Err(failure_of(&error)),
        },
    }
}

/// Waits until a connection that was begun is there.
fn connected(stream: &TcpStream, writes: &mut Waiter) -> Result<(), Unanswered> {
    for _ in 0..MOST_WAITS {
        if is_there(stream)? {
            return Ok(());
        }
        writes.wait();
    }
    Err(Unanswered::Nobody)
}

/// The first record that a connection gives.
fn record_from(
    alloc: Global,
    stream: &mut TcpStream,
    reads: &mut Waiter,
) -> Result<Vec<u8>, Unanswered> {
    let mut cutter = Cutter::new(alloc, Kind::Rpc);
    let mut buffer = [0u8; 4_096];
    for _ in 0..MOST_WAITS {
        match receive(stream, reads, &mut buffer) {
            ReceiveOutcome::Got(count) => feed(alloc, &mut cutter, &buffer[..count])?,
            ReceiveOutcome::Quiet => {}
            ReceiveOutcome::End | ReceiveOutcome::Failed => return Err(Unanswered::Nobody),
        }
        if let Some(record) = cutter.next() {
            return Ok(record);
        }
    }
    Err(Unanswered::Nobody)
}

/// Gives a piece of an answer to its cutter.
fn feed(alloc: Global, cutter: &mut Cutter, piece: &[u8]) -> Result<(), Unanswered> {
    match cutter.feed(alloc, piece) {
        Ok(()) => Ok(()),
        Err(FeedErr::Bad(_)) => Err(Unanswered::Nobody),
        Err(FeedErr::NoMemory) => Err(Unanswered::NoMemory),
    }
}

impl<R: Net> TcpCaller<R> {
    /// The record that the client at this address answers to this one.
    fn ask(
        &mut self,
        alloc: Global,
        address: SocketAddr,
        bytes: &[u8],
    ) -> Result<Vec<u8>, Unanswered>
        ensures counts { (self.new.faults ≡ self.old.faults) × (self.new.asked ≡ self.old.asked) }
    {
        if bytes.len() > MOST_MESSAGE_BYTES {
            return Err(Unanswered::Nobody);
        }
        let call = wrap(alloc, Kind::Rpc, bytes)?;
        let mut stream = match TcpStream::connect(&self.net, address) {
            Ok(stream) => stream,
            Err(error) => return Err(failure_of(&error)),
        };
        let attended = self
            .writes
            .add_writes(&mut stream)
            .and(self.reads.add_reads(&mut stream));
        if attended.is_err() {
            return Err(Unanswered::Failed);
        }
        connected(&stream, &mut self.writes)?;
        if !send(&mut stream, &mut self.writes, &call) {
            return Err(Unanswered::Nobody);
        }
        record_from(alloc, &mut stream, &mut self.reads)
    }
}

impl<R: Net> Caller for TcpCaller<R> {
    ghost told = { λ _. None };

    ghost faults = { λ c. c.faults };

    ghost asked = { λ c. c.asked };

    fn faults(&self) -> u64 {
        self.faults
    }

    fn asked(&self) -> u64 {
        self.asked
    }

    fn call(&mut self, alloc: Global, to: &[u8], bytes: &[u8]) -> CallOutcome {
        self.asked = self.asked.saturating_add(1);
        let Some(address) = address_of(self.reach, to) else {
            return CallOutcome::Nobody;
        };
        match self.ask(alloc, address, bytes) {
            Ok(record) => CallOutcome::Answer(Sequence::from_vec(record)),
            Err(Unanswered::Nobody) => CallOutcome::Nobody,
            Err(Unanswered::NoMemory) => CallOutcome::NoMemory,
            Err(Unanswered::Failed) => {
                self.faults = self.faults.saturating_add(1);
                CallOutcome::Failed
            }
        }
    }

    fn idle(&mut self, _seen: u64) {
        self.asked = self.asked.saturating_add(1);
        self.reads.wait();
    }
}
