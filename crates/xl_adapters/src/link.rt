//! Reads and writes of connections, which wait a while at most.
ghost use Rattle.std.specs.Prelude.{◌≡◌, ◌≤◌, ◌<◌, length, IfSome};
ghost use Rattle.xl_base.specs.Links.{Fits};

use crate::wait::Waiter;
use mio::net::TcpStream;
use std::io;
use std::io::{ErrorKind, Read, Write};
use xl_base::ReceiveOutcome;

/// How many waits of 10 milliseconds a connection has to take the bytes of one send.
const MOST_WAITS: u64 = 500;

/// Whether what failed is to be tried again.
pub(crate) fn is_pending(error: &io::Error) -> bool {
    matches!(error.kind(), ErrorKind::WouldBlock | ErrorKind::Interrupted)
}

/// Reads what a connection has now. Quiet says that there is nothing yet.
fn read_now(stream: &mut TcpStream, buffer: &mut [u8]) -> ReceiveOutcome
    requires { 0 < length buffer.old }
    ensures fits { Fits result buffer.new }
    ensures same { length buffer.new ≡ length buffer.old }
{
    match stream.read(buffer) {
        Ok(0) => ReceiveOutcome::End,
        Ok(count) => ReceiveOutcome::Got(count),
        Err(error) => {
            if is_pending(&error) {
                ReceiveOutcome::Quiet
            } else {
                ReceiveOutcome::Failed
            }
        }
    }
}

/// Reads what a connection has, and waits a while if there is nothing yet.
pub(crate) fn receive(
    stream: &mut TcpStream,
    waiter: &mut Waiter,
    buffer: &mut [u8],
) -> ReceiveOutcome
    requires { 0 < length buffer.old }
    ensures fits { Fits result buffer.new }
    ensures same { length buffer.new ≡ length buffer.old }
{
    match read_now(stream, buffer) {
        ReceiveOutcome::Quiet => {
            waiter.wait();
            read_now(stream, buffer)
        }
        outcome => outcome,
    }
}

/// How many of the bytes a connection takes now, 0 if none yet. None comes if it failed.
fn write_now(stream: &mut TcpStream, bytes: &[u8]) -> Option<usize>
    ensures { IfSome result (λ count. count ≤ length bytes.now) }
{
    match stream.write(bytes) {
        Ok(0) => None,
        Ok(count) => Some(count),
        Err(error) => { if is_pending(&error) { Some(0) } else { None } }
    }
}

/// Writes all of the bytes, or a beginning of them if the connection fails or doesn't take them in five seconds of waits; whether
/// all were written.
pub(crate) fn send(stream: &mut TcpStream, waiter: &mut Waiter, bytes: &[u8]) -> bool {
    let mut rest = bytes;
    let mut waits = MOST_WAITS;
    'writes: while !rest.is_empty() {
        let Some(count) = write_now(stream, rest) else {
            return false;
        };
        if count == 0 {
            if waits == 0 {
                return false;
            }
            waits -= 1;
            waiter.wait();
        }
        rest = &rest[count..];
    }
    true
}
