//! Searches of the queue's list.
ghost use Rattle.std.specs.Prelude.{◌≡◌, ◌+◌, ◌<◌, ◌++◌, true, false, length, take, drop, IfSome, IfNone, IfOk};
ghost use Rattle.xl_wait.specs.Waiting.{is_waiting, cancelled, came_by, numbers_of};

use crate::waiter::Waiter;
use std::alloc::{AllocError, Global};

/// The place of the first waiter of this number, if there is one.
pub(crate) fn find_waiter(waiters: &[Waiter], id: u32) -> Option<usize>
    ensures found { IfSome result (λ i. (i < length waiters.now) × (is_waiting id waiters.now ≡ true) × (cancelled id waiters.now ≡ take i waiters.now ++ drop (i + 1) waiters.now)) }
    ensures none { IfNone result ((is_waiting id waiters.now ≡ false) × (cancelled id waiters.now ≡ waiters.now)) }
{
    'waiters: for (i, waiter) in waiters.iter().enumerate() {
        if waiter.id == id {
            return Some(i);
        }
    }
    None
}

/// Whether a waiter with this connection of its own came by that one.
fn is_by(own: Option<u64>, conn: u64) -> bool
    ensures { result ≡ came_by own conn }
{
    match own {
        Some(number) => number == conn,
        None => false,
    }
}

/// The numbers of the waiters that came by the connection.
pub(crate) fn list_numbers(
    alloc: Global,
    waiters: &[Waiter],
    conn: u64,
) -> Result<Vec<u32>, AllocError>
    ensures { IfOk result (λ v. v.items ≡ numbers_of conn waiters.now) }
{
    let mut numbers = Vec::new(alloc);
    'waiters: for waiter in waiters {
        if is_by(waiter.conn, conn) {
            numbers.push(waiter.id)?;
        }
    }
    Ok(numbers)
}
