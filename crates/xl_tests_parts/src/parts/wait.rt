//! Those who wait.

use std::alloc::{AllocError, Global};
use xl_base::{Owner, Party, Protocol, Sequence};
use xl_matrix::{Claim, Extent, What};
use xl_wait::{Queue, QueueErr, Rooms, Waiter};

const PARTY: Party = Party::Name(Protocol::Nlm, 2);

fn claim_on(file: u32) -> Claim {
    Claim {
        file,
        owner: Owner::Name(Protocol::Nlm, 1),
        party: PARTY,
        what: What::Range(Extent::Bytes(0, 9), true),
    }
}

fn waiter(alloc: Global, id: u32, conn: Option<u64>, file: u32) -> Result<Waiter, AllocError> {
    let asked = Sequence::from_slice(alloc, &[claim_on(file)])?;
    Ok(Waiter {
        id,
        party: PARTY,
        conn,
        asked,
        wish: Sequence::new(alloc),
        blocking: true,
        monitored: true,
        mark: None,
        rows: Rooms {
            hosts: 1,
            owners: 0,
            opens: 0,
        },
    })
}

/// 0 if the waiter waits, the limit if that is reached.
fn limit(pushed: Result<(), QueueErr>) -> u32 {
    match pushed {
        Ok(()) => 0,
        Err(QueueErr::Full(most)) => most,
        Err(QueueErr::NoMemory) => 1,
    }
}

fn pushes_on(alloc: Global, queue: &mut Queue, id: u32, conn: Option<u64>, file: u32) -> u32 {
    match waiter(alloc, id, conn, file) {
        Ok(waiter) => limit(queue.push(waiter)),
        Err(_) => 1,
    }
}

fn pushes(alloc: Global, queue: &mut Queue, id: u32, conn: Option<u64>) -> u32 {
    pushes_on(alloc, queue, id, conn, 1)
}

fn is_room(rows: Rooms) -> bool {
    rows.hosts == 1 && rows.owners == 0 && rows.opens == 0
}

fn is_waiter(waiter: Option<&Waiter>, id: u32) -> bool {
    matches!(waiter, Some(waiter) if waiter.id == id && is_room(waiter.rows))
}

fn came_by(alloc: Global, queue: &Queue, conn: u64, numbers: &[u32]) -> bool {
    matches!(queue.of_conn(alloc, conn), Ok(found) if found.as_slice() == numbers)
}

fn cancels(queue: &mut Queue, id: u32) -> bool {
    queue.cancel(id)
}

fn are_two(queue: &Queue, first: u32, last: u32) -> bool {
    queue.len() == 2
        && queue.waiters().len() == 2
        && is_waiter(queue.waiters().first(), first)
        && is_waiter(queue.at(1), last)
        && queue.at(2).is_none()
        && queue.waits_on(1)
        && !queue.waits_on(2)
}

fn come_and_go(alloc: Global, queue: &mut Queue) -> bool {
    queue.is_empty()
        && !queue.waits_on(1)
        && pushes(alloc, queue, 7, Some(0)) == 0
        && pushes(alloc, queue, 8, None) == 0
        && pushes(alloc, queue, 9, Some(0)) == 0
        && cancels(queue, 8)
        && !cancels(queue, 8)
        && are_two(queue, 7, 9)
        && came_by(alloc, queue, 0, &[7, 9])
        && came_by(alloc, queue, 1, &[])
}

fn waits_on(waiter: &Waiter, file: u32) -> bool {
    matches!(waiter.asked.as_slice(), [claim, ..] if claim.file == file)
}

/// Whether a file's queue is what a walk over all who wait finds.
fn is_queued(queue: &Queue, file: u32) -> bool {
    let mut count = 0usize;
    for waiter in queue.waiters() {
        if waits_on(waiter, file) {
            if !is_waiter(queue.nth_on(file, count), waiter.id) {
                return false;
            }
            count = count.saturating_add(1);
        }
    }
    queue.nth_on(file, count).is_none()
}

/// Whether the queue of each file, by its number, is so.
fn are_queued(queue: &Queue) -> bool {
    for file in 0..4u32 {
        if !is_queued(queue, file) {
            return false;
        }
    }
    true
}

/// Whether the queues are so while waiters come on three files.
fn queues_grow(alloc: Global, queue: &mut Queue) -> bool {
    for id in 0..9u32 {
        if pushes_on(alloc, queue, id, None, 1 + id % 3) != 0 || !are_queued(queue) {
            return false;
        }
    }
    true
}

/// Whether they are so while the first, one between and the last leave.
fn queues_shrink(queue: &mut Queue) -> bool {
    for id in [0u32, 4, 8, 3, 6] {
        if !cancels(queue, id) || !are_queued(queue) {
            return false;
        }
    }
    !queue.waits_on(1)
        && queue.waits_on(2)
        && is_waiter(queue.nth_on(3, 0), 2)
        && is_waiter(queue.nth_on(3, 1), 5)
        && queue.nth_on(3, 2).is_none()
}

fn queues_keep(alloc: Global, queue: &mut Queue) -> bool {
    queues_grow(alloc, queue) && queues_shrink(queue)
}

fn are_left(queue: &Queue, ids: &[u32]) -> bool {
    for (place, id) in ids.iter().enumerate() {
        if !is_waiter(queue.at(place), *id) {
            return false;
        }
    }
    queue.len() == ids.len()
}

fn cancels_all(queue: &mut Queue, ids: &[u32]) -> bool {
    queue.cancel_all(ids).is_ok()
}

/// Whether the queues are so while several leave at once: none, one, two that stand side by side, and all.
fn queues_pass(alloc: Global, queue: &mut Queue) -> bool {
    queues_grow(alloc, queue)
        && cancels_all(queue, &[])
        && are_left(queue, &[0, 1, 2, 3, 4, 5, 6, 7, 8])
        && cancels_all(queue, &[6])
        && are_left(queue, &[0, 1, 2, 3, 4, 5, 7, 8])
        && are_queued(queue)
        && cancels_all(queue, &[1, 3, 4, 8])
        && are_left(queue, &[0, 2, 5, 7])
        && are_queued(queue)
        && !queue.waits_on(0)
        && cancels_all(queue, &[0, 2, 5, 7])
        && queue.is_empty()
        && are_queued(queue)
}

/// Whether the queues are so while the first leaves again and again, and another comes each time.
fn queues_move_on(alloc: Global, queue: &mut Queue) -> bool {
    if !queues_grow(alloc, queue) {
        return false;
    }
    for id in 0..9u32 {
        if !cancels(queue, id)
            || !are_queued(queue)
            || pushes_on(alloc, queue, 9 + id, None, 1 + id % 2) != 0
            || !are_queued(queue)
        {
            return false;
        }
    }
    are_left(queue, &[9, 10, 11, 12, 13, 14, 15, 16, 17])
}

#[test]
fn waiters_come_and_go(rt: HostRuntime) {
    assert!(rt; come_and_go(rt.alloc(), &mut Queue::new(rt.alloc())));
    assert!(rt; queues_keep(rt.alloc(), &mut Queue::new(rt.alloc())));
    assert!(rt; queues_pass(rt.alloc(), &mut Queue::new(rt.alloc())));
    assert!(rt; queues_move_on(rt.alloc(), &mut Queue::new(rt.alloc())));
}

fn fills_up(alloc: Global, queue: &mut Queue) -> bool {
    for id in 0..1_024u32 {
        if pushes(alloc, queue, id, None) != 0 {
            return false;
        }
    }
    pushes(alloc, queue, 2_000, None) == 1_024
        && cancels(queue, 500)
        && pushes(alloc, queue, 2_000, None) == 0
}

#[test]
fn a_full_queue(rt: HostRuntime) {
    assert!(rt; fills_up(rt.alloc(), &mut Queue::new(rt.alloc())));
}
