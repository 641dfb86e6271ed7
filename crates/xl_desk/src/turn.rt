//! The turn: taken, used and given back.
ghost use Rattle.std.specs.Prelude.{◌≡◌, ◌≢◌, ◌<◌, ◌≤◌, ◌+◌, ◌∷◌, [], length, true, false, None, Some, IfOk, IfErr, IfSome, OnOk};
ghost use mathlib.Core.List.{IsPrefix};
ghost use Rattle.xl_base.specs.Outs.{outs_to};
ghost use Rattle.xl_base.specs.declared.journal.Entry.{Entry as TheEntry};
ghost use Rattle.xl_desk.specs.Due.{IsFound, entries_from};
ghost use Rattle.xl_desk.specs.Passes.{IsRefused};
ghost use Rattle.xl_desk.specs.Turns.{HasTurn, with_turn, without_turn, after_call, number_of};

use crate::fault::DeskErr;
use crate::outs::{Due, Found, find, sent};
use crate::plays::{Add, Check, Give, InTurns, Stop, Take};
use crate::view::View;
use atomic_table::{Seat, Shared};
use std::alloc::{AllocError, Global};
use std::snapshot::Snapshot;
use std::sync::Wait;
use std::thread;
use xl_base::{Event, Halt, Serial};

/// The words and the slot of a desk.
pub(crate) type Top<H> = Shared<Option<H>, View<<H as Serial>::Origin>, Snapshot<H>, InTurns>;

/// A seat at a desk.
pub(crate) type Chair<H> = Seat<Option<H>, View<<H as Serial>::Origin>>;

/// The number of a halt, 0 for none.
pub(crate) fn number(halt: Option<Halt>) -> u64
    ensures { result ≡ number_of halt }
{
    match halt {
        None => 0,
        Some(Halt::NoMemory) => 1,
        Some(Halt::JournalFull(_)) => 2,
        Some(Halt::StartStore(_)) => 3,
    }
}

/// Takes the turn with the machine, if it is free, and returns whether it was.
fn attempt<H: Serial>(top: &Top<H>, seat: &mut Chair<H>) -> bool
    requires table { (seat.old.table_id ≡ top.now.table_id) × (top.now.table_id.words ≡ 3) × (top.now.table_id.slots ≡ 1) }
    requires idle { (seat.old.me.1 ≡ []) × (seat.old.me.0.turn ≡ false) × (0 < seat.old.me.0.shares) }
    ensures seat { seat.new.table_id ≡ seat.old.table_id }
    ensures turn { result ≡ true → (h : H) × HasTurn H.history H.halt H.origin H.first seat.new.me h × (seat.new.me.0 ≡ with_turn seat.old.me.0 (H.history h) (H.halt h)) × IsPrefix seat.old.me.0.seen (H.history h) × H.lawful (H.origin h) (H.history h) × IfSome seat.old.me.0.halt (λ reason. H.halt h ≡ Some reason) × IfSome seat.old.me.0.halt (λ _. H.history h ≡ seat.old.me.0.seen) }
    ensures busy { result ≡ false → seat.new.me ≡ seat.old.me }
{
    top.compare_exchange::<Take>(seat, 2, 0, 1) == 0
}

/// Waits for the turn, and takes it with the machine.
pub(crate) fn take<H: Serial, R: Wait>(rt: &R, top: &Top<H>, seat: &mut Chair<H>)
    requires table { (seat.old.table_id ≡ top.now.table_id) × (top.now.table_id.words ≡ 3) × (top.now.table_id.slots ≡ 1) }
    requires idle { (seat.old.me.1 ≡ []) × (seat.old.me.0.turn ≡ false) × (0 < seat.old.me.0.shares) }
    ensures seat { seat.new.table_id ≡ seat.old.table_id }
    ensures turn { (h : H) × HasTurn H.history H.halt H.origin H.first seat.new.me h × (seat.new.me.0 ≡ with_turn seat.old.me.0 (H.history h) (H.halt h)) × IsPrefix seat.old.me.0.seen (H.history h) × H.lawful (H.origin h) (H.history h) × IfSome seat.old.me.0.halt (λ reason. H.halt h ≡ Some reason) × IfSome seat.old.me.0.halt (λ _. H.history h ≡ seat.old.me.0.seen) }
{
    for _ in rt.forever() {
        if attempt(top, seat) {
            return;
        }
        thread::yield_now();
    }
    unreachable!()
}

/// Gives the turn back, and the machine with it.
pub(crate) fn give<H: Serial>(top: &Top<H>, seat: &mut Chair<H>)
    requires table { (seat.old.table_id ≡ top.now.table_id) × (top.now.table_id.words ≡ 3) × (top.now.table_id.slots ≡ 1) }
    requires turn { (h : H) × HasTurn H.history H.halt H.origin H.first seat.old.me h }
    ensures seat { seat.new.table_id ≡ seat.old.table_id }
    ensures view { seat.new.me.0 ≡ without_turn seat.old.me.0 }
    ensures hand { seat.new.me.1 ≡ [] }
{
    top.store::<Give>(seat, 2, 0);
}

/// Takes the machine out of the slot, which is still in hand.
fn lift<H: Serial>(top: &Top<H>, seat: &mut Chair<H>) -> H
    requires table { seat.old.table_id ≡ top.now.table_id }
    requires turn { (h : H) × HasTurn H.history H.halt H.origin H.first seat.old.me h }
    ensures seat { (seat.new.table_id ≡ seat.old.table_id) × (seat.new.me ≡ (seat.old.me.0, (0, None) ∷ [])) }
    ensures had { HasTurn H.history H.halt H.origin H.first seat.old.me result }
{
    top.exchange(seat, 0, None).unwrap()
}

/// Puts the machine back into the slot, which is still in hand.
fn put<H: Serial>(top: &Top<H>, seat: &mut Chair<H>, serial: H)
    requires table { seat.old.table_id ≡ top.now.table_id }
    requires empty { seat.old.me.1 ≡ (0, None) ∷ [] }
    ensures seat { seat.new.table_id ≡ seat.old.table_id }
    ensures view { seat.new.me.0 ≡ seat.old.me.0 }
    ensures hand { seat.new.me.1 ≡ (0, Some serial) ∷ [] }
{
    let empty = top.exchange(seat, 0, Some(serial));
    let None = empty else { unreachable!() };
}

/// How many entries the machine has, which are a lawful history.
fn count_of<H: Serial>(serial: &H) -> u64
    ensures count { result ≡ length (H.history serial.now) }
    ensures lawful { H.lawful (H.origin serial.now) (H.history serial.now) }
{
    serial.next_place() - serial.first()
}

/// The place of the first entry of the machine in hand.
pub(crate) fn base<H: Serial>(top: &Top<H>, seat: &mut Chair<H>) -> u64
    requires table { seat.old.table_id ≡ top.now.table_id }
    requires turn { (h : H) × HasTurn H.history H.halt H.origin H.first seat.old.me h }
    ensures seat { (seat.new.table_id ≡ seat.old.table_id) × (seat.new.me ≡ seat.old.me) }
    ensures first { result ≡ seat.old.me.0.first }
{
    let serial = lift(top, seat);
    let first = serial.first();
    put(top, seat, serial);
    first
}

/// Steps the machine in hand, which isn't halted: it has one entry more then, which is counted, or has halted, which is noted.
fn step<H: Serial>(
    alloc: Global,
    top: &Top<H>,
    seat: &mut Chair<H>,
    event: Event,
) -> Result<u64, DeskErr>
    requires table { (seat.old.table_id ≡ top.now.table_id) × (top.now.table_id.words ≡ 3) × (top.now.table_id.slots ≡ 1) }
    requires turn { (h : H) × HasTurn H.history H.halt H.origin H.first seat.old.me h }
    requires runs { seat.old.me.0.halt ≡ None }
    requires takes { H.takes event }
    ensures seat { seat.new.table_id ≡ seat.old.table_id }
    ensures turn { (h : H) × HasTurn H.history H.halt H.origin H.first seat.new.me h × H.lawful (H.origin h) (H.history h) }
    ensures ok { IfOk result (λ place. (entry : TheEntry) × (seat.new.me.0 ≡ after_call seat.old.me.0 entry) × (entry.event ≡ event) × (place ≡ seat.old.me.0.first + length seat.old.me.0.seen)) }
    ensures err { IfErr result (λ e. IsRefused H.may_halt seat.old.me.0 seat.new.me.0 e) }
{
    let mut serial = lift(top, seat);
    let stepped = serial.step(alloc, event);
    let count = count_of(&serial);
    put(top, seat, serial);
    match stepped {
        Ok(place) => {
            top.fetch_add::<Add>(seat, 0, 1);
            Ok(place)
        }
        Err(reason) => {
            top.store::<Stop>(seat, 1, number(Some(reason)));
            Err(DeskErr::Halted(reason, count))
        }
    }
}

/// Why the machine in hand, which is halted, takes no event.
pub(crate) fn refuse<H: Serial>(top: &Top<H>, seat: &mut Chair<H>) -> DeskErr
    requires table { seat.old.table_id ≡ top.now.table_id }
    requires turn { (h : H) × HasTurn H.history H.halt H.origin H.first seat.old.me h }
    requires halted { number_of seat.old.me.0.halt ≢ 0 }
    ensures seat { seat.new.table_id ≡ seat.old.table_id }
    ensures turn { (h : H) × HasTurn H.history H.halt H.origin H.first seat.new.me h × H.lawful (H.origin h) (H.history h) }
    ensures why { IsRefused H.may_halt seat.old.me.0 seat.new.me.0 result }
{
    let serial = lift(top, seat);
    let halt = serial.halt();
    let count = count_of(&serial);
    put(top, seat, serial);
    let Some(reason) = halt else { unreachable!() };
    DeskErr::Stopped(reason, count)
}

/// Steps the machine in hand, unless it is halted.
pub(crate) fn enter<H: Serial>(
    alloc: Global,
    top: &Top<H>,
    seat: &mut Chair<H>,
    event: Event,
) -> Result<u64, DeskErr>
    requires table { (seat.old.table_id ≡ top.now.table_id) × (top.now.table_id.words ≡ 3) × (top.now.table_id.slots ≡ 1) }
    requires turn { (h : H) × HasTurn H.history H.halt H.origin H.first seat.old.me h }
    requires takes { H.takes event }
    ensures seat { seat.new.table_id ≡ seat.old.table_id }
    ensures turn { (h : H) × HasTurn H.history H.halt H.origin H.first seat.new.me h × H.lawful (H.origin h) (H.history h) }
    ensures runs { OnOk result (seat.old.me.0.halt ≡ None) }
    ensures ok { IfOk result (λ place. (entry : TheEntry) × (seat.new.me.0 ≡ after_call seat.old.me.0 entry) × (entry.event ≡ event) × (place ≡ seat.old.me.0.first + length seat.old.me.0.seen)) }
    ensures err { IfErr result (λ e. IsRefused H.may_halt seat.old.me.0 seat.new.me.0 e) }
{
    if top.load::<Check>(seat, 1) != 0 {
        return Err(refuse(top, seat));
    }
    step(alloc, top, seat, event)
}

/// What the machine in hand sends to the connection in its entries from this place on, and the place past the last.
pub(crate) fn read<H: Serial>(
    alloc: Global,
    top: &Top<H>,
    seat: &mut Chair<H>,
    conn: u64,
    from: u64,
) -> Result<(Vec<u8>, u64), AllocError>
    requires table { seat.old.table_id ≡ top.now.table_id }
    requires turn { (h : H) × HasTurn H.history H.halt H.origin H.first seat.old.me h }
    requires from { (seat.old.me.0.first ≤ from) × (from ≤ seat.old.me.0.first + length seat.old.me.0.seen) }
    ensures seat { (seat.new.table_id ≡ seat.old.table_id) × (seat.new.me ≡ seat.old.me) }
    ensures read { IfOk result (λ t. (t.0.items ≡ outs_to conn (entries_from seat.old.me.0.first from seat.old.me.0.seen)) × (t.1 ≡ seat.old.me.0.first + length seat.old.me.0.seen)) }
{
    let serial = lift(top, seat);
    let bytes = sent(alloc, serial.outs_from(from), conn);
    let end = serial.next_place();
    put(top, seat, serial);
    Ok((bytes?, end))
}

/// The first call that is due in the entries of the machine in hand from this place on.
pub(crate) fn search<H: Serial>(
    alloc: Global,
    top: &Top<H>,
    seat: &mut Chair<H>,
    from: u64,
    due: Due,
) -> Result<Found, AllocError>
    requires table { seat.old.table_id ≡ top.now.table_id }
    requires turn { (h : H) × HasTurn H.history H.halt H.origin H.first seat.old.me h }
    requires from { (seat.old.me.0.first ≤ from) × (from ≤ seat.old.me.0.first + length seat.old.me.0.seen) }
    requires share { due.share < due.of }
    ensures seat { (seat.new.table_id ≡ seat.old.table_id) × (seat.new.me ≡ seat.old.me) }
    ensures found { IfOk result (λ found. IsFound due seat.old.me.0.first from seat.old.me.0.seen found) }
{
    let serial = lift(top, seat);
    let found = find(alloc, serial.outs_from(from), due);
    let end = serial.next_place();
    put(top, seat, serial);
    let (call, ahead) = found?;
    Ok(Found {
        call,
        at: from + ahead,
        end,
    })
}
