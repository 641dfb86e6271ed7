//! The desk, and its passes.
ghost use Rattle.std.specs.Prelude.{◌≡◌, ◌≤◌, ◌<◌, ◌+◌, ◌∷◌, [], length, Some, None, IfOk, IfErr, OnOk, OnErr};
ghost use Rattle.xl_base.specs.Outs.{outs_to};
ghost use Rattle.xl_desk.specs.Due.{IsFound, entries_from};
ghost use Rattle.xl_desk.specs.Passes.{IsCalled, IsRefused, IsLawful, IsLooked, IsJoined};
ghost use Rattle.xl_desk.specs.Turns.{IsClosed, opened, halved, half, all_shares};

use crate::fault::DeskErr;
use crate::outs::{Due, Found};
use crate::plays::{Glance, Halves, InTurns, See};
use crate::turn::{Chair, base, enter, give, number, read, refuse, search, take};
use crate::view::View;
use atomic_table::{Refused, Seat, Table};
use std::alloc::{AllocError, Global};
use std::marker::Model;
use std::snapshot::Snapshot;
use std::sync::Wait;
use xl_base::{Event, Serial};

/// One turn over a machine: who has the turn has the machine. Threads share the desk by reference, and each of them calls
/// it with a pass of its own.
#[derive(Drop)]
pub struct Desk<H: Serial> {
    table: Table<Option<H>, View<H::Origin>, Snapshot<H>, InTurns, Global>,
}

impl<H: Serial> Model for Desk<H> {
    ghost use Rattle.std.specs.Prelude.{◌≡◌};
    ghost use Rattle.atomic_table.specs.Seated.{TableId};

    ghost Value = { TableId };

    ghost view = { λ d. d.table.shared.table_id };

    ghost invariant = { λ d. (d.table.shared.table_id.words ≡ 3) × (d.table.shared.table_id.slots ≡ 1) };
}

/// The right to call a desk, with a share of all that its calls come to. A contract sees which desk it is of and what it
/// knows; it has no bytes. A pass that is dropped takes its shares along, and then the desk can't be closed.
#[derive(Drop)]
pub struct Pass<H: Serial> {
    seat: Seat<Option<H>, View<H::Origin>>,
}

impl<H: Serial> Model for Pass<H> {
    ghost use Rattle.std.specs.Prelude.{◌≡◌, ◌<◌, [], false};
    ghost use Rattle.xl_desk.specs.Passes.{Known, IsRooted};

    ghost Value = { Known H.Origin };

    ghost view = { λ p. record { desk = p.seat.table_id; view = p.seat.me.0 } };

    ghost invariant = { λ p. (p.seat.me.1 ≡ []) × (p.seat.me.0.turn ≡ false) × (0 < p.seat.me.0.shares) × IsRooted H.first p.seat.me.0 };
}

/// What a call is answered.
#[derive(Clone, Copy, Debug)]
pub struct Receipt {
    /// The place of the call's entry.
    pub place: u64,
}

/// There was no memory for a desk; the machine comes back.
#[derive(Drop)]
pub struct NoRoom<H> {
    /// The machine.
    pub machine: H,
}

/// The one slot of a table, with the machine in it.
fn slots_of<H>(alloc: Global, machine: H) -> Result<Vec<Option<H>>, NoRoom<H>>
    ensures slots { IfOk result (λ slots. slots.items ≡ Some machine ∷ []) }
    ensures back { IfErr result (λ e. e.machine ≡ machine) }
{
    let Ok(mut slots) = Vec::with_capacity(alloc, 1) else {
        return Err(NoRoom { machine });
    };
    slots.push_reserved(Some(machine));
    Ok(slots)
}

/// The machine in the one slot of a table.
fn only<H>(mut slots: Vec<Option<H>>) -> H
    requires { (h : H) × (slots.items ≡ Some h ∷ []) }
    ensures { slots.items ≡ Some result ∷ [] }
{
    let machine = slots.pop().unwrap().unwrap();
    slots.destroy_empty();
    machine
}

impl<H: Serial> Desk<H> {
    /// One event, once the turn is free: the journal begins with all that the pass has seen, and ends with this call, at the
    /// place that is answered. Halted says that this call's step halted the machine, Stopped that it was halted before;
    /// nothing is entered then, and the pass has seen the whole journal. It takes no memory but the step's.
    pub fn call<R: Wait>(
        &self,
        rt: &R,
        alloc: Global,
        pass: &mut Pass<H>,
        event: Event,
    ) -> Result<Receipt, DeskErr>
        requires desk { pass.old.desk ≡ self.now }
        requires takes { H.takes event }
        ensures desk { pass.new.desk ≡ pass.old.desk }
        ensures lawful { IsLawful H.first H.lawful pass.new.view }
        ensures called { IfOk result (λ receipt. IsCalled pass.old.view pass.new.view receipt.place event) }
        ensures refused { IfErr result (λ e. IsRefused H.may_halt pass.old.view pass.new.view e) }
    {
        let top = &self.table.shared;
        let seat = &mut pass.seat;
        take(rt, top, seat);
        let entered = enter(alloc, top, seat, event);
        give(top, seat);
        match entered {
            Ok(place) => Ok(Receipt { place }),
            Err(why) => return Err(why),
        }
    }

    /// What the journal, once the turn is free, sends to the connection in its entries from this place on, and the place
    /// past its last entry. The place is one of those that the pass knows: none before the first, and at most the one past
    /// the last that it has seen. The only error is that memory ran out; the pass has seen the journal all the same (THREAD-6).
    pub fn look<R: Wait>(
        &self,
        rt: &R,
        alloc: Global,
        pass: &mut Pass<H>,
        conn: u64,
        from: u64,
    ) -> Result<(Vec<u8>, u64), AllocError>
        requires desk { pass.old.desk ≡ self.now }
        requires from { (pass.old.view.first ≤ from) × (from ≤ pass.old.view.first + length pass.old.view.seen) }
        ensures desk { pass.new.desk ≡ pass.old.desk }
        ensures lawful { IsLawful H.first H.lawful pass.new.view }
        ensures looked { IsLooked pass.old.view pass.new.view }
        ensures bytes { IfOk result (λ t. t.0.items ≡ outs_to conn (entries_from pass.new.view.first from pass.new.view.seen)) }
        ensures end { IfOk result (λ t. t.1 ≡ pass.new.view.first + length pass.new.view.seen) }
    {
        let top = &self.table.shared;
        let seat = &mut pass.seat;
        take(rt, top, seat);
        let found = read(alloc, top, seat, conn, from);
        give(top, seat);
        found
    }

    /// The place of the journal's first entry, once the turn is free.
    pub fn first<R: Wait>(&self, rt: &R, pass: &mut Pass<H>) -> u64
        requires desk { pass.old.desk ≡ self.now }
        ensures desk { pass.new.desk ≡ pass.old.desk }
        ensures lawful { IsLawful H.first H.lawful pass.new.view }
        ensures looked { IsLooked pass.old.view pass.new.view }
        ensures first { result ≡ pass.new.view.first }
    {
        let top = &self.table.shared;
        let seat = &mut pass.seat;
        take(rt, top, seat);
        let first = base(top, seat);
        give(top, seat);
        first
    }

    /// The place past the journal's last entry. It neither waits for the turn nor takes memory.
    #[tactic(auto, using(crate::proofs::Steps::either_stays, crate::proofs::Steps::lawful_from))]
    pub fn see(&self, pass: &mut Pass<H>) -> u64
        requires desk { pass.old.desk ≡ self.now }
        ensures desk { pass.new.desk ≡ pass.old.desk }
        ensures lawful { IsLawful H.first H.lawful pass.new.view }
        ensures looked { IsLooked pass.old.view pass.new.view }
        ensures end { result ≡ pass.new.view.first + length pass.new.view.seen }
        // A pass with all shares sees all entries, and no other can enter any.
        ensures whole { pass.new.view.shares ≡ all_shares → length pass.new.view.seen ≡ pass.new.view.start + pass.new.view.made }
    {
        self.table.shared.load::<See>(&mut pass.seat, 0)
    }

    /// Whether the machine runs. It waits for the turn only to tell why the machine is halted, which is a Stopped as for `call`;
    /// the pass has seen the whole journal then, and no more than before if the machine runs. It takes no memory.
    pub fn check<R: Wait>(&self, rt: &R, pass: &mut Pass<H>) -> Result<(), DeskErr>
        requires desk { pass.old.desk ≡ self.now }
        ensures desk { pass.new.desk ≡ pass.old.desk }
        ensures runs { OnOk result (pass.new.view.halt ≡ None) }
        ensures same { OnOk result (pass.new.view ≡ pass.old.view) }
        ensures lawful { OnErr result (IsLawful H.first H.lawful pass.new.view) }
        ensures refused { IfErr result (λ e. IsRefused H.may_halt pass.old.view pass.new.view e) }
    {
        let top = &self.table.shared;
        let seat = &mut pass.seat;
        if top.load::<Glance>(seat, 1) == 0 {
            return Ok(());
        }
        take(rt, top, seat);
        let why = refuse(top, seat);
        give(top, seat);
        Err(why)
    }

    /// The first call that is due in the journal, once the turn is free, among its entries from this place on, which is as
    /// for `look`. The only error is that memory ran out; the pass has seen the journal all the same (THREAD-6).
    pub fn next_call<R: Wait>(
        &self,
        rt: &R,
        alloc: Global,
        pass: &mut Pass<H>,
        from: u64,
        due: Due,
    ) -> Result<Found, AllocError>
        requires desk { pass.old.desk ≡ self.now }
        requires from { (pass.old.view.first ≤ from) × (from ≤ pass.old.view.first + length pass.old.view.seen) }
        requires share { due.share < due.of }
        ensures desk { pass.new.desk ≡ pass.old.desk }
        ensures lawful { IsLawful H.first H.lawful pass.new.view }
        ensures looked { IsLooked pass.old.view pass.new.view }
        ensures found { IfOk result (λ found. IsFound due pass.new.view.first from pass.new.view.seen found) }
    {
        let top = &self.table.shared;
        let seat = &mut pass.seat;
        take(rt, top, seat);
        let found = search(alloc, top, seat, from, due);
        give(top, seat);
        found
    }

    /// A new pass with half of the shares, rounded down, that has seen what this one has.
    pub fn split(&self, pass: &mut Pass<H>) -> Pass<H>
        requires desk { pass.old.desk ≡ self.now }
        requires enough { 2 ≤ pass.old.view.shares }
        ensures desk { (pass.new.desk ≡ pass.old.desk) × (result.desk ≡ pass.old.desk) }
        ensures pass { pass.new.view ≡ halved pass.old.view }
        ensures new { result.view ≡ half pass.old.view }
    {
        let seat = self.table.shared.split_seat::<Halves>(&mut pass.seat);
        Pass { seat }
    }

    /// Joins another pass into this one, with its calls and its shares.
    #[tactic(auto, using(crate::proofs::Steps::either_stays, crate::proofs::Steps::lawful_from))]
    pub fn join(&self, pass: &mut Pass<H>, other: Pass<H>)
        requires desk { (pass.old.desk ≡ self.now) × (other.desk ≡ self.now) }
        ensures desk { pass.new.desk ≡ pass.old.desk }
        ensures lawful { IsLawful H.first H.lawful pass.new.view }
        ensures joined { IsJoined pass.old.view other.view pass.new.view }
    {
        let Pass { seat: theirs } = other;
        let top = &self.table.shared;
        let seat = &mut pass.seat;
        top.join_seat::<Halves>(seat, theirs);
        // What the other has seen is known once the journal is looked at.
        top.load::<See>(seat, 0);
    }

    /// A desk over this machine, and the one pass, which has all 2^32 shares and has seen the machine's entries.
    pub fn make(alloc: Global, machine: H) -> Result<(Desk<H>, Pass<H>), NoRoom<H>>
        ensures desk { IfOk result (λ t. t.1.desk ≡ t.0) }
        ensures pass { IfOk result (λ t. t.1.view ≡ opened (H.origin machine) (H.first (H.origin machine)) (H.history machine) (H.halt machine)) }
        ensures back { IfErr result (λ e. e.machine ≡ machine) }
    {
        let words = [machine.next_place(), number(machine.halt()), 0];
        let about = Snapshot::of(&machine);
        let slots = slots_of(alloc, machine)?;
        match Table::new(alloc, &words, slots, &about) {
            Ok((table, seat)) => Ok((Desk { table }, Pass { seat })),
            Err(Refused { slots }) => Err(NoRoom {
                machine: only(slots),
            }),
        }
    }

    /// The machine, once all other passes were joined into this one. Its entries have grown since the desk was made by just
    /// the calls that the pass knows, each once.
    pub fn close(self, pass: Pass<H>) -> H
        requires desk { pass.desk ≡ self }
        requires all { pass.view.shares ≡ all_shares }
        ensures { IsClosed H.history H.halt H.origin H.lawful pass.view result }
    {
        let Desk { table } = self;
        let Pass { seat } = pass;
        let mut closed = table.close_with(seat);
        let home = closed.take(0);
        closed.free();
        home.unwrap()
    }
}
