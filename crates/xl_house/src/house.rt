//! The house: the machine with its journal.
ghost use Rattle.std.specs.Prelude.{◌≡◌, ℕ, ◌+◌, ◌-◌, ◌*◌, ◌<◌, ◌≤◌, ◌^◌, [], ◌∷◌, ◌++◌, List, length, drop, vec_capacity, vec_len, true, false, Ok, Err, Some, None, OnOk, OnErr, IfOk, IfErr, IfSome, ◌↔◌};
ghost use Rattle.xl_base.specs.Limits.{most_numbers};
ghost use Rattle.xl_base.specs.Outside.{Rose};
ghost use Rattle.xl_base.specs.Serials.{Extends};
ghost use Rattle.xl_base.specs.Stable.{raised};
ghost use Rattle.xl_base.specs.declared.event.Event.TheVariants.{Restart};
ghost use Rattle.xl_grace.specs.Grace.{begun as grace_begun};
ghost use Rattle.xl_core.specs.Numbers.{numbers_of};
ghost use Rattle.xl_front_nlm.specs.Short.{AreShort};
ghost use Rattle.xl_smb_state.specs.Links.{AreDistinct, IsSound};
ghost use Rattle.xl_house.specs.Awaited.{IsServed, IsServedBy};
ghost use Rattle.xl_house.specs.Fitting.{IsFitting};
ghost use Rattle.xl_house.specs.Steady.{IsSteady};
ghost use Rattle.xl_house.specs.Entries.{IsWishing, IsBreaking, IsKeeping, IsPartied};
ghost use Rattle.xl_house.specs.Owed.{IsOwed};
ghost use Rattle.xl_house.specs.Replying.{IsReplied};
ghost use Rattle.xl_house.specs.Notified.{IsNotified};
ghost use Rattle.xl_house.specs.Parted.{IsParted};
ghost use Rattle.xl_house.specs.Asking.{IsAsking};
ghost use Rattle.xl_house.specs.Meant.{IsMeant};
ghost use Rattle.xl_house.specs.Free.{IsFree, AlwaysFree};
ghost use Rattle.xl_house.specs.Housed.{Housed, is_spoiled, Holds, Stands};
ghost use Rattle.xl_house.specs.Journals.{replay, IsLegal, IsOrderly, entry, is_restart, last_stores, most_entries};
ghost use Rattle.xl_house.specs.Lawful.{Always, IsLawful, IsWaiting, IsKept, IsComplete, IsCaused, IsTold};
ghost use Rattle.xl_house.specs.Machine.{step};
ghost use Rattle.xl_house.specs.Recording.{HasKept, IsRecording, IsAdmitting};
ghost use Rattle.xl_house.specs.Starts.{IsGiven, IsStored};
ghost use Rattle.xl_house.specs.Tied.{IsTied};
ghost use Rattle.xl_house.specs.Truthful.{AlwaysCut, Happening, happened, NeverCollide};
ghost use Rattle.xl_reclaims.specs.Truthful.{Before, WereHeld};
ghost use Rattle.xl_house.specs.State.{no_fronts, times_of, start_of};
ghost use Rattle.xl_plan.specs.Keepers.{telling};
ghost use Rattle.xl_house.specs.Serials.{IsHistory, MayHalt};
ghost use Rattle.xl_house.specs.Sifting.{paused_left};
ghost use Rattle.xl_house.specs.Whole.{whole_of};

use crate::layers::{Fronts, Layers};
use crate::machine::{Acted, Machine, act};
use crate::start::{Begun, Ended, load, raise};
use std::alloc::{AllocError, Global};
use std::marker::Model;
use xl_base::{
    Budgeted, Entry, Event, Exports, Halt, Head, Journal, Keeper, Moment, Record, Sequence, Serial,
};
use xl_core::{Core, Times};
use xl_matrix::Claim;
use xl_names::Names;

/// The most entries of a journal.
pub const MOST_ENTRIES: usize = 1_048_576;

/// How long leases, grace and breaks last.
fn times_of(exports: &Exports) -> Times
    ensures { result ≡ times_of exports.now }
{
    Times {
        lease: exports.lease,
        grace: exports.grace,
        break_time: exports.break_time,
    }
}

/// A lock server as a value: the machine, its journal, and the keeper of its record. `House::start` makes one; each call of
/// `House::step` takes one event and enters it in the journal with all that is to be sent for it, which `House::outs_from`
/// lends. If a step runs out of memory, or meets a full journal, the house halts for good.
///
/// A house reads no socket and no clock: its caller opens connections, cuts their bytes into messages, tells the time, and
/// sends the outs (docs/EMBEDDING.md).
#[derive(Drop)]
pub struct House<K: Keeper> {
    head: Head,
    entries: Vec<Entry>,
    machine: Machine,
    keeper: K,
    halt: Option<Halt>,
}

impl<K: Keeper> Model for House<K> {
    ghost use Rattle.std.specs.Prelude.{◌≡◌, ◌≤◌, length, false, IfSome};
    ghost use Rattle.xl_house.specs.State.{start_of};
    ghost use Rattle.xl_house.specs.Awaited.{IsServed};
    ghost use Rattle.xl_house.specs.Journals.{IsLegal, most_entries};
    ghost use Rattle.xl_house.specs.Lawful.{Always};
    ghost use Rattle.xl_house.specs.Housed.{Housed, is_spoiled, Holds, Stands};
    ghost use Rattle.xl_house.specs.Serials.{MayHalt};
    ghost use Rattle.xl_house.specs.Whole.{whole_of};

    ghost Value = { Housed K };

    ghost view = { λ h. record { head = h.head; entries = h.entries.items; halt = h.halt; keeper = h.keeper } };

    ghost invariant = { λ h. record {
      stands : is_spoiled h.halt ≡ false → Stands (start_of h.head) h.entries.items (whole_of h.head.exports h.machine);
      holds : is_spoiled h.halt ≡ false → Holds (K.held h.keeper) h.machine.layers.core.stable;
      few : length h.entries.items ≤ most_entries;
      legal : IsLegal (start_of h.head) h.entries.items;
      served : Always IsServed (start_of h.head) h.entries.items;
      halts : IfSome h.halt (λ reason. MayHalt h.entries.items reason);
    } };
}

/// Acts on one event and enters it at the next place. A full journal leaves everything as it was. The memory for the entry is taken
/// before anything is stored.
fn act_and_enter<K: Keeper>(
    alloc: Global,
    exports: &Exports,
    machine: &mut Machine,
    keeper: &mut K,
    entries: &mut Vec<Entry>,
    event: Event,
) -> Result<u64, Halt>
    requires place { machine.old.place ≡ length entries.old.items }
    requires few { length entries.old.items ≤ most_entries }
    requires free { IsFree (whole_of exports.now machine.old) }
    requires holds { Holds (K.held keeper.old) machine.old.layers.core.stable }
    requires numbers { numbers_of machine.old.layers.core + 3 * paused_left machine.old.paused ≤ most_numbers * length entries.old.items }
    requires short { AreShort machine.old.layers.core.names }
    requires goes_on { is_restart event ≡ false }
    ensures place { IfOk result (λ place. place ≡ length entries.old.items) }
    ensures below { IfOk result (λ place. place < most_entries) }
    ensures few { length entries.new.items ≤ most_entries }
    ensures short { OnOk result (AreShort machine.new.layers.core.names) }
    ensures numbers { OnOk result (numbers_of machine.new.layers.core + 3 * paused_left machine.new.paused ≤ numbers_of machine.old.layers.core + 3 * paused_left machine.old.paused + most_numbers) }
    ensures entered { OnOk result (entries.new.items ≡ entries.old.items ++ entry (last_stores entries.new.items) (whole_of exports.now machine.old) event ∷ []) }
    ensures made { OnOk result ((step (last_stores entries.new.items) (whole_of exports.now machine.old) event).made ≡ last_stores entries.new.items) }
    ensures next { OnOk result (whole_of exports.now machine.new ≡ (step (last_stores entries.new.items) (whole_of exports.now machine.old) event).next) }
    ensures allowed { (n : ℕ) → K.left keeper.old ≡ Some n → OnOk result ((entry n (whole_of exports.now machine.old) event ≡ entry (last_stores entries.new.items) (whole_of exports.now machine.old) event) × ((step n (whole_of exports.now machine.old) event).next ≡ whole_of exports.now machine.new)) }
    ensures keeper { OnOk result (HasKept (step (last_stores entries.new.items) (whole_of exports.now machine.old) event) (telling K.held K.given K.faults K.left keeper.old) (telling K.held K.given K.faults K.left keeper.new)) }
    ensures err { OnErr result (entries.new.items ≡ entries.old.items) }
    ensures full { (count : ℕ) → (result ≡ Err (Halt.JournalFull count)) ↔ ((count ≡ length entries.old.items) × (length entries.old.items ≡ most_entries)) }
    ensures started { (count : ℕ) → result ≡ Err (Halt.StartStore count) → ⊥ }
    ensures may { IfErr result (λ reason. MayHalt entries.old.items reason) }
    ensures kept { IfErr result (λ halt. is_spoiled (Some halt) ≡ false → (machine.new ≡ machine.old) × (keeper.new ≡ keeper.old)) }
    ensures sound { IsSound machine.old.layers.front.smb.state }
    ensures distinct { AreDistinct machine.old.layers.front.smb.state }
{
    machine.layers.front.smb.state().links();
    make_room(entries)?;
    let place = machine.place;
    let Ok(Acted { outs, stores }) = act(alloc, exports, machine, keeper, &event) else {
        return Err(Halt::NoMemory);
    };
    entries.push_reserved(Entry {
        event,
        stores,
        outs,
    });
    Ok(place)
}

/// Begins anew over this core, at the next place: no connection is open, and the fronts keep nothing.
fn begin_anew(alloc: Global, machine: &mut Machine, core: Core)
    requires { machine.old.place < 2 ^ 63 }
    ensures place { machine.new.place ≡ machine.old.place + 1 }
    ensures connections { machine.new.connections.items ≡ [] }
    ensures paused { machine.new.paused ≡ [] }
    ensures front { machine.new.layers.front ≡ no_fronts }
    ensures core { machine.new.layers.core ≡ core }
{
    machine.place += 1;
    machine.connections.clear();
    machine.paused = Sequence::new(alloc);
    machine.layers = Layers {
        front: Fronts::new(alloc),
        core,
    };
}

/// Room for an entry more, unless the journal is full.
fn make_room(entries: &mut Vec<Entry>) -> Result<(), Halt>
    ensures items { entries.new.items ≡ entries.old.items }
    ensures room { OnOk result ((vec_len entries.new < vec_capacity entries.new) × (length entries.old.items ≡ most_entries → ⊥)) }
    ensures full { (count : ℕ) → (result ≡ Err (Halt.JournalFull count)) ↔ ((count ≡ length entries.old.items) × (length entries.old.items ≡ most_entries)) }
    ensures started { (count : ℕ) → result ≡ Err (Halt.StartStore count) → ⊥ }
    ensures may { IfErr result (λ reason. MayHalt entries.old.items reason) }
{
    if entries.len() == MOST_ENTRIES {
        return Err(Halt::JournalFull(entries.len() as u64));
    }
    match entries.reserve(1) {
        Ok(()) => Ok(()),
        Err(_) => Err(Halt::NoMemory),
    }
}

/// What a restart begins with, once there is room for its entry: the keeper's record is loaded, which is this one, and stored with
/// its epoch raised.
fn start_again<K: Keeper>(
    alloc: Global,
    entries: &mut Vec<Entry>,
    keeper: &mut K,
    stable: &Record,
    clock: Moment,
    grace: u64,
) -> Result<Begun, Halt>
    requires holds { Holds (K.held keeper.old) stable.now }
    ensures items { entries.new.items ≡ entries.old.items }
    ensures room { OnOk result ((vec_len entries.new < vec_capacity entries.new) × (length entries.old.items ≡ most_entries → ⊥)) }
    ensures raised { IfOk result (λ b. (b.stable ≡ raised stable.now) × (b.grace ≡ grace_begun b.stable clock grace)) }
    ensures keeper { OnOk result (IsStored (raised stable.now) (telling K.held K.given K.faults K.left keeper.old) (telling K.held K.given K.faults K.left keeper.new)) }
    ensures kept { OnErr result (K.held keeper.new ≡ K.held keeper.old) }
    ensures tried { OnErr result (IsGiven (K.held keeper.old) stable.now (K.given keeper.old) (K.given keeper.new)) }
    ensures full { (count : ℕ) → (result ≡ Err (Halt.JournalFull count)) ↔ ((count ≡ length entries.old.items) × (length entries.old.items ≡ most_entries)) }
    ensures count { (count : ℕ) → result ≡ Err (Halt.StartStore count) → (count ≡ K.faults keeper.new) × Rose (K.faults keeper.old) count }
    ensures spent { (n count : ℕ) → K.left keeper.old ≡ Some n → result ≡ Err (Halt.StartStore count) → n ≡ 0 }
{
    make_room(entries)?;
    let (_, fault) = load(alloc, keeper);
    match fault {
        Some(halt) => Err(halt),
        None => raise(alloc, keeper, stable, clock, grace),
    }
}

/// The same of a house that may have halted: then nothing is loaded and nothing stored, and that halt is the reason.
fn again<K: Keeper>(
    alloc: Global,
    halt: Option<Halt>,
    entries: &mut Vec<Entry>,
    keeper: &mut K,
    stable: &Record,
    clock: Moment,
    grace: u64,
) -> Result<Begun, Halt>
    requires holds { is_spoiled halt ≡ false → Holds (K.held keeper.old) stable.now }
    requires may { IfSome halt (λ reason. MayHalt entries.old.items reason) }
    ensures runs { OnOk result (halt ≡ None) }
    ensures items { entries.new.items ≡ entries.old.items }
    ensures room { OnOk result ((vec_len entries.new < vec_capacity entries.new) × (length entries.old.items ≡ most_entries → ⊥)) }
    ensures raised { IfOk result (λ b. (b.stable ≡ raised stable.now) × (b.grace ≡ grace_begun b.stable clock grace)) }
    ensures keeper { OnOk result (IsStored (raised stable.now) (telling K.held K.given K.faults K.left keeper.old) (telling K.held K.given K.faults K.left keeper.new)) }
    ensures stays { IfSome halt (λ reason. (result ≡ Err reason) × (keeper.new ≡ keeper.old)) }
    ensures kept { OnErr result (K.held keeper.new ≡ K.held keeper.old) }
    ensures tried { OnErr result (IsGiven (K.held keeper.old) stable.now (K.given keeper.old) (K.given keeper.new)) }
    ensures full { (count : ℕ) → halt ≡ None → (result ≡ Err (Halt.JournalFull count)) ↔ ((count ≡ length entries.old.items) × (length entries.old.items ≡ most_entries)) }
    ensures count { (count : ℕ) → result ≡ Err (Halt.StartStore count) → (count ≡ K.faults keeper.new) × Rose (K.faults keeper.old) count }
    ensures spent { (n count : ℕ) → K.left keeper.old ≡ Some n → result ≡ Err (Halt.StartStore count) → n ≡ 0 }
{
    match halt {
        Some(halt) => Err(halt),
        None => start_again(alloc, entries, keeper, stable, clock, grace),
    }
}

/// The entry of a restart.
fn restarted(alloc: Global) -> Entry
    ensures { result ≡ record { event = Restart; stores = 1; outs = [] } }
{
    Entry {
        event: Event::Restart,
        stores: 1,
        outs: Sequence::new(alloc),
    }
}

/// Frees a machine that steps no more, part by part.
fn retire(machine: Machine) {
    let Machine {
        place: _,
        connections: _,
        paused: _,
        layers: Layers {
            front: Fronts { nlm, nfs, smb },
            core,
        },
    } = machine;
    drop(nlm);
    drop(nfs);
    drop(smb);
    drop(core);
}

impl<K: Keeper> House<K> {
    /// The house that begins from this head, with the record that the keeper holds now and the grace that runs from then on. It
    /// takes no memory.
    pub(crate) fn begin(alloc: Global, head: Head, begun: Begun, keeper: K) -> House<K>
        requires raised { begun.stable ≡ raised head.«record» }
        requires grace { begun.grace ≡ grace_begun begun.stable head.start head.exports.grace }
        requires holds { Holds (K.held keeper) begun.stable }
        ensures { result ≡ record { head = head; entries = []; halt = None; keeper = keeper } }
    {
        let Begun { stable, grace } = begun;
        let core = Core::new(alloc, stable, grace, head.start, times_of(&head.exports));
        House {
            head,
            entries: Vec::new(alloc),
            machine: Machine {
                place: 0,
                connections: Vec::new(alloc),
                paused: Sequence::new(alloc),
                layers: Layers {
                    front: Fronts::new(alloc),
                    core,
                },
            },
            keeper,
            halt: None,
        }
    }

    /// Steps one event, which is not Restart, and returns its place in the journal: the number of entries before it. The new
    /// entry has all that is to be sent for the event, in order (`outs_from`).
    ///
    /// The entry has as many stores as the step made. They fall short of what was wanted only if the keeper's count of faults
    /// rose. The keeper was given the records of the step and no others, in order, and holds the machine's record afterwards
    /// (`keeper`); if it tells how many stores succeed, the entry is the machine's with so many (`allowed`).
    ///
    /// After an error the journal is as it was, and each later step returns the same error. JournalFull comes exactly if the
    /// journal has 1,048,576 entries. After NoMemory the keeper may have been given some of the step's records. If a round of the
    /// step grants what a CREATE or a LOCK of SMB waited for, the open is there behind that round, and a later part of the same frame
    /// may close it (`served`). A frame of several messages of SMB does what its parts do as messages alone, in order (`parted`).
    ///
    /// As a `Serial` a house takes events only while it is not halted.
    #[tactic(auto, using(crate::proofs::JournalLaws::legal_next, crate::proofs::JournalLaws::stands_next))]
    pub fn step(&mut self, alloc: Global, event: Event) -> Result<u64, Halt>
        requires goes_on { is_restart event ≡ false }
        ensures ok { IfOk result (λ place. (place ≡ length self.old.entries) × (self.new ≡ record { head = self.old.head; entries = self.old.entries ++ entry (last_stores self.new.entries) (replay (start_of self.old.head) self.old.entries) event ∷ []; halt = None; keeper = self.new.keeper })) }
        ensures below { IfOk result (λ place. place < most_entries) }
        ensures allowed { (n : ℕ) → K.left self.old.keeper ≡ Some n → OnOk result ((self.new.entries ≡ self.old.entries ++ entry n (replay (start_of self.old.head) self.old.entries) event ∷ []) × (replay (start_of self.old.head) self.new.entries ≡ (step n (replay (start_of self.old.head) self.old.entries) event).next)) }
        ensures keeper { OnOk result (HasKept (step (last_stores self.new.entries) (replay (start_of self.old.head) self.old.entries) event) (telling K.held K.given K.faults K.left self.old.keeper) (telling K.held K.given K.faults K.left self.new.keeper)) }
        ensures err { IfErr result (λ halt. self.new ≡ record { head = self.old.head; entries = self.old.entries; halt = Some halt; keeper = self.new.keeper }) }
        ensures untouched { IfErr result (λ halt. is_spoiled (Some halt) ≡ false → self.new.keeper ≡ self.old.keeper) }
        ensures stays { IfSome self.old.halt (λ halt. (result ≡ Err halt) × (self.new ≡ self.old)) }
        ensures full { (count : ℕ) → self.old.halt ≡ None → (result ≡ Err (Halt.JournalFull count)) ↔ ((count ≡ length self.old.entries) × (length self.old.entries ≡ most_entries)) }
        ensures started { (count : ℕ) → self.old.halt ≡ None → result ≡ Err (Halt.StartStore count) → ⊥ }
        ensures may { IfErr result (λ reason. MayHalt self.old.entries reason) }
        ensures served { OnOk result (IsServedBy (last_stores self.new.entries) (replay (start_of self.old.head) self.old.entries) event (replay (start_of self.new.head) self.new.entries)) }
        ensures parted { OnOk result (IsParted (last_stores self.new.entries) (replay (start_of self.old.head) self.old.entries) (entry (last_stores self.new.entries) (replay (start_of self.old.head) self.old.entries) event) (step (last_stores self.new.entries) (replay (start_of self.old.head) self.old.entries) event).next) }
        ensures holds { OnOk result (Holds (K.held self.new.keeper) (replay (start_of self.new.head) self.new.entries).core.stable) }
    {
        match self.halt {
            Some(halt) => return Err(halt),
            None => {}
        }
        match act_and_enter(
            alloc,
            &self.head.exports,
            &mut self.machine,
            &mut self.keeper,
            &mut self.entries,
            event,
        ) {
            Ok(place) => Ok(place),
            Err(halt) => {
                self.halt = Some(halt);
                Err(halt)
            }
        }
    }

    /// Starts the server again: a house whose next entry is a restart. It loads the keeper's record, which is the machine's, and
    /// stores it with its epoch raised; it stores nothing else, and nothing if the load failed. Nothing is held afterwards: no
    /// claim, waiter, connection, client or call without an answer, and numbers begin anew. Grace runs if the record has names.
    /// The journal goes on, and so do the clock and the places.
    ///
    /// A house that halted ends with that halt. JournalFull comes exactly if the journal has 1,048,576 entries. StartStore comes
    /// only if the load or the store failed: its number is the keeper's count of faults, which rose, and the keeper holds what it
    /// held before. After an error the journal is as it was, without the restart.
    pub fn restart(self, alloc: Global) -> Result<House<K>, Ended<K>>
        ensures ok { IfOk result (λ h. (h.head ≡ self.head) × (h.entries ≡ self.entries ++ entry 1 (replay (start_of self.head) self.entries) Restart ∷ []) × (h.halt ≡ None)) }
        ensures next { IfOk result (λ h. replay (start_of self.head) h.entries ≡ (step 1 (replay (start_of self.head) self.entries) Restart).next) }
        ensures below { OnOk result (length self.entries < most_entries) }
        ensures runs { OnOk result (self.halt ≡ None) }
        ensures keeper { IfOk result (λ h. HasKept (step 1 (replay (start_of self.head) self.entries) Restart) (telling K.held K.given K.faults K.left self.keeper) (telling K.held K.given K.faults K.left h.keeper)) }
        ensures holds { IfOk result (λ h. Holds (K.held h.keeper) (raised (replay (start_of self.head) self.entries).core.stable)) }
        ensures ended { IfErr result (λ e. (e.journal.head ≡ self.head) × (e.journal.entries ≡ self.entries)) }
        ensures legal { IfErr result (λ e. IsLegal (start_of e.journal.head) e.journal.entries) }
        ensures served { IfErr result (λ e. Always IsServed (start_of e.journal.head) e.journal.entries) }
        ensures most { IfErr result (λ e. length e.journal.entries ≤ most_entries) }
        ensures stays { IfSome self.halt (λ halt. IfErr result (λ e. (e.halt ≡ halt) × (e.keeper ≡ self.keeper))) }
        ensures full { IfErr result (λ e. (count : ℕ) → self.halt ≡ None → (e.halt ≡ Halt.JournalFull count) ↔ ((count ≡ length self.entries) × (length self.entries ≡ most_entries))) }
        ensures count { IfErr result (λ e. (count : ℕ) → e.halt ≡ Halt.StartStore count → (count ≡ K.faults e.keeper) × Rose (K.faults self.keeper) count) }
        ensures spent { IfErr result (λ e. (n count : ℕ) → K.left self.keeper ≡ Some n → e.halt ≡ Halt.StartStore count → n ≡ 0) }
        ensures kept { IfErr result (λ e. K.held e.keeper ≡ K.held self.keeper) }
        ensures tried { IfErr result (λ e. IsGiven (K.held self.keeper) (replay (start_of self.head) self.entries).core.stable (K.given self.keeper) (K.given e.keeper)) }
    {
        let House {
            head,
            entries,
            machine,
            keeper,
            halt,
        } = self;
        let (mut entries, mut machine, mut keeper) = (entries, machine, keeper);
        machine.layers.front.smb.state().links();
        let clock = machine.layers.core.clock();
        match again(
            alloc,
            halt,
            &mut entries,
            &mut keeper,
            machine.layers.core.stable(),
            clock,
            head.exports.grace,
        ) {
            Ok(Begun { stable, grace }) => {
                let core = Core::new(alloc, stable, grace, clock, times_of(&head.exports));
                begin_anew(alloc, &mut machine, core);
                entries.push_reserved(restarted(alloc));
                Ok(House {
                    head,
                    entries,
                    machine,
                    keeper,
                    halt: None,
                })
            }
            Err(halt) => {
                retire(machine);
                let entries = Sequence::from_vec(entries);
                Err(Ended {
                    halt,
                    journal: Journal { head, entries },
                    keeper,
                })
            }
        }
    }

    /// Why the house halted, if it did; what may be the cause behind its entries.
    pub fn halt(&self) -> Option<Halt>
        ensures halt { result ≡ self.now.halt }
        ensures may { IfSome result (λ reason. MayHalt self.now.entries reason) }
    {
        self.halt
    }

    /// Whether the house ran out of memory in a step. Its claims and names are lost then; its journal is not.
    pub fn is_spoiled(&self) -> bool
        ensures { result ≡ is_spoiled self.now.halt }
    {
        matches!(self.halt, Some(Halt::NoMemory))
    }

    /// The entries of the journal from this place on, each with its outs. With the place that `step` returned it is the one
    /// entry of that step.
    pub fn outs_from(&self, place: u64) -> &[Entry]
        requires { place ≤ length self.now.entries }
        ensures { result.now ≡ drop place self.now.entries }
    {
        &self.entries[place as usize..]
    }

    /// A copy of the claims that are held, in the table's order. A house that ran out of memory in a step has none to tell.
    pub fn dump(&self, alloc: Global) -> Result<Vec<Claim>, AllocError>
        requires { is_spoiled self.now.halt ≡ false }
        ensures { IfOk result (λ v. v.items ≡ (replay (start_of self.now.head) self.now.entries).core.claims) }
    {
        self.machine.layers.core.table().claims(alloc)
    }

    /// The names that are kept, which claims name by number. A house that ran out of memory in a step has none to tell.
    pub fn names(&self) -> &Names
        requires { is_spoiled self.now.halt ≡ false }
        ensures { result.now ≡ (replay (start_of self.now.head) self.now.entries).core.names }
    {
        self.machine.layers.core.names()
    }

    /// Ends the house, and returns its journal and its keeper. The journal has these properties, by the name of the clause:
    ///
    /// - legal: each entry has the stores and the outs that the machine's step gives at its place;
    /// - free: before the first entry and after each, any two held claims may be held together, and nobody who waits could be
    ///   served;
    /// - lawful: each entry leaves at each place, and of each lease, what its deeds made of it;
    /// - steady: what is exported, the times and the epoch of the record stay, and numbers are given out one by one;
    /// - recorded: the record is the last that was stored, and no more was stored than the entry tells; a name comes into it, and a
    ///   mark beside it, by a monitored ask of its client with that mark alone, which reclaims nothing; it goes only as its client
    ///   expires, or at the end of a grace in which it reclaimed nothing; while it stays its mark goes only by such an ask with
    ///   another; each such ask that is granted leaves it recorded, with its mark if it has one; who expired is not in it;
    /// - admitted: while grace runs a share or a lock is granted only to one who reclaims it and whose client is recorded, with a
    ///   mark that agrees with its own;
    /// - parties: each claim is held for a party that had something of its owner's there, asked for it, or waited for it;
    /// - waiting: those who waited go on to wait, except those whom the entry served, cancelled or ended;
    /// - kept_until_answered: while the break of a cache runs, the cache is held at its full kind, until its party
    ///   answers, gives it back, ends or expires, or the deadline passes;
    /// - broken: a break begins only of a cache in the way of what was asked, and its answer is awaited;
    /// - caches_kept: each cache stays, at its kind or a greater one, unless a deed ends it or the entry tells that it is gone;
    /// - complete: what grace let in and neither what is held nor the range of one who waits stands against was granted, and what
    ///   was due by a reading of the clock was done, except what waits for a store that failed;
    /// - fit: each deed is one that may be done where it is done;
    /// - wished: a wish got one of its choices, the least kind with one of them and what its party had, or nothing;
    /// - asking: an ask of a request of NLM is on the file that it names, a reclaim if it says so, with the state that it names as
    ///   its mark, and within the room for hosts; those of an operation of NFSv4 are for what it says, on the file of its current
    ///   handle or that it claims there, a reclaim if it says so, and of a confirmed client with its verifier as their mark; those
    ///   of a LOCK and a CREATE of SMB are of the open and on the file that they name;
    /// - owed: a grant that its client refuses is given up;
    /// - meant: what the reply to a request of NLM says is done is done, and of SMB that to a LOCK, CREATE, CLOSE, LOGOFF,
    ///   TREE_DISCONNECT, OPLOCK_BREAK or CANCEL; the stateids that a reply of NFSv4 tells name what is there, what its OPEN,
    ///   OPEN_DOWNGRADE, CLOSE, LOCK, LOCKU, DELEGRETURN, RENEW and RELEASE_LOCKOWNER say is done is done, and its LOCKT is
    ///   answered by what is held;
    /// - caused: the deeds are those that the event may cause;
    /// - replied: each call of ONC RPC has one reply, on its own connection and with its own xid;
    /// - told: what is sent follows from the deeds and their answers;
    /// - notified: each effect of an entry is told by one message to whom it is due, each break that begins has its effect, and besides
    ///   only the message is replied to;
    /// - parted: a frame of several messages of SMB is its parts, each done in order as a message alone once the table is settled
    ///   after the one before, with their replies in one frame; and so is what stands behind a part that waited, once that is served
    ///   or cancelled;
    /// - served: behind each round of an entry each request of SMB that waits has its waiter and each waiter its request, and a
    ///   granted one has its open;
    /// - tied: each stateid of NFSv4 is its owner's, under a number of its own that was given out, and each client of NFSv4 has on each
    ///   file just the delegation that its cache there is, and a lease exactly if its record is confirmed;
    /// - orderly: nothing is sent to a connection before its opening or after its end;
    /// - most: it has at most 1,048,576 entries.
    ///
    /// The keeper holds the machine's record, unless memory ran out in a step.
    pub fn end(self) -> (Journal, K)
        ensures journal { (result.0.head ≡ self.head) × (result.0.entries ≡ self.entries) }
        ensures keeper { result.1 ≡ self.keeper }
        ensures legal { IsLegal (start_of result.0.head) result.0.entries }
        ensures free { AlwaysFree (start_of result.0.head) result.0.entries }
        ensures lawful { Always IsLawful (start_of result.0.head) result.0.entries }
        ensures steady { Always IsSteady (start_of result.0.head) result.0.entries }
        ensures recorded { Always IsRecording (start_of result.0.head) result.0.entries }
        ensures admitted { Always IsAdmitting (start_of result.0.head) result.0.entries }
        ensures crashed { AlwaysCut (start_of result.0.head) result.0.entries }
        ensures truthful { (before : Before) (more : List Happening) → WereHeld before → NeverCollide before (start_of result.0.head) (happened result.0.entries ++ more) }
        ensures parties { Always IsPartied (start_of result.0.head) result.0.entries }
        ensures waiting { Always IsWaiting (start_of result.0.head) result.0.entries }
        ensures kept_until_answered { Always IsKept (start_of result.0.head) result.0.entries }
        ensures broken { Always IsBreaking (start_of result.0.head) result.0.entries }
        ensures caches_kept { Always IsKeeping (start_of result.0.head) result.0.entries }
        ensures complete { Always IsComplete (start_of result.0.head) result.0.entries }
        ensures fit { Always IsFitting (start_of result.0.head) result.0.entries }
        ensures wished { Always IsWishing (start_of result.0.head) result.0.entries }
        ensures asking { Always IsAsking (start_of result.0.head) result.0.entries }
        ensures owed { Always IsOwed (start_of result.0.head) result.0.entries }
        ensures meant { Always IsMeant (start_of result.0.head) result.0.entries }
        ensures caused { Always IsCaused (start_of result.0.head) result.0.entries }
        ensures replied { Always IsReplied (start_of result.0.head) result.0.entries }
        ensures told { Always IsTold (start_of result.0.head) result.0.entries }
        ensures notified { Always IsNotified (start_of result.0.head) result.0.entries }
        ensures parted { Always IsParted (start_of result.0.head) result.0.entries }
        ensures served { Always IsServed (start_of result.0.head) result.0.entries }
        ensures tied { Always IsTied (start_of result.0.head) result.0.entries }
        ensures orderly { IsOrderly [] 0 result.0.entries }
        ensures most { length result.0.entries ≤ most_entries }
        ensures holds { is_spoiled self.halt ≡ false → Holds (K.held result.1) (replay (start_of result.0.head) result.0.entries).core.stable }
    {
        let House {
            head,
            entries,
            machine,
            keeper,
            halt: _,
        } = self;
        retire(machine);
        let entries = Sequence::from_vec(entries);
        (Journal { head, entries }, keeper)
    }
}

impl<K: Budgeted> House<K> {
    /// From now on so many stores of the keeper succeed, and each one behind them fails. All else stays as it is.
    pub fn allow(&mut self, stores: u64)
        ensures same { self.new ≡ record { head = self.old.head; entries = self.old.entries; halt = self.old.halt; keeper = self.new.keeper } }
        ensures held { K.held self.new.keeper ≡ K.held self.old.keeper }
        ensures given { K.given self.new.keeper ≡ K.given self.old.keeper }
        ensures faults { K.faults self.new.keeper ≡ K.faults self.old.keeper }
        ensures left { K.left self.new.keeper ≡ Some stores }
    {
        self.keeper.allow(stores);
    }
}

impl<K: Keeper> Serial for House<K> {
    type Origin = Head;

    ghost origin = { λ h. h.head };

    ghost first = { λ head. 0 };

    ghost history = { λ h. h.entries };

    ghost halt = { λ h. h.halt };

    ghost lawful = { λ head log. IsHistory head log };

    ghost takes = { λ event. is_restart event ≡ false };

    ghost may_halt = { λ log reason. MayHalt log reason };

    ghost in_time = { λ _ _ history. history.1 };

    fn first(&self) -> u64
        ensures { result ≡ 0 }
    {
        0
    }

    #[tactic(auto, using(crate::proofs::InTimeLaws::legal_history))]
    fn next_place(&self) -> u64
        ensures place { result ≡ 0 + length self.now.entries }
        ensures lawful { IsHistory self.now.head self.now.entries }
    {
        self.entries.len() as u64
    }

    fn halt(&self) -> Option<Halt>
        ensures halt { result ≡ self.now.halt }
        ensures may { IfSome result (λ reason. MayHalt self.now.entries reason) }
    {
        House::halt(self)
    }

    fn outs_from(&self, place: u64) -> &[Entry]
        requires { (0 ≤ place) × (place ≤ 0 + length self.now.entries) }
        ensures { result.now ≡ drop (place - 0) self.now.entries }
    {
        House::outs_from(self, place)
    }

    fn step(&mut self, alloc: Global, event: Event) -> Result<u64, Halt>
        requires takes { is_restart event ≡ false }
        requires runs { self.old.halt ≡ None }
        ensures origin { self.new.head ≡ self.old.head }
        ensures ok { IfOk result (λ place. Extends 0 self.old.entries self.new.entries event place) }
        ensures runs { OnOk result (self.new.halt ≡ None) }
        ensures err { IfErr result (λ reason. (self.new.entries ≡ self.old.entries) × (self.new.halt ≡ Some reason) × MayHalt self.old.entries reason) }
    {
        House::step(self, alloc, event)
    }
}
