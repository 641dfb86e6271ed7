//! The core and its calls.
ghost use Rattle.std.specs.Prelude.{◌≡◌, ℕ, ◌+◌, ◌<◌, ◌^◌, true, List, Option, Some, None, Ok, option_map, OnOk, IfOk};
ghost use Rattle.xl_base.specs.Limits.{numbers_left};
ghost use Rattle.xl_base.specs.Lists.{IsIn};
ghost use Rattle.xl_grace.specs.Grace.{begun};
ghost use Rattle.xl_wait.specs.Waiting.{is_waiting};
ghost use Rattle.xl_core.specs.State.{started, step_begun, drawn, MayBe, GoesOn};
ghost use Rattle.xl_core.specs.Askers.{IsFit};
ghost use Rattle.xl_core.specs.Good.{IsGood};
ghost use Rattle.xl_core.specs.Decide.{ask};
ghost use Rattle.xl_core.specs.Settle.{settle, cancel, give_back, share_has, weaken, end_party, close_open};
ghost use Rattle.xl_core.specs.BreakAnswers.{may_be_left, ack};
ghost use Rattle.xl_core.specs.Ticks.{renew, tick};
ghost use Rattle.xl_core.specs.Stores.{HandsOn};
ghost use Rattle.xl_core.specs.Whole.{state_of};

use crate::ask::{Answer, Ask, Effect};
use crate::lease::Times;
use crate::parts::Parts;
use crate::passed::{NOBODY, Passed};
use crate::unsettled::Unsettled;
use crate::{calls, ticking};
use indexmap::IndexMap;
use std::alloc::{AllocError, Global};
use std::marker::Model;
use xl_base::{Keeper, Moment, Party, Record, Sequence};
use xl_grace::Grace;
use xl_matrix::{CacheKind, Claim, Rwd};
use xl_names::Names;
use xl_table::{Leaver, Table};
use xl_wait::{Queue, Rooms};

/// The claims that are held, those who wait, and the names of both. A contract sees them as flat lists. If a call runs out
/// of memory, nothing is known of the core afterwards.
#[derive(Drop)]
pub struct Core {
    parts: Parts,
    /// The files on which someone may wait who isn't blocked any more; no contract sees it.
    unsettled: Unsettled,
    /// Of whom it is known that they stay held up, between the turns of one step; no contract sees it.
    passed: Passed,
}

impl Model for Core {
    ghost use Rattle.xl_core.specs.State.{CoreState};
    ghost use Rattle.xl_core.specs.Passed.{ArePassed};
    ghost use Rattle.xl_core.specs.Unsettled.{AreHeldUp};
    ghost use Rattle.xl_core.specs.Whole.{state_of};

    ghost Value = { CoreState };

    ghost view = { λ c. state_of c.parts };

    ghost invariant = { λ c. AreHeldUp c.unsettled (state_of c.parts) × ArePassed c.passed (state_of c.parts) };
}

impl Core {
    /// The core at a start, with the record as it is stored and the grace that begins with it: nothing is held, nobody waits, no
    /// lease runs. It takes no memory.
    #[tactic(auto, using(crate::proofs::GoodLaws::started_good, crate::proofs::PassedLaws::nobody_passed))]
    pub fn new(alloc: Global, stable: Record, grace: Grace, clock: Moment, times: Times) -> Core
        requires grace { grace ≡ begun stable clock times.grace }
        ensures state { result ≡ started stable clock times }
        ensures good { IsGood result }
    {
        Core {
            parts: Parts {
                table: Table::new(alloc),
                queue: Queue::new(alloc),
                names: Names::new(alloc),
                stable,
                grace,
                clock,
                times,
                leases: IndexMap::new(alloc),
                counter: 0,
                failed: false,
                given: Vec::new(alloc),
            },
            unsettled: Unsettled::Files(Sequence::new(alloc)),
            passed: NOBODY,
        }
    }

    /// The claims that are held, in the table's order.
    pub fn table(&self) -> &Table
        ensures { result.now ≡ self.now.claims }
    {
        &self.parts.table
    }

    /// Those who wait, in order of arrival.
    pub fn queue(&self) -> &Queue
        ensures { result.now ≡ self.now.waiters }
    {
        &self.parts.queue
    }

    /// The names that are kept.
    pub fn names(&self) -> &Names
        ensures { result.now ≡ self.now.names }
    {
        &self.parts.names
    }

    /// The clock.
    pub fn clock(&self) -> Moment
        ensures { result ≡ self.now.clock }
    {
        self.parts.clock
    }

    /// The last number that was given out, 0 if none was. Numbers count from 1.
    pub fn counter(&self) -> u32
        ensures { result ≡ self.now.counter }
    {
        self.parts.counter
    }

    /// How long leases, grace and breaks last.
    pub fn times(&self) -> Times
        ensures { result ≡ self.now.times }
    {
        self.parts.times
    }

    /// The record as it is stored.
    pub fn stable(&self) -> &Record
        ensures { result.now ≡ self.now.stable }
    {
        &self.parts.stable
    }

    /// How many stores this step made.
    pub fn made(&self) -> u64
        ensures { result ≡ self.now.made }
    {
        self.parts.made()
    }

    /// Begins a step: from now on its stores are counted, and none has failed. It takes no memory.
    #[tactic(auto, using(crate::proofs::GoodLaws::begun_good, crate::proofs::PassedLaws::nobody_passed))]
    pub fn begin_step(&mut self)
        ensures state { self.new ≡ step_begun self.old }
        ensures good { IsGood self.old → IsGood self.new }
    {
        self.passed = NOBODY;
        begin_step(&mut self.parts);
    }

    /// Answers an ask, and tells what else happened. `left` is the room that is left in the tables of the fronts. At least
    /// 65,536 numbers must be left to give out. The name of one who is monitored is stored in the record before the grant, if the
    /// record lacks it; StoreFailed comes only if the keeper's count of faults rose in this step.
    #[tactic(auto, using(crate::proofs::DoorLaws::ask_keeps, crate::proofs::PassedLaws::nobody_passed))]
    pub fn ask<K: Keeper>(
        &mut self,
        alloc: Global,
        keeper: &mut K,
        request: &Ask,
        left: &Rooms,
    ) -> Result<(Answer, Sequence<Effect>), AllocError>
        requires fit { IsFit request.now }
        requires good { IsGood self.old }
        requires numbers { self.old.counter + numbers_left < 2 ^ 32 }
        ensures state { (n : ℕ) → IfOk result (λ r. MayBe n self.new → ask n left.now self.old request.now ≡ (r.0, r.1, self.new)) }
        ensures on { OnOk result (GoesOn self.old self.new) }
        ensures good { OnOk result (IsGood self.new) }
        ensures keeper { OnOk result (HandsOn self.old self.new (record { held = K.held keeper.old; given = K.given keeper.old; faults = K.faults keeper.old; left = K.left keeper.old }) (record { held = K.held keeper.new; given = K.given keeper.new; faults = K.faults keeper.new; left = K.left keeper.new })) }
    {
        self.passed = NOBODY;
        let answered = calls::answer(
            alloc,
            &mut self.parts,
            &mut self.unsettled,
            keeper,
            left,
            request,
        )?;
        Ok(answered)
    }

    /// Takes one turn, that of the first waiter that isn't held up: begins the breaks that its ask begins, serves the waiter if
    /// nothing that it waits for is in its way then, and tells what happened. None comes exactly if every waiter is held up;
    /// then nothing changed. At least 65,536 numbers must be left to give out.
    #[tactic(auto, using(crate::proofs::DoorLaws::settle_keeps))]
    pub fn settle<K: Keeper>(
        &mut self,
        alloc: Global,
        keeper: &mut K,
        left: &Rooms,
    ) -> Result<Option<Sequence<Effect>>, AllocError>
        requires good { IsGood self.old }
        requires numbers { self.old.counter + numbers_left < 2 ^ 32 }
        ensures state { (n : ℕ) → IfOk result (λ r. MayBe n self.new → settle n left.now self.old ≡ option_map (λ effects. (effects, self.new)) r) }
        ensures none { result ≡ Ok None → self.new ≡ self.old }
        ensures on { OnOk result (GoesOn self.old self.new) }
        ensures good { OnOk result (IsGood self.new) }
        ensures keeper { OnOk result (HandsOn self.old self.new (record { held = K.held keeper.old; given = K.given keeper.old; faults = K.faults keeper.old; left = K.left keeper.old }) (record { held = K.held keeper.new; given = K.given keeper.new; faults = K.faults keeper.new; left = K.left keeper.new })) }
    {
        let turn = calls::settle(
            alloc,
            &mut self.parts,
            &mut self.unsettled,
            &mut self.passed,
            keeper,
            left,
        )?;
        Ok(turn)
    }

    /// Takes out the waiter with this number, and tells that it waits no more. No claim changes.
    #[tactic(auto, using(crate::proofs::GoodLaws::cancel_good, crate::proofs::PassedLaws::nobody_passed))]
    pub fn cancel(&mut self, alloc: Global, waiter: u32) -> Result<Sequence<Effect>, AllocError>
        requires waits { is_waiting waiter self.old.waiters ≡ true }
        requires good { IsGood self.old }
        ensures state { IfOk result (λ effects. cancel self.old waiter ≡ (effects, self.new)) }
        ensures good { OnOk result (IsGood self.new) }
    {
        self.passed = NOBODY;
        calls::cancel(alloc, &mut self.parts, &mut self.unsettled, waiter)
    }

    /// Takes out one held claim, which its owner gives back. There is nothing to tell.
    #[tactic(auto, using(crate::proofs::GoodLaws::give_back_good, crate::proofs::PassedLaws::nobody_passed))]
    pub fn give_back(&mut self, alloc: Global, claim: &Claim) -> Sequence<Effect>
        requires held { IsIn claim.now self.old.claims }
        requires good { IsGood self.old }
        ensures state { give_back self.old claim.now ≡ (result, self.new) }
        ensures good { IsGood self.new }
    {
        self.passed = NOBODY;
        calls::give_back(alloc, &mut self.parts, &mut self.unsettled, claim)
    }

    /// Makes a held share weaker: from now on it has this access and deny, which lie within those that it had (RFC 7530 16.19,
    /// OPEN_DOWNGRADE). There is nothing to tell. It takes no memory.
    #[tactic(auto, using(crate::proofs::WeakenLaws::weaken_good, crate::proofs::PassedLaws::nobody_passed))]
    pub fn weaken(
        &mut self,
        alloc: Global,
        share: &Claim,
        access: Rwd,
        deny: Rwd,
    ) -> Sequence<Effect>
        requires held { IsIn share.now self.old.claims }
        requires less { share_has share.now.what access deny ≡ true }
        requires good { IsGood self.old }
        ensures state { weaken self.old share.now access deny ≡ (result, self.new) }
        ensures good { IsGood self.new }
    {
        self.passed = NOBODY;
        calls::weaken(
            alloc,
            &mut self.parts,
            &mut self.unsettled,
            share,
            access,
            deny,
        )
    }

    /// Takes the answer to the break of a held cache: this much of the cache is left, or nothing, and no more than the break
    /// leaves (MS-SMB2 3.3.5.22). There is nothing to tell. It takes no memory.
    #[tactic(auto, using(crate::proofs::BreakAnswerLaws::ack_good, crate::proofs::PassedLaws::nobody_passed))]
    pub fn ack(&mut self, alloc: Global, cache: &Claim, to: Option<CacheKind>) -> Sequence<Effect>
        requires held { IsIn cache.now self.old.claims }
        requires runs { may_be_left cache.now.what to ≡ true }
        requires good { IsGood self.old }
        ensures state { ack self.old cache.now to ≡ (result, self.new) }
        ensures good { IsGood self.new }
    {
        self.passed = NOBODY;
        calls::ack(alloc, &mut self.parts, &mut self.unsettled, cache, to)
    }

    /// Gives out the next number. At least 65,536 numbers must be left to give out. It takes no memory.
    #[tactic(auto, using(crate::proofs::GoodLaws::drawn_good, crate::proofs::HeldUpLaws::drawn_up, crate::proofs::PassedLaws::drawn_passed))]
    pub fn draw(&mut self) -> u32
        requires good { IsGood self.old }
        requires numbers { self.old.counter + numbers_left < 2 ^ 32 }
        ensures state { self.new ≡ drawn self.old }
        ensures number { result ≡ self.new.counter }
        ensures good { IsGood self.new }
    {
        draw(&mut self.parts)
    }

    /// Takes out all claims and waiters of a party, and tells of the waiters. The party's name stays.
    #[tactic(auto, unfolding(crate::specs::Settle::end_party), using(crate::proofs::GoodLaws::departed_good, crate::proofs::PassedLaws::nobody_passed))]
    pub fn end_party(&mut self, alloc: Global, party: Party) -> Result<Sequence<Effect>, AllocError>
        requires good { IsGood self.old }
        ensures state { IfOk result (λ effects. end_party self.old party ≡ (effects, self.new)) }
        ensures good { OnOk result (IsGood self.new) }
    {
        self.passed = NOBODY;
        let leaver = Leaver::Party(party);
        let effects = calls::leave(alloc, &mut self.parts, &mut self.unsettled, leaver)?;
        Ok(effects)
    }

    /// Closes the SMB open with this number: takes out its share, its ranges and its waiters, and tells of the waiters. If a
    /// party is given, its caches go too: the open itself, or the lease whose last open it is (MS-SMB2 3.3.4.17).
    #[tactic(auto, unfolding(crate::specs::Settle::close_open), using(crate::proofs::GoodLaws::departed_good, crate::proofs::PassedLaws::nobody_passed))]
    pub fn close_open(
        &mut self,
        alloc: Global,
        number: u32,
        party: Option<Party>,
    ) -> Result<Sequence<Effect>, AllocError>
        requires good { IsGood self.old }
        ensures state { IfOk result (λ effects. close_open self.old number party ≡ (effects, self.new)) }
        ensures good { OnOk result (IsGood self.new) }
    {
        self.passed = NOBODY;
        let leaver = Leaver::Open(number, party);
        let effects = calls::leave(alloc, &mut self.parts, &mut self.unsettled, leaver)?;
        Ok(effects)
    }

    /// Renews the lease of the NFSv4 client with this id string: it runs for its whole length from now on (RFC 7530 9.5), also
    /// if the client had none. There is nothing to tell.
    #[tactic(auto, using(crate::proofs::GoodLaws::renew_good, crate::proofs::PassedLaws::nobody_passed))]
    pub fn renew(&mut self, alloc: Global, client: &[u8]) -> Result<Sequence<Effect>, AllocError>
        requires good { IsGood self.old }
        ensures state { IfOk result (λ effects. renew self.old client.now ≡ (effects, self.new)) }
        ensures good { OnOk result (IsGood self.new) }
    {
        self.passed = NOBODY;
        calls::renew(alloc, &mut self.parts, &mut self.unsettled, client)
    }

    /// Sets the clock to this moment, if that is later than what it shows. Then each break whose deadline has come is over, in
    /// the order of the deadlines, those of one deadline by the file and the text of the party: an SMB cache goes (MS-SMB2
    /// 3.3.6.1), and the client of a delegation expires (RFC 7530 10.4.6). Then each client whose lease has ended expires, in
    /// the order of their id strings by bytes. A client that expires loses all that it has, and that is told. Before that
    /// the record without it is stored, if it has it; if that fails all stays, and the next reading tries again. Last the grace that
    /// runs ends, if its end has come and the record without the names that reclaimed nothing is stored.
    #[tactic(auto, using(crate::proofs::PassedLaws::nobody_passed))]
    pub fn tick<K: Keeper>(
        &mut self,
        alloc: Global,
        keeper: &mut K,
        now: Moment,
    ) -> Result<Sequence<Effect>, AllocError>
        requires good { IsGood self.old }
        ensures state { (n : ℕ) → IfOk result (λ effects. MayBe n self.new → tick n self.old now ≡ (effects, self.new)) }
        ensures on { OnOk result (GoesOn self.old self.new) }
        ensures good { OnOk result (IsGood self.new) }
        ensures keeper { OnOk result (HandsOn self.old self.new (record { held = K.held keeper.old; given = K.given keeper.old; faults = K.faults keeper.old; left = K.left keeper.old }) (record { held = K.held keeper.new; given = K.given keeper.new; faults = K.faults keeper.new; left = K.left keeper.new })) }
    {
        self.passed = NOBODY;
        let effects = ticking::tick(alloc, &mut self.parts, &mut self.unsettled, keeper, now)?;
        Ok(effects)
    }
}

#[tactic(auto, unfolding(crate::specs::State::drawn))]
fn draw(parts: &mut Parts) -> u32
    requires { parts.old.counter + numbers_left < 2 ^ 32 }
    ensures state { state_of parts.new ≡ drawn (state_of parts.old) }
    ensures number { result ≡ parts.new.counter }
{
    parts.counter += 1;
    parts.counter
}

#[tactic(auto, unfolding(crate::specs::State::step_begun))]
fn begin_step(parts: &mut Parts)
    ensures { state_of parts.new ≡ step_begun (state_of parts.old) }
{
    parts.failed = false;
    parts.given.clear();
}
