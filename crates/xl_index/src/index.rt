//! The index of a list of claims.
ghost use Rattle.std.specs.Prelude.{◌≡◌, ℕ, ◌+◌, ◌≤◌, ◌<◌, [], ◌∷◌, List, length, nat_le, nat_lt, OnOk, OnErr};
ghost use Rattle.xl_matrix.specs.declared.claim.Claim.{Claim};
ghost use Rattle.xl_index.specs.Index.{Has, HasCome, HasLeft, IsIndexOf, most_indexed};
ghost use Rattle.xl_index.specs.Moments.{running};
ghost use Rattle.xl_index.specs.Stands.{bears, IsNext};
ghost use Rattle.xl_index.specs.declared.stands.Stand.{Stand};

use crate::moments::{count_come, enter_moment, has_come, leave_moment, make_room};
use crate::stands::{Stands, come, go, next_file};
use std::alloc::{AllocError, Global};
use std::collections::BTreeMap;
use std::sync::ledger::Ledger;
use xl_base::Moment;
use xl_matrix::{Claim, What};
use xl_steps::Steps;

/// What stands beside a list of claims, in whatever order that has them.
#[derive(Drop)]
pub struct Index {
    /// How many claims there are.
    count: usize,
    /// The deadlines of the breaks that run, in order. There is room for one of each claim.
    deadlines: Vec<u64>,
    /// How many claims there are at each stand at which there are some.
    stands: Stands,
}

impl Index {
    /// The index of no claims; it takes no memory.
    #[tactic(auto, using(crate::proofs::IndexLaws::index_of_none))]
    pub fn new(alloc: Global) -> Index
        ensures { IsIndexOf result [] }
    {
        Index {
            count: 0,
            deadlines: Vec::new(alloc),
            stands: BTreeMap::new(alloc),
        }
    }

    /// How many claims there are.
    pub fn len(&self) -> usize
        ensures count { result ≡ self.now.count }
        ensures length { (cs : List Claim) → IsIndexOf self.now cs → result ≡ length cs }
    {
        self.count
    }

    /// A claim comes. After an error the index is of the same claims.
    #[tactic(auto, using(crate::proofs::IndexLaws::rises, crate::proofs::IndexLaws::are_told, crate::proofs::IndexLaws::few_stand, crate::proofs::IndexLaws::few_run, crate::proofs::IndexLaws::index_more, crate::proofs::IndexLaws::index_still))]
    pub fn enter(&mut self, claim: &Claim) -> Result<(), AllocError>
        requires index { Has self.old [] }
        requires few { self.old.count < most_indexed }
        ensures ok { OnOk result (HasCome self.old self.new (claim.now ∷ [])) }
        ensures err { OnErr result (HasCome self.old self.new []) }
        ensures count { OnOk result (self.new.count ≡ self.old.count + 1) }
    {
        make_room(&mut self.deadlines, self.count + 1)?;
        come(&mut self.stands, claim)?;
        enter_moment(&mut self.deadlines, claim.what);
        self.count += 1;
        Ok(())
    }

    /// A claim goes. It takes no memory.
    #[tactic(auto, using(crate::proofs::IndexLaws::rises, crate::proofs::IndexLaws::are_told, crate::proofs::IndexLaws::some_stand, crate::proofs::IndexLaws::some_run, crate::proofs::IndexLaws::some_counted, crate::proofs::IndexLaws::index_less))]
    pub fn leave(&mut self, claim: &Claim)
        requires index { Has self.old (claim.now ∷ []) }
        ensures { HasLeft self.old self.new (claim.now ∷ []) }
    {
        leave_moment(&mut self.deadlines, claim.what);
        go(&mut self.stands, claim);
        self.count -= 1;
    }

    /// Something else is claimed by one of the claims, if it stands. It takes no memory.
    #[tactic(auto, using(crate::proofs::IndexLaws::rises, crate::proofs::IndexLaws::some_run, crate::proofs::IndexLaws::room_again, crate::proofs::IndexLaws::index_recast))]
    pub fn recast(&mut self, claim: &Claim, to: What)
        requires index { Has self.old (claim.now ∷ []) }
        ensures { (new : Claim) (others : List Claim) → new.what ≡ to → ((at : Stand) → bears at new ≡ bears at claim.now) → IsIndexOf self.old (claim.now ∷ others) → IsIndexOf self.new (new ∷ others) }
    {
        leave_moment(&mut self.deadlines, claim.what);
        enter_moment(&mut self.deadlines, to);
    }

    /// Whether an answer is due to a cache's break: only the first deadline is looked at.
    #[tactic(auto, using(crate::proofs::IndexLaws::rises, crate::proofs::IndexLaws::has_run))]
    pub fn has_due(&self, now: Moment) -> bool
        requires { Has self.now [] }
        ensures { (cs : List Claim) → IsIndexOf self.now cs → result ≡ nat_lt 0 (running (λ m. nat_le m now.0) cs) }
    {
        has_come(&self.deadlines, now)
    }

    /// How many answers are due: their deadlines are looked at, and one more.
    #[tactic(auto, using(crate::proofs::IndexLaws::rises, crate::proofs::IndexLaws::count_run))]
    pub fn count_due<L: Ledger>(&self, now: Moment, steps: &mut Steps<L>) -> usize
        requires { Has self.now [] }
        ensures count { (cs : List Claim) → IsIndexOf self.now cs → result ≡ running (λ m. nat_le m now.0) cs }
        ensures more { steps.old ≤ steps.new }
        ensures few { steps.new ≤ steps.old + result + 1 }
    {
        count_come(&self.deadlines, now, steps)
    }

    /// The first file on which someone stands (see `who_of` and `who_opens`), or the first past this one.
    #[tactic(auto, using(crate::proofs::IndexLaws::next_stands))]
    pub fn next_file(&self, who: u64, past: Option<u32>) -> Option<u32>
        ensures { (cs : List Claim) → IsIndexOf self.now cs → IsNext result who past cs }
    {
        next_file(&self.stands, who, past)
    }
}

/// These claims go. It takes no memory.
#[tactic(auto, using(crate::proofs::IndexLaws::first_has, crate::proofs::IndexLaws::rest_has, crate::proofs::IndexLaws::both_left, crate::proofs::IndexLaws::none_left))]
pub fn leave_all(index: &mut Index, claims: &[Claim])
    requires { Has index.old claims.now }
    ensures { HasLeft index.old index.new claims.now }
{
    if let [claim, rest @ ..] = claims {
        index.leave(claim);
        leave_all(index, rest);
    }
}

/// These claims come. After an error the index is of the same claims.
#[tactic(auto, using(crate::proofs::IndexLaws::come_has, crate::proofs::IndexLaws::both_come, crate::proofs::IndexLaws::come_back, crate::proofs::IndexLaws::still_has, crate::proofs::IndexLaws::none_come))]
pub fn enter_all(index: &mut Index, claims: &[Claim]) -> Result<(), AllocError>
    requires index { Has index.old [] }
    requires few { index.old.count + length claims.now ≤ most_indexed }
    ensures ok { OnOk result (HasCome index.old index.new claims.now) }
    ensures err { OnErr result (HasCome index.old index.new []) }
{
    if let [claim, rest @ ..] = claims {
        index.enter(claim)?;
        if let Err(error) = enter_all(index, rest) {
            index.leave(claim);
            return Err(error);
        }
    }
    Ok(())
}
