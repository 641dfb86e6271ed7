//! How many claims someone has on each file.
ghost use Rattle.std.specs.Prelude.{◌≡◌, ◌+◌, ◌≤◌, List, OnOk, OnErr};
ghost use Rattle.std.specs.Cmp.{partial_order_from_own_ties};
ghost use Rattle.std.specs.Cmp.Rules.{comparing};
ghost use Rattle.std.specs.Ordering.{as_partial_cmp};
ghost use Rattle.std.proofs.Common.{rules};
ghost use Rattle.xl_matrix.specs.declared.claim.Claim.{Claim};
ghost use Rattle.xl_index.specs.Totals.{one, total};
ghost use Rattle.xl_index.specs.Stands.{stand_cmp, who_of, who_opens, kind_of, is_here, bears, many_at, owned_here, first_past, AreTold, ComesOne, IsNext};

use std::alloc::AllocError;
use std::cmp::Ordering;
use std::collections::BTreeMap;
use std::ops::Bound;
use xl_base::{Owner, Party, Protocol};
use xl_matrix::Claim;

/// Who stands, by the number that it has here, and on which file. Stands are in order by who, then by file.
#[derive(Clone, Copy, PartialEq, Eq)]
pub struct Stand {
    who: u64,
    file: u32,
}

impl Ord for Stand {
    ghost cmp = { stand_cmp };

    ghost total = { Prim.search (comparing, rules) };

    ghost matches_partial_cmp = { Prim.search (comparing, rules) };

    ghost matches_eq = { Prim.search (comparing, rules) };

    fn cmp(&self, other: &Stand) -> Ordering {
        self.who.cmp(&other.who).then(self.file.cmp(&other.file))
    }
}

impl PartialOrd for Stand {
    ghost partial_cmp = { as_partial_cmp stand_cmp };

    ghost laws = { partial_order_from_own_ties (Prim.search (comparing, rules)) (Prim.search (comparing, rules)) };

    fn partial_cmp(&self, other: &Stand) -> Option<Ordering> {
        Some(self.cmp(other))
    }
}

/// How many claims there are at each stand at which there are some.
pub(crate) type Stands = BTreeMap<Stand, usize>;

fn kind_of(protocol: Protocol) -> u64
    ensures kind { result ≡ kind_of protocol }
    ensures small { result ≤ 2 }
{
    match protocol {
        Protocol::Nlm => 0,
        Protocol::Nfs => 1,
        Protocol::Smb => 2,
    }
}

/// The number here of the SMB open of this number.
pub fn who_opens(number: u32) -> u64
    ensures { result ≡ who_opens number }
{
    3 * 4_294_967_296 + number as u64
}

/// The number here of a party.
pub fn who_of(party: Party) -> u64
    ensures { result ≡ who_of party }
{
    match party {
        Party::Name(protocol, number) => kind_of(protocol) * 4_294_967_296 + number as u64,
        Party::Open(number) => who_opens(number),
    }
}

/// How many claims there are at a stand.
fn count_at(stands: &Stands, at: Stand) -> usize
    ensures { result ≡ many_at stands.now at }
{
    stands.get(&at).copied().unwrap_or(0)
}

/// One claim more at a stand. After an error all is as it was.
#[tactic(auto, using(crate::proofs::StandLaws::comes_one, crate::proofs::StandLaws::told_more, crate::proofs::StandLaws::told_still, crate::proofs::StandLaws::all_stay))]
fn come_one(stands: &mut Stands, who: u64, file: u32) -> Result<(), AllocError>
    requires few { (at : Stand) → many_at stands.old at ≤ 1048576 }
    requires told { AreTold stands.old }
    ensures ok { OnOk result (ComesOne stands.old stands.new who file) }
    ensures err { OnErr result ((at : Stand) → many_at stands.new at ≡ many_at stands.old at) }
    ensures told { AreTold stands.new }
{
    let at = Stand { who, file };
    let many = count_at(stands, at) + 1;
    stands.insert(at, many)?;
    Ok(())
}

/// One claim fewer at a stand, which goes with its last.
#[tactic(auto, using(crate::proofs::StandLaws::goes_one, crate::proofs::StandLaws::told_gone, crate::proofs::StandLaws::told_more))]
fn go_one(stands: &mut Stands, who: u64, file: u32)
    requires some { (at : Stand) → one (is_here at who file) ≤ many_at stands.old at }
    requires told { AreTold stands.old }
    ensures fewer { (at : Stand) → one (is_here at who file) + many_at stands.new at ≡ many_at stands.old at }
    ensures told { AreTold stands.new }
{
    let at = Stand { who, file };
    let many = count_at(stands, at) - 1;
    if many == 0 {
        stands.remove(&at);
    } else {
        let _ = stands.insert(at, many);
    }
}

/// One claim more at the stand of the SMB open that owns it, if one does. After an error all is as it was.
#[tactic(auto, using(crate::proofs::StandLaws::none_owned))]
fn come_owned(stands: &mut Stands, owner: Owner, file: u32) -> Result<(), AllocError>
    requires few { (at : Stand) → many_at stands.old at ≤ 1048576 }
    requires told { AreTold stands.old }
    ensures ok { OnOk result ((at : Stand) → many_at stands.new at ≡ owned_here at file owner + many_at stands.old at) }
    ensures err { OnErr result ((at : Stand) → many_at stands.new at ≡ many_at stands.old at) }
    ensures told { AreTold stands.new }
{
    match owner {
        Owner::Open(number) => come_one(stands, who_opens(number), file),
        Owner::Name(_, _) => Ok(()),
    }
}

/// One claim fewer at the stand of the SMB open that owned it, if one did.
#[tactic(auto, using(crate::proofs::StandLaws::none_owned))]
fn go_owned(stands: &mut Stands, owner: Owner, file: u32)
    requires some { (at : Stand) → owned_here at file owner ≤ many_at stands.old at }
    requires told { AreTold stands.old }
    ensures fewer { (at : Stand) → owned_here at file owner + many_at stands.new at ≡ many_at stands.old at }
    ensures told { AreTold stands.new }
{
    match owner {
        Owner::Open(number) => go_one(stands, who_opens(number), file),
        Owner::Name(_, _) => {}
    }
}

/// A claim comes. After an error all is as it was.
#[tactic(auto, using(crate::proofs::StandLaws::few_more, crate::proofs::StandLaws::some_come, crate::proofs::StandLaws::comes_both, crate::proofs::StandLaws::comes_back))]
pub(crate) fn come(stands: &mut Stands, claim: &Claim) -> Result<(), AllocError>
    requires few { (at : Stand) → many_at stands.old at ≤ 524288 }
    requires told { AreTold stands.old }
    ensures ok { OnOk result ((at : Stand) → many_at stands.new at ≡ bears at claim.now + many_at stands.old at) }
    ensures err { OnErr result ((at : Stand) → many_at stands.new at ≡ many_at stands.old at) }
    ensures told { AreTold stands.new }
{
    let who = who_of(claim.party);
    come_one(stands, who, claim.file)?;
    if let Err(error) = come_owned(stands, claim.owner, claim.file) {
        go_one(stands, who, claim.file);
        return Err(error);
    }
    Ok(())
}

/// A claim goes.
#[tactic(auto, using(crate::proofs::StandLaws::some_here, crate::proofs::StandLaws::some_owned, crate::proofs::StandLaws::goes_both))]
pub(crate) fn go(stands: &mut Stands, claim: &Claim)
    requires some { (at : Stand) → bears at claim.now ≤ many_at stands.old at }
    requires told { AreTold stands.old }
    ensures fewer { (at : Stand) → bears at claim.now + many_at stands.new at ≡ many_at stands.old at }
    ensures told { AreTold stands.new }
{
    go_one(stands, who_of(claim.party), claim.file);
    go_owned(stands, claim.owner, claim.file);
}

/// Where the stands past a file begin, or all of someone's.
fn first_past(who: u64, past: Option<u32>) -> Bound<Stand>
    ensures { result ≡ first_past who past }
{
    match past {
        None => Bound::Included(Stand { who, file: 0 }),
        Some(file) => Bound::Excluded(Stand { who, file }),
    }
}

/// The first file on which someone stands, or the first past this one.
pub(crate) fn next_file(stands: &Stands, who: u64, past: Option<u32>) -> Option<u32>
    ensures { (cs : List Claim) → AreTold stands.now → ((at : Stand) → many_at stands.now at ≡ total (bears at) cs) → IsNext result who past cs }
{
    let first = first_past(who, past);
    match stands.range((first, Bound::Unbounded)).next() {
        Some((at, _)) if at.who == who => Some(at.file),
        _ => None,
    }
}
