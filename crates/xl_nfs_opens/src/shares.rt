//! The shares of open owners in the core.
ghost use Rattle.xl_nfs_opens.specs.Downgrades.{weakens};
ghost use Rattle.xl_names.specs.declared.name.Name.TheVariants.{NfsShare};
ghost use Rattle.std.specs.Prelude.{◌≡◌, ℕ, [], IfOk, IfSome, OnOk};
ghost use Rattle.xl_base.specs.Lists.{IsIn};
ghost use Rattle.xl_core.specs.Askers.{IsFit};
ghost use Rattle.xl_core.specs.Decide.{ask};
ghost use Rattle.xl_core.specs.Deeds.{all_done, all_told_of};
ghost use Rattle.xl_core.specs.Settle.{share_has};
ghost use Rattle.xl_core.specs.State.{MayBe};
ghost use Rattle.xl_nfs.specs.Opens.{shown_open_args, shown_open_claim};
ghost use Rattle.xl_nfs_opens.specs.Opens.{all_rooms, gives, gives_all, rights_of, share_ask, share_by, share_held, given_up, reclaims};
ghost use Rattle.xl_plan.specs.Budgets.{IsReady};
ghost use Rattle.xl_plan.specs.Keepers.{HandsTo, IsQuiet};
ghost use Rattle.xl_nfs_opens.specs.Short.{Leaves, IsNfsAsk};

use crate::delegating::wished_kinds;
use crate::opener::Opener;
use std::alloc::{AllocError, Global};
use xl_base::{Keeper, Mark, Owner, Protocol, Sequence};
use xl_core::{Act, Answer, Ask, Core, Effect, MOST_HOSTS, MOST_OPENS, MOST_OWNERS, Who};
use xl_matrix::{Claim, Rwd, What, rights_within};
use xl_names::Name;
use xl_nfs::{OpenArgs, OpenClaim};
use xl_nfs_state::StateidRow;
use xl_table::Table;
use xl_wait::{NO_ROWS, Rooms};

/// The room that an ask is given: the rows that it adds to the tables of the fronts are counted before.
const ALL_ROOMS: Rooms = Rooms {
    hosts: MOST_HOSTS,
    owners: MOST_OWNERS,
    opens: MOST_OPENS,
};

/// Nothing is denied (OPEN4_SHARE_DENY_NONE).
pub const SHARE_NONE: u32 = 0;

/// Reading (OPEN4_SHARE_ACCESS_READ, OPEN4_SHARE_DENY_READ).
pub const SHARE_READ: u32 = 1;

/// Writing (OPEN4_SHARE_ACCESS_WRITE, OPEN4_SHARE_DENY_WRITE).
pub const SHARE_WRITE: u32 = 2;

/// Both (OPEN4_SHARE_ACCESS_BOTH, OPEN4_SHARE_DENY_BOTH).
pub const SHARE_BOTH: u32 = 3;

/// What access or deny is of.
pub(crate) fn rights_of(bits: u32) -> Rwd
    ensures { result ≡ rights_of bits }
{
    Rwd {
        r: bits == SHARE_READ || bits == SHARE_BOTH,
        w: bits == SHARE_WRITE || bits == SHARE_BOTH,
        d: false,
    }
}

/// The name of the owner's shares.
fn share_name(alloc: Global, opener: &Opener) -> Result<Name, AllocError>
    ensures { IfOk result (λ name. name ≡ NfsShare opener.now.id opener.now.owner) }
{
    let id = Sequence::from_slice(alloc, opener.id.as_slice())?;
    let owner = Sequence::from_slice(alloc, opener.owner.as_slice())?;
    Ok(Name::NfsShare(id, owner))
}

fn share_by(table: &Table, file: u32, number: Option<u32>) -> Option<Claim>
    ensures value { result ≡ share_by table.now file number }
    ensures held { IfSome result (λ claim. IsIn claim table.now) }
{
    match number {
        Some(number) => table.share_of(file, Owner::Name(Protocol::Nfs, number)),
        None => None,
    }
}

/// The owner's share on the file.
#[tactic(auto, unfolding(crate::specs::Opens::share_held))]
pub(crate) fn share_held(
    alloc: Global,
    core: &Core,
    opener: &Opener,
    file: u32,
) -> Result<Option<Claim>, AllocError>
    ensures value { IfOk result (λ claim. claim ≡ share_held core.now opener.now file) }
    ensures held { IfOk result (λ claim. IfSome claim (λ share. IsIn share core.now.claims)) }
{
    let number = core.names().find(&share_name(alloc, opener)?);
    Ok(share_by(core.table(), file, number))
}

/// Gives back a claim, which is held, if it is one.
#[tactic(auto, using(xl_plan::proofs::BudgetLaws::leaves_self, crate::proofs::LeaveLaws::give_told))]
pub(crate) fn give(alloc: Global, core: &mut Core, share: Option<Claim>)
    requires ready { IsReady 0 core.old }
    requires held { IfSome share (λ claim. IsIn claim core.old.claims) }
    ensures done { (n : ℕ) → all_done n core.old (gives share) ≡ core.new }
    ensures told { (n : ℕ) → all_told_of n core.old (gives share) ≡ [] }
    ensures state { core.new ≡ given_up core.old share }
    ensures leaves { Leaves 0 core.old core.new }
    ensures quiet { IsQuiet core.old core.new }
{
    if let Some(claim) = share {
        let _effects = core.give_back(alloc, &claim);
    }
}

fn share_has(what: What, access: Rwd, deny: Rwd) -> bool
    ensures { result ≡ share_has what access deny }
{
    match what {
        What::Share(rights, denied) => {
            rights_within(access, rights) && rights_within(deny, denied)
        }
        _ => false,
    }
}

/// Leaves a claim that is held no more than these rights, if there is one, and it is a share that has them.
#[tactic(auto, using(xl_plan::proofs::BudgetLaws::leaves_self))]
pub(crate) fn weaken(alloc: Global, core: &mut Core, share: Option<Claim>, access: Rwd, deny: Rwd)
    requires ready { IsReady 0 core.old }
    requires held { IfSome share (λ claim. IsIn claim core.old.claims) }
    ensures done { (n : ℕ) → all_done n core.old (weakens share access deny) ≡ core.new }
    ensures told { (n : ℕ) → all_told_of n core.old (weakens share access deny) ≡ [] }
    ensures leaves { Leaves 0 core.old core.new }
    ensures quiet { IsQuiet core.old core.new }
{
    let Some(claim) = share else {
        return;
    };
    if share_has(claim.what, access, deny) {
        let _effects = core.weaken(alloc, &claim, access, deny);
    }
}

/// Gives back the owner's shares on the files of these.
#[tactic(auto, using(xl_plan::proofs::BudgetLaws::leaves_self, xl_plan::proofs::BudgetLaws::leaves_then, xl_plan::proofs::BudgetLaws::ready_then))]
pub(crate) fn give_all(
    alloc: Global,
    core: &mut Core,
    opener: &Opener,
    rows: &[StateidRow],
) -> Result<(), AllocError>
    requires ready { IsReady 0 core.old }
    ensures done { (n : ℕ) → OnOk result (all_done n core.old (gives_all core.old opener.now rows.now) ≡ core.new) }
    ensures told { (n : ℕ) → OnOk result (all_told_of n core.old (gives_all core.old opener.now rows.now) ≡ []) }
    ensures leaves { OnOk result (Leaves 0 core.old core.new) }
    ensures quiet { OnOk result (IsQuiet core.old core.new) }
{
    let Some((row, rest)) = rows.split_first() else {
        return Ok(());
    };
    let share = share_held(alloc, core, opener, row.file)?;
    give(alloc, core, share);
    give_all(alloc, core, opener, rest)?;
    Ok(())
}

/// Whether the claim is one of what was open before a restart.
pub(crate) fn reclaims(claim: &OpenClaim) -> bool
    ensures { result ≡ reclaims (shown_open_claim claim.now) }
{
    matches!(claim, OpenClaim::Previous(_))
}

/// What is asked for OPEN, with this wish.
#[tactic(auto, unfolding(crate::specs::Opens::share_ask), using(crate::proofs::OwnerLaws::own_client, crate::proofs::OwnerLaws::kinds_fit))]
pub(crate) fn share_ask(
    alloc: Global,
    wish: Option<bool>,
    opener: &Opener,
    args: &OpenArgs,
    file: u32,
) -> Result<Ask, AllocError>
    ensures value { IfOk result (λ ask. ask ≡ share_ask wish opener.now (shown_open_args args.now) file) }
    ensures fit { IfOk result (λ ask. IsFit ask) }
    ensures nfs { IfOk result (λ ask. IsNfsAsk ask) }
{
    let kinds = wished_kinds(alloc, wish)?;
    let owner = share_name(alloc, opener)?;
    let id = Sequence::from_slice(alloc, opener.id.as_slice())?;
    Ok(Ask {
        file,
        owner: Who::Named(owner),
        party: Who::Named(Name::NfsParty(id)),
        act: Act::Share(rights_of(args.access), rights_of(args.deny)),
        wish: kinds,
        conn: None,
        blocking: false,
        awaits: false,
        reclaim: reclaims(&args.claim),
        monitored: true,
        mark: Some(Mark::Verifier(opener.verifier)),
        rows: NO_ROWS,
    })
}

/// Asks the core for OPEN.
#[tactic(auto, using(xl_plan::proofs::BudgetLaws::ready_numbers))]
pub fn asked<K: Keeper>(
    alloc: Global,
    core: &mut Core,
    keeper: &mut K,
    request: Ask,
) -> Result<(Answer, Sequence<Effect>), AllocError>
    requires fit { IsFit request }
    requires nfs { IsNfsAsk request }
    requires ready { IsReady 2 core.old }
    ensures state { (n : ℕ) → IfOk result (λ r. MayBe n core.new → ask n all_rooms core.old request ≡ (r.0, r.1, core.new)) }
    ensures leaves { OnOk result (Leaves 2 core.old core.new) }
    ensures keeper { OnOk result (HandsTo K.held K.given K.faults K.left core.old core.new keeper.old keeper.new) }
{
    let (answer, effects) = core.ask(alloc, keeper, &request, &ALL_ROOMS)?;
    Ok((answer, effects))
}
