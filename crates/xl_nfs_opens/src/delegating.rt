//! Delegations that OPEN gives (RFC 7530 10.4).
ghost use Rattle.std.specs.Prelude.{◌≡◌, IfOk, IfSome, OnOk, is_some, not, option_copied};
ghost use Rattle.std.specs.List.{find};
ghost use Rattle.xl_base.specs.Lists.{IsIn};
ghost use Rattle.xl_matrix.specs.Equal.{same_parties};
ghost use Rattle.xl_names.specs.declared.name.Name.TheVariants.{NfsParty};
ghost use Rattle.xl_nfs.specs.Opens.{shown_open_args, shown_open_claim};
ghost use Rattle.xl_nfs_state.specs.Keys.{place_of, same_place};
ghost use Rattle.xl_core.specs.Askers.{party_named};
ghost use Rattle.xl_nfs_opens.specs.Opens.{cache_by, cache_held, delegation_of, can_stand, delegated, delegated_in, delegation_row, delegation_told, drawn_for, granted_wish, has_none, has_program, kind_for, type_claimed, wish_of, wished_kinds};
ghost use Rattle.xl_plan.specs.Budgets.{IsReady};
ghost use Rattle.xl_plan.specs.Keepers.{IsQuiet};
ghost use Rattle.xl_nfs_opens.specs.Short.{Leaves};

use crate::leases::drawn;
use crate::opener::Opener;
use crate::renewing::{FIRST_SEQID, stateid_of};
use crate::shares::{SHARE_NONE, rights_of};
use std::alloc::{AllocError, Global};
use xl_base::{Party, Protocol, Sequence};
use xl_core::Core;
use xl_matrix::{CacheKind, Claim, What, same_party};
use xl_names::Name;
use xl_nfs::{DelegationType, OpenArgs, OpenClaim, Stateid};
use xl_nfs_state::{ClientRow, Holder, NfsState, Standing, StateidRow};

/// Whether the client can be called back.
fn has_program(client: Option<&ClientRow>) -> bool
    ensures { result ≡ has_program (option_copied client.entry) }
{
    match client {
        Some(row) => row.details.callback.program != 0,
        None => false,
    }
}

/// Whether a delegation that is claimed from before a restart is for writing, if it is one.
fn type_claimed(kind: DelegationType) -> Option<bool>
    ensures { result ≡ type_claimed kind }
{
    match kind {
        DelegationType::None => None,
        DelegationType::Read => Some(false),
        DelegationType::Write => Some(true),
    }
}

/// Whether the delegation is for writing that a claim may get, if it may: of a file by its name that of a confirmed
/// owner whose client can be called back, by the access; of a file that was open before a restart what is claimed with
/// it.
fn kind_for(client: Option<&ClientRow>, args: &OpenArgs, confirmed: bool) -> Option<bool>
    ensures { result ≡ kind_for (option_copied client.entry) (shown_open_args args.now) confirmed (shown_open_claim args.now.claim) }
{
    match args.claim {
        OpenClaim::Null(_) if confirmed && has_program(client) => Some(rights_of(args.access).w),
        OpenClaim::Previous(kind) => type_claimed(kind),
        OpenClaim::Null(_) | OpenClaim::DelegateCurrent(_) | OpenClaim::DelegatePrevious(_) => None,
    }
}

/// The first of these caches that is this party's.
fn cache_in(caches: &[Claim], party: Party) -> Option<Claim>
    ensures { result ≡ find (λ c. same_parties c.party party) caches.now }
{
    'caches: for claim in caches {
        if same_party(claim.party, party) {
            return Some(*claim);
        }
    }
    None
}

/// The cache that a party has on the file.
#[tactic(auto, using(crate::proofs::CacheLaws::cache_found, crate::proofs::CacheLaws::found_held))]
fn cache_by(
    alloc: Global,
    core: &Core,
    file: u32,
    party: Option<Party>,
) -> Result<Option<Claim>, AllocError>
    ensures value { IfOk result (λ claim. claim ≡ cache_by core.now.claims file party) }
    ensures held { IfOk result (λ claim. IfSome claim (λ cache. IsIn cache core.now.claims)) }
{
    let Some(party) = party else {
        return Ok(None);
    };
    let caches = core.table().caches_on(alloc, file)?;
    Ok(cache_in(&caches, party))
}

/// The party that the client of this id string is, if it has something or waits, or had or did.
pub fn party_of(alloc: Global, core: &Core, id: &[u8]) -> Result<Option<Party>, AllocError>
    ensures { IfOk result (λ party. party ≡ party_named core.now.names (NfsParty id.now)) }
{
    let name = Name::NfsParty(Sequence::from_slice(alloc, id)?);
    match core.names().find(&name) {
        Some(number) => Ok(Some(Party::Name(Protocol::Nfs, number))),
        None => Ok(None),
    }
}

/// The cache on the file of the client of this id string.
#[tactic(auto, unfolding(crate::specs::Opens::cache_held))]
pub(crate) fn cache_held(
    alloc: Global,
    core: &Core,
    id: &[u8],
    file: u32,
) -> Result<Option<Claim>, AllocError>
    ensures value { IfOk result (λ claim. claim ≡ cache_held core.now id.now file) }
    ensures held { IfOk result (λ claim. IfSome claim (λ cache. IsIn cache core.now.claims)) }
{
    let party = party_of(alloc, core, id)?;
    let cache = cache_by(alloc, core, file, party)?;
    Ok(cache)
}

/// Whether the client has neither a cache nor a delegation on the file.
fn has_none(
    alloc: Global,
    core: &Core,
    state: &NfsState,
    opener: &Opener,
    file: u32,
) -> Result<bool, AllocError>
    ensures { IfOk result (λ none. none ≡ has_none core.now state.now opener.now file) }
{
    let cache = cache_held(alloc, core, opener.id.as_slice(), file)?;
    Ok(cache.is_none() && state.find_delegation(opener.client, file).is_none())
}

/// The delegation for which an OPEN wishes: what its claim may get, if the client has none there.
#[tactic(auto, unfolding(crate::specs::Opens::wish_of))]
pub(crate) fn wish_of(
    alloc: Global,
    core: &Core,
    state: &NfsState,
    opener: &Opener,
    args: &OpenArgs,
    confirmed: bool,
    file: u32,
) -> Result<Option<bool>, AllocError>
    ensures { IfOk result (λ wish. wish ≡ wish_of core.now state.now opener.now (shown_open_args args.now) confirmed file) }
{
    let client = state.find_client(opener.client, true);
    let Some(write) = kind_for(client, args, confirmed) else {
        return Ok(None);
    };
    if !has_none(alloc, core, state, opener, file)? {
        return Ok(None);
    }
    Ok(Some(write))
}

/// The kinds of such a wish.
pub(crate) fn wished_kinds(
    alloc: Global,
    wish: Option<bool>,
) -> Result<Sequence<CacheKind>, AllocError>
    ensures { IfOk result (λ kinds. kinds ≡ wished_kinds wish) }
{
    let mut kinds = Sequence::new(alloc);
    match wish {
        Some(true) => kinds.push(CacheKind::WriteDeleg)?,
        Some(false) => kinds.push(CacheKind::ReadDeleg)?,
        None => {}
    }
    Ok(kinds)
}

/// Whether the delegation is for writing, if this is one.
fn delegation_of(what: What) -> Option<bool>
    ensures { result ≡ delegation_of what }
{
    match what {
        What::Cache(CacheKind::WriteDeleg, _) => Some(true),
        What::Cache(CacheKind::ReadDeleg, _) => Some(false),
        _ => None,
    }
}

/// The wish, if it was granted: the client has a delegation there then, which is sent as what it is.
pub(crate) fn granted_wish(
    alloc: Global,
    core: &Core,
    opener: &Opener,
    file: u32,
    wish: Option<bool>,
) -> Result<Option<bool>, AllocError>
    ensures { IfOk result (λ write. write ≡ granted_wish core.now opener.now file wish) }
{
    if wish.is_none() {
        return Ok(None);
    }
    match cache_held(alloc, core, opener.id.as_slice(), file)? {
        Some(cache) => Ok(delegation_of(cache.what)),
        None => Ok(None),
    }
}

/// The client's delegation of this number on the file, new.
fn delegation_row(number: u64, opener: &Opener, file: u32, write: bool) -> StateidRow
    ensures { result ≡ delegation_row number opener.now file write }
{
    StateidRow {
        number,
        client: opener.client,
        file,
        holder: Holder::Delegation { write },
        standing: Standing {
            seqid: FIRST_SEQID,
            access: SHARE_NONE,
            deny: SHARE_NONE,
            closed: false,
        },
    }
}

/// Whether the client has no delegation on the file.
fn is_free(state: &NfsState, row: &StateidRow, write: bool) -> bool
    requires { row.now.holder ≡ Holder.Delegation write }
    ensures { result ≡ not (is_some (find (λ s. same_place (place_of row.now) (place_of s)) state.now.stateids)) }
{
    state.find_delegation(row.client, row.file).is_none()
}

/// Whether the delegation can come.
fn can_stand(state: &NfsState, row: &StateidRow, write: bool) -> bool
    requires { row.now.holder ≡ Holder.Delegation write }
    ensures { result ≡ can_stand row.now state.now }
{
    state.find_stateid(row.number).is_none() && is_free(state, row, write) && state.can_hang(row)
}

/// A delegation comes.
#[tactic(auto, unfolding(crate::specs::Opens::delegated_in))]
fn enter_delegation(
    alloc: Global,
    state: &mut NfsState,
    row: StateidRow,
    write: bool,
) -> Result<(), AllocError>
    requires { row.holder ≡ Holder.Delegation write }
    ensures { OnOk result (state.new ≡ delegated_in row state.old) }
{
    if !can_stand(state, &row, write) {
        return Ok(());
    }
    match state.add_stateid(alloc, row) {
        Ok(()) => Ok(()),
        Err(_) => Err(AllocError),
    }
}

/// A delegation comes under the next number, if one is granted, and this is sent of it.
#[tactic(auto, using(xl_plan::proofs::BudgetLaws::leaves_self, xl_plan::proofs::BudgetLaws::leaves_more, xl_plan::proofs::BudgetLaws::ready_less))]
pub(crate) fn delegate(
    alloc: Global,
    state: &mut NfsState,
    core: &mut Core,
    opener: &Opener,
    file: u32,
    write: Option<bool>,
) -> Result<Option<(Stateid, bool)>, AllocError>
    requires ready { IsReady 1 core.old }
    ensures lists { OnOk result (state.new ≡ delegated core.old opener.now file write state.old) }
    ensures core { OnOk result (core.new ≡ drawn_for write core.old) }
    ensures told { IfOk result (λ told. told ≡ delegation_told core.old write) }
    ensures leaves { OnOk result (Leaves 1 core.old core.new) }
    ensures quiet { OnOk result (IsQuiet core.old core.new) }
{
    let Some(write) = write else {
        return Ok(None);
    };
    let number = u64::from(drawn(core));
    let row = delegation_row(number, opener, file, write);
    enter_delegation(alloc, state, row, write)?;
    Ok(Some((stateid_of(core, number, FIRST_SEQID), write)))
}
