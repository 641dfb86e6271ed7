//! Oplocks and leases: what an open holds of one, what it is sent of it, and how a break is sent.
ghost use Rattle.std.specs.Prelude.{◌≡◌, ◌≤◌, true, find, length, IfOk, IfSome, option_copied};
ghost use Rattle.std.specs.List.{AllByRecursion};
ghost use Rattle.xl_base.specs.Limits.{most_message_bytes};
ghost use Rattle.xl_base.specs.Lists.{IsIn};
ghost use Rattle.xl_matrix.specs.Equal.{same_parties};
ghost use Rattle.xl_programs.specs.Sent.{FitsFrame};
ghost use Rattle.xl_smb.specs.Creates.{shown_create_reply};
ghost use Rattle.xl_smb.specs.Leases.{are_contexts, lease_context};
ghost use Rattle.xl_cache.specs.BreakPlans.{needs_answer_by};
ghost use Rattle.xl_core.specs.Ids.{id_of};
ghost use Rattle.xl_smb_locks.specs.Levels.{party_for, lease_party, party_of, cache_of, oplock_of, kind_by, kind_found, level_held, flags_by, flags_found, lease_found, cache_told, caching, level_told, contexts_told, file_id, file_of, opened, notice_of, lease_notice_of, noticed_by, noticed_to, hearer_of, noticed_under, noticed};

use std::alloc::{AllocError, Global};
use xl_base::{Out, Party, Protocol, Sequence};
use xl_cache::{answer_needed, lease_state, oplock_level};
use xl_core::{Core, Who, id_of};
use xl_matrix::{CacheKind, Claim, What, same_party};
use xl_names::Name;
use xl_programs::sent_to;
use xl_smb::{
    Contexts, CreateReply, FileId, FileStatus, Lease, LeaseNotice, Notice, SmbMessage,
    lease_context, write,
};
use xl_smb_state::{Holder, LeaseKey, Open, SmbState};

/// The first of these claims that is this party's.
fn find_of(claims: &[Claim], party: Party) -> Option<Claim>
    ensures { result ≡ find (λ c. same_parties c.party party) claims.now }
{
    'claims: for claim in claims {
        if same_party(claim.party, party) {
            return Some(*claim);
        }
    }
    None
}

/// What a CREATE is sent of its open's cache (MS-SMB2 2.2.14).
#[derive(Clone, Copy)]
pub enum Caching {
    /// An oplock of this level: 0 none, 1 level II, 8 exclusive, 9 batch.
    Level(u8),
    /// The lease that it is under, as it is then.
    Leased(Lease),
}

/// Whose an open's caches are: its own, or those of the lease that it is under.
pub fn party_for(number: u32, row: &Open) -> Who
    ensures { result ≡ party_for number row.now }
{
    match row.lease {
        Some(key) => Who::Named(Name::SmbLease(row.client, key)),
        None => Who::Open(number),
    }
}

/// What stands for the number of a name that has none.
const NO_NUMBER: u32 = u32::MAX;

/// The party of the lease of this key of a client.
pub fn lease_party(core: &Core, client: &[u8; 16], key: &[u8; 16]) -> Party
    ensures { result ≡ lease_party core.now.names client.now key.now }
{
    match core.names().find(&Name::SmbLease(*client, *key)) {
        Some(number) => Party::Name(Protocol::Smb, number),
        None => Party::Name(Protocol::Smb, NO_NUMBER),
    }
}

/// The same as a party.
pub fn party_of(core: &Core, number: u32, row: &Open) -> Party
    ensures { result ≡ party_of core.now.names number row.now }
{
    match row.lease {
        Some(key) => lease_party(core, &row.client, &key),
        None => Party::Open(number),
    }
}

/// The cache that a party has on a file, if it has one.
#[tactic(auto, using(crate::proofs::LevelLaws::cache_found, crate::proofs::LevelLaws::cache_held))]
pub fn cache_of(
    alloc: Global,
    core: &Core,
    file: u32,
    party: Party,
) -> Result<Option<Claim>, AllocError>
    ensures value { IfOk result (λ found. found ≡ cache_of file party core.now.claims) }
    ensures held { IfOk result (λ found. IfSome found (λ c. IsIn c core.now.claims)) }
{
    let caches = core.table().caches_on(alloc, file)?;
    let found = find_of(&caches, party);
    Ok(found)
}

/// The oplock that an open has on a file, if it has one.
pub fn oplock_of(
    alloc: Global,
    core: &Core,
    file: u32,
    number: u32,
) -> Result<Option<Claim>, AllocError>
    ensures value { IfOk result (λ found. found ≡ oplock_of file number core.now.claims) }
    ensures held { IfOk result (λ found. IfSome found (λ c. IsIn c core.now.claims)) }
{
    let found = cache_of(alloc, core, file, Party::Open(number))?;
    Ok(found)
}

/// The kind of a cache.
fn kind_by(what: What) -> Option<CacheKind>
    ensures { result ≡ kind_by what }
{
    match what {
        What::Cache(kind, _) => Some(kind),
        _ => None,
    }
}

/// The kind of the cache that is found, if there is one.
fn kind_found(found: Option<Claim>) -> Option<CacheKind>
    ensures { result ≡ kind_found found }
{
    match found {
        Some(claim) => kind_by(claim.what),
        None => None,
    }
}

/// The level of the oplock that an open has on a file: 0 none, 1 level II, 8 exclusive, 9 batch.
#[tactic(auto, unfolding(crate::specs::Levels::level_held), using(crate::proofs::LevelLaws::kind_there))]
pub fn level_held(alloc: Global, core: &Core, file: u32, number: u32) -> Result<u8, AllocError>
    ensures { IfOk result (λ level. level ≡ level_held core.now file number) }
{
    let found = oplock_of(alloc, core, file, number)?;
    let kind = kind_found(found);
    Ok(oplock_level(kind))
}

/// 2 while a break of a lease's cache runs.
fn flags_by(what: What) -> u32
    ensures { result ≡ flags_by what }
{
    match what {
        What::Cache(_, Some(_)) => 2,
        _ => 0,
    }
}

/// The same of the cache that is found, if there is one.
fn flags_found(found: Option<Claim>) -> u32
    ensures { result ≡ flags_found found }
{
    match found {
        Some(claim) => flags_by(claim.what),
        None => 0,
    }
}

/// The lease of this key, if this is its cache on the file.
fn lease_found(key: &[u8; 16], found: Option<Claim>) -> Lease
    ensures { result ≡ lease_found key.now found }
{
    Lease {
        key: *key,
        state: lease_state(kind_found(found)),
        flags: flags_found(found),
        duration: 0,
    }
}

/// What an open is sent of its cache: the level of its oplock, or the lease that it is under, as it is then.
#[tactic(auto, unfolding(crate::specs::Levels::cache_told))]
pub fn caching_of(
    alloc: Global,
    core: &Core,
    number: u32,
    row: &Open,
) -> Result<Caching, AllocError>
    ensures { IfOk result (λ told. told ≡ caching core.now number row.now) }
{
    match row.lease {
        Some(key) => {
            let party = party_of(core, number, row);
            let found = cache_of(alloc, core, row.file, party)?;
            Ok(Caching::Leased(lease_found(&key, found)))
        }
        None => {
            let level = level_held(alloc, core, row.file, number)?;
            Ok(Caching::Level(level))
        }
    }
}

/// The id in both halves of a FileId.
pub fn file_id(id: u64) -> FileId
    ensures { result ≡ file_id id }
{
    FileId {
        persistent: id,
        volatile: id,
    }
}

/// A file with these attributes, of which nothing else is said.
pub fn file_of(attributes: u32) -> FileStatus
    ensures { result ≡ file_of attributes }
{
    FileStatus {
        created: 0,
        accessed: 0,
        written: 0,
        changed: 0,
        allocated: 0,
        end_of_file: 0,
        attributes,
    }
}

/// The level that tells of a cache: that of an oplock, or 0xFF of a lease.
fn level_told(told: Caching) -> u8
    ensures { result ≡ level_told told }
{
    match told {
        Caching::Level(level) => level,
        Caching::Leased(_) => 0xFF,
    }
}

/// The context that carries a lease.
#[tactic(auto, using(crate::proofs::LevelLaws::context_little))]
fn lease_told(alloc: Global, lease: Lease) -> Result<Vec<u8>, AllocError>
    ensures list { IfOk result (λ list. list.items ≡ lease_context lease) }
    ensures within { IfOk result (λ list. are_contexts list.items ≡ true) }
    ensures little { IfOk result (λ list. length list.items ≤ 56) }
{
    let list = lease_context(alloc, lease)?;
    Ok(list)
}

/// The contexts that tell of a cache: one that carries the lease, or none.
pub fn contexts_told(alloc: Global, told: Caching) -> Result<Vec<u8>, AllocError>
    ensures list { IfOk result (λ list. list.items ≡ contexts_told told) }
    ensures within { IfOk result (λ list. are_contexts list.items ≡ true) }
    ensures little { IfOk result (λ list. length list.items ≤ 56) }
{
    match told {
        Caching::Level(_) => Ok(Vec::new(alloc)),
        Caching::Leased(lease) => Ok(lease_told(alloc, lease)?),
    }
}

/// The body of a reply to CREATE: a file that was there is open under this id, with this said of its cache, in these
/// contexts.
pub fn opened(id: u64, told: Caching, contexts: &[u8]) -> CreateReply<'_>
    requires { contexts.now ≡ contexts_told told }
    ensures { shown_create_reply result ≡ opened id told }
{
    CreateReply {
        oplock_level: level_told(told),
        action: 1,
        status: file_of(0x80),
        file_id: file_id(id),
        contexts: Contexts(contexts),
    }
}

/// The notice of a break, without its frame: the level that it leaves.
#[tactic(auto, using(crate::proofs::LevelLaws::notice_little))]
fn notice_of(alloc: Global, id: u64, to: Option<CacheKind>) -> Result<Vec<u8>, AllocError>
    ensures notice { IfOk result (λ v. v.items ≡ notice_of id to) }
    ensures little { IfOk result (λ v. length v.items ≤ most_message_bytes) }
{
    let message = SmbMessage::Notice(Notice::Oplock(oplock_level(to), file_id(id)));
    Ok(write(alloc, &message)?)
}

/// Whether the break of what is held takes effect only once it is answered.
fn needs_answer(held: What, to: Option<CacheKind>) -> bool
    ensures { result ≡ needs_answer_by held to }
{
    match held {
        What::Cache(kind, _) => answer_needed(kind, to),
        _ => false,
    }
}

/// The notice of a break of a lease, without its frame: what it held, and what it may keep.
#[tactic(auto, using(crate::proofs::LevelLaws::lease_little))]
fn lease_notice_of(
    alloc: Global,
    key: &[u8; 16],
    held: What,
    to: Option<CacheKind>,
) -> Result<Vec<u8>, AllocError>
    ensures notice { IfOk result (λ v. v.items ≡ lease_notice_of key.now held to) }
    ensures little { IfOk result (λ v. length v.items ≤ most_message_bytes) }
{
    let message = SmbMessage::Notice(Notice::Lease(LeaseNotice {
        flags: if needs_answer(held, to) { 1 } else { 0 },
        key: *key,
        current: lease_state(kind_by(held)),
        new: lease_state(to),
    }));
    Ok(write(alloc, &message)?)
}

/// A notice, to the connection of who holds the open.
fn noticed_by(alloc: Global, notice: Vec<u8>, by: Holder) -> Result<Sequence<Out>, AllocError>
    requires { length notice.items ≤ most_message_bytes }
    ensures outs { IfOk result (λ outs. outs ≡ noticed_by notice.items by) }
    ensures little { IfOk result (λ outs. AllByRecursion FitsFrame outs) }
{
    match by {
        Holder::Tree(place) => Ok(sent_to(alloc, place.connection, notice)?),
        Holder::Nobody(_) => Ok(Sequence::new(alloc)),
    }
}

/// A notice, to the connection of an open, if it is there.
fn noticed_to(
    alloc: Global,
    notice: Vec<u8>,
    found: Option<&Open>,
) -> Result<Sequence<Out>, AllocError>
    requires { length notice.items ≤ most_message_bytes }
    ensures outs { IfOk result (λ outs. outs ≡ noticed_to notice.items (option_copied found.entry)) }
    ensures little { IfOk result (λ outs. AllByRecursion FitsFrame outs) }
{
    match found {
        Some(row) => Ok(noticed_by(alloc, notice, row.holder)?),
        None => Ok(Sequence::new(alloc)),
    }
}

/// The open that hears of breaks of a lease: the lowest of its opens.
fn hearer_of<'a>(state: &'a SmbState, key: &LeaseKey) -> Option<&'a Open>
    ensures { option_copied result ≡ hearer_of key.now state.now }
{
    let number = state.lowest_open(key)?;
    state.find_open(number)
}

/// What is sent of a break of the cache of the party of this name: if that is a lease, its notice (MS-SMB2 3.3.4.7).
fn noticed_under(
    alloc: Global,
    state: &SmbState,
    held: What,
    to: Option<CacheKind>,
    name: Option<&Name>,
) -> Result<Sequence<Out>, AllocError>
    ensures outs { IfOk result (λ outs. outs ≡ noticed_under held to state.now (option_copied name.entry)) }
    ensures little { IfOk result (λ outs. AllByRecursion FitsFrame outs) }
{
    match name {
        Some(Name::SmbLease(client, key)) => {
            let notice = lease_notice_of(alloc, key, held, to)?;
            let lease = LeaseKey {
                client: *client,
                key: *key,
            };
            Ok(noticed_to(alloc, notice, hearer_of(state, &lease))?)
        }
        _ => Ok(Sequence::new(alloc)),
    }
}

/// What is sent of a break that leaves this much of what a party holds: of an oplock its notice (MS-SMB2 3.3.4.6), and of a
/// lease.
pub(crate) fn noticed(
    alloc: Global,
    state: &SmbState,
    core: &Core,
    cache: &Claim,
    to: Option<CacheKind>,
) -> Result<Sequence<Out>, AllocError>
    ensures outs { IfOk result (λ outs. outs ≡ noticed core.now cache.now.party cache.now.what to state.now) }
    ensures little { IfOk result (λ outs. AllByRecursion FitsFrame outs) }
{
    match cache.party {
        Party::Open(number) => {
            let notice = notice_of(alloc, id_of(core, number), to)?;
            Ok(noticed_to(alloc, notice, state.find_open(number))?)
        }
        Party::Name(_, number) => {
            let name = core.names().as_slice().get(number as usize);
            Ok(noticed_under(alloc, state, cache.what, to, name)?)
        }
    }
}
