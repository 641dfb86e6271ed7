//! The claims that are held.

ghost use Rattle.std.specs.Prelude.{◌≡◌, ◌<◌};
ghost use Rattle.std.specs.List.{list_all};
ghost use Rattle.xl_table.specs.Held.{is_real_by, is_range};
ghost use Rattle.xl_tests_parts.specs.Trials.{is_beside, is_simple};

use super::matrix::claim_in;
use std::alloc::{AllocError, Global};
use std::marker::Brand;
use std::sync::ledger::{Blank, Ledger};
use xl_base::{Moment, Owner, Party, Protocol, Sequence};
use xl_matrix::{Claim, Extent, Rwd, What, is_posix, same_claim, same_owner};
use xl_names::{Name, Names};
use xl_spans::{Mode, Span};
use xl_steps::Steps;
use xl_table::{
    CLAIMS, Leaver, Table, TableErr, is_answer_due, is_blocked_by, stays_compatible, stays_sound,
    united_shares_stay_compatible, unlocks_grow_only_by_a_cut,
};

fn is_real_range(owner: Owner, what: What) -> bool
    ensures { result ≡ is_real_by owner what }
{
    match what {
        What::Range(Extent::Bytes(first, last), _) => first <= last
            && (is_posix(owner) || !(first == 0 && last == u64::MAX)),
        What::Range(Extent::Empty(_), _) => !is_posix(owner),
        _ => true,
    }
}

fn is_a_range(what: What) -> bool
    ensures { result ≡ is_range what }
{
    matches!(what, What::Range(_, _))
}

fn stands_beside(claim: &Claim, held: &Claim) -> bool
    ensures { result ≡ is_beside claim.now held.now }
{
    !(is_a_range(held.what) && held.file == claim.file && same_owner(held.owner, claim.owner))
        || !is_posix(claim.owner)
}

fn all_beside(claim: &Claim, held: &[Claim]) -> bool
    ensures { result ≡ list_all (λ c. is_beside claim.now c) held.now }
{
    held.iter().all(|c| stands_beside(claim, c))
}

fn is_simple_claim(claim: &Claim, held: &[Claim]) -> bool
    ensures { result ≡ is_simple claim.now held.now }
{
    is_real_range(claim.owner, claim.what) && all_beside(claim, held)
}

/// Enters a real claim that is no second range of an NLM or NFSv4 owner on a file.
#[tactic(auto, using(crate::proofs::TrialLaws::sound_simple))]
fn enters(alloc: Global, table: &mut Table, claim: Claim) -> bool {
    let _ = table.len();
    match table.claims(alloc) {
        Ok(held) => is_simple_claim(&claim, &held) && table.insert(claim).is_ok(),
        Err(_) => false,
    }
}

/// Gives a held claim a share or a cache to claim.
#[tactic(auto, using(crate::proofs::TrialLaws::sound_change))]
fn changes(table: &mut Table, claim: &Claim, to: What) -> bool {
    if is_a_range(to) || !table.contains(claim) {
        return false;
    }
    let _ = table.len();
    table.change(claim, to);
    true
}

/// Claims as they are entered.
const ENTERED: &str = "\
lease cache RH -
lease lock 50 59
lease share r -
moved lock 0 0
client share r -
client read 10 24
lease lock 40 44
caller read 20 29";

/// The same claims as they are.
const HELD: &str = "\
client share r -
lease share r -
caller read 20 29
client read 10 24
lease lock 50 59
lease lock 40 44
lease cache RH -
moved lock 0 0";

/// Those that are left when the cache is broken and the NLM range is gone.
const LEFT: &str = "\
client share r -
lease share r -
client read 10 24
lease lock 50 59
lease lock 40 44
lease break RH 7
moved lock 0 0";

fn is_claim(claim: &Claim, row: &str) -> bool {
    same_claim(claim, &claim_in(row))
}

fn are(claims: &[Claim], rows: &str) -> bool {
    for (claim, row) in claims.iter().zip(rows.lines()) {
        if !is_claim(claim, row) {
            return false;
        }
    }
    claims.len() == rows.lines().count()
}

fn are_listed(claims: Result<Vec<Claim>, AllocError>, rows: &str) -> bool {
    match claims {
        Ok(claims) => are(&claims, rows),
        Err(_) => false,
    }
}

fn fills(alloc: Global, table: &mut Table) -> bool {
    for row in ENTERED.lines() {
        if !enters(alloc, table, claim_in(row)) {
            return false;
        }
    }
    true
}

/// The blockers by the walk whose looks are counted.
fn counted_blockers<L: Ledger>(
    alloc: Global,
    table: &Table,
    ask: &Claim,
    blank: Blank,
) -> Result<Vec<Claim>, AllocError>
    requires name { blank.name ≡ L.name }
    requires parts { blank.parts ≡ L.parts }
    requires some { 0 < blank.parts }
{
    let mut steps = Steps::<L>::new(blank);
    table.blockers_in(alloc, ask, &mut steps)
}

fn blockers_by_looks(alloc: Global, table: &Table, ask: &Claim) -> Result<Vec<Claim>, AllocError> {
    counted_blockers::<Brand>(alloc, table, ask, Blank::new(1))
}

/// The same by a look at each claim.
fn blockers_of_all(alloc: Global, table: &Table, ask: &Claim) -> Result<Vec<Claim>, AllocError> {
    let mut claims = table.claims(alloc)?;
    claims.retain(|held| is_blocked_by(ask, held));
    Ok(claims)
}

fn is_blocked(alloc: Global, table: &Table, ask: &str, blockers: &str) -> bool {
    are_listed(table.blockers(alloc, &claim_in(ask)), blockers)
        && are_listed(blockers_by_looks(alloc, table, &claim_in(ask)), blockers)
        && are_listed(blockers_of_all(alloc, table, &claim_in(ask)), blockers)
}

fn is_holder(table: &Table, file: u32, byte: u64, row: &str) -> bool {
    match table.holder_of(file, byte) {
        Some(claim) => is_claim(&claim, row),
        None => row.is_empty(),
    }
}

/// The caches whose answer is due by the walk whose looks are counted.
fn counted_due<L: Ledger>(
    alloc: Global,
    table: &Table,
    now: Moment,
    blank: Blank,
) -> Result<Vec<Claim>, AllocError>
    requires name { blank.name ≡ L.name }
    requires parts { blank.parts ≡ L.parts }
    requires some { 0 < blank.parts }
{
    let mut steps = Steps::<L>::new(blank);
    table.due_in(alloc, now, &mut steps)
}

fn due_by_looks(alloc: Global, table: &Table, now: Moment) -> Result<Vec<Claim>, AllocError> {
    counted_due::<Brand>(alloc, table, now, Blank::new(1))
}

/// The same by a look at each claim.
fn due_of_all(alloc: Global, table: &Table, now: Moment) -> Result<Vec<Claim>, AllocError> {
    let mut claims = table.claims(alloc)?;
    claims.retain(|claim| is_answer_due(now, claim));
    Ok(claims)
}

fn is_due(alloc: Global, table: &Table, now: u64, rows: &str) -> bool {
    are_listed(table.due(alloc, Moment(now)), rows)
        && are_listed(due_by_looks(alloc, table, Moment(now)), rows)
        && are_listed(due_of_all(alloc, table, Moment(now)), rows)
}

fn are_held(alloc: Global, table: &Table, rows: &str) -> bool {
    are_listed(table.claims(alloc), rows)
}

fn is_left(alloc: Global, table: &mut Table, row: &str, rows: &str) -> bool {
    table.remove(&claim_in(row));
    are_held(alloc, table, rows)
}

fn is_on(alloc: Global, table: &Table, file: u32, rows: &str) -> bool {
    are_listed(table.of_file(alloc, file), rows)
}

fn are_of_client(alloc: Global, table: &Table, rows: &str) -> bool {
    are_listed(table.of_party(alloc, Party::Name(Protocol::Nfs, 3)), rows)
}

fn has_share(table: &Table, file: u32, number: u32, row: &str) -> bool {
    match table.share_of(file, Owner::Name(Protocol::Nfs, number)) {
        Some(claim) => is_claim(&claim, row),
        None => row.is_empty(),
    }
}

fn has_cache_of(table: &Table, file: u32, number: u32, row: &str) -> bool {
    match table.cache_of(file, Party::Name(Protocol::Smb, number)) {
        Some(claim) => is_claim(&claim, row),
        None => row.is_empty(),
    }
}

fn are_sections(alloc: Global, table: &Table) -> bool {
    are_listed(
        table.shares_on(alloc, 1),
        "client share r -\nlease share r -",
    ) && are_listed(table.caches_on(alloc, 1), "lease cache RH -")
        && are_listed(table.shares_on(alloc, 2), "")
        && has_share(table, 1, 2, "client share r -")
        && has_share(table, 1, 1, "")
        && has_share(table, 2, 2, "")
        && has_cache_of(table, 1, 5, "lease cache RH -")
        && has_cache_of(table, 1, 4, "")
        && has_cache_of(table, 2, 5, "")
}

/// Whether these are the caller's read lock alone.
fn is_the_span(spans: &[Span]) -> bool {
    match spans {
        [span] => span.first == 20 && span.last == 29 && matches!(span.mode, Mode::Shared),
        _ => false,
    }
}

/// Whether the caller's spans on the file, and those bytes of them, are as its read lock has them.
fn are_spans(alloc: Global, table: &Table) -> bool {
    let caller = Owner::Name(Protocol::Nlm, 6);
    matches!(table.spans_of(alloc, 1, caller), Ok(spans) if is_the_span(&spans))
        && table.holds_byte(1, caller, 29, 40)
        && !table.holds_byte(1, caller, 30, 40)
        && !table.holds_byte(3, caller, 20, 29)
}

fn are_in_order(alloc: Global, table: &Table) -> bool {
    are_held(alloc, table, HELD)
        && table.len() == 8
        && is_on(alloc, table, 2, "moved lock 0 0")
        && are_of_client(alloc, table, "client share r -\nclient read 10 24")
        && is_holder(table, 1, 24, "client read 10 24")
        && is_holder(table, 1, 29, "caller read 20 29")
        && is_holder(table, 1, 30, "")
        && is_holder(table, 2, 20, "")
        && table.contains(&claim_in("moved lock 0 0"))
        && !table.contains(&claim_in("moved lock 0 1"))
}

fn block_asks(alloc: Global, table: &Table) -> bool {
    is_blocked(
        alloc,
        table,
        "caller lock 24 45",
        "client read 10 24\nlease lock 40 44\nlease cache RH -",
    ) && is_blocked(alloc, table, "lease lock 40 41", "lease lock 40 44")
        && is_blocked(alloc, table, "lease read 40 41", "")
        && is_blocked(
            alloc,
            table,
            "caller read 20 45",
            "lease lock 40 44\nlease cache RH -",
        )
        && is_blocked(alloc, table, "caller share rw -", "")
        && is_blocked(
            alloc,
            table,
            "caller share w r",
            "client share r -\nlease share r -",
        )
        && table.is_blocked(&claim_in("lease lock 40 41"))
        && !table.is_blocked(&claim_in("lease read 40 41"))
}

/// Whether what goes with this one is on file 1 alone.
fn is_on_one_file(table: &Table, leaver: Leaver) -> bool {
    matches!(table.next_left(leaver, None), Some(1)) && table.next_left(leaver, Some(1)).is_none()
}

fn stand_in_order_and_block_asks(alloc: Global, table: &mut Table) -> bool {
    table.is_empty()
        && fills(alloc, table)
        && are_in_order(alloc, table)
        && is_on_one_file(table, Leaver::Open(4, None))
        && block_asks(alloc, table)
        && are_sections(alloc, table)
        && are_spans(alloc, table)
}

fn breaks(table: &mut Table, row: &str, to: &str) -> bool {
    changes(table, &claim_in(row), claim_in(to).what)
}

fn change_and_go(alloc: Global, table: &mut Table) -> bool {
    breaks(table, "lease cache RH -", "lease break RH 7")
        && is_due(alloc, table, 7, "lease break RH 7")
        && is_due(alloc, table, 6, "")
        && is_left(alloc, table, "caller read 20 29", LEFT)
        && is_left(alloc, table, "caller read 20 29", LEFT)
        && party_goes(alloc, table)
}

/// Two breaks run; the one whose answer is due first goes, and the other is due at its own moment.
fn breaks_end(alloc: Global, table: &mut Table) -> bool {
    enters(alloc, table, claim_in("caller break RH 9"))
        && enters(alloc, table, claim_in("lease break RH 7"))
        && is_due(alloc, table, 6, "")
        && is_due(alloc, table, 8, "lease break RH 7")
        && is_left(alloc, table, "lease break RH 7", "caller break RH 9")
        && is_due(alloc, table, 8, "")
        && is_due(alloc, table, 9, "caller break RH 9")
        && breaks(table, "caller break RH 9", "caller cache RH -")
        && is_due(alloc, table, 9, "")
}

/// The lease's party goes, and the others' claims stay.
fn party_goes(alloc: Global, table: &mut Table) -> bool {
    let lease = Leaver::Party(Party::Name(Protocol::Smb, 5));
    table.remove_leaver(lease);
    table.next_left(lease, None).is_none()
        && are_held(
            alloc,
            table,
            "client share r -\nclient read 10 24\nmoved lock 0 0",
        )
        && is_due(alloc, table, 7, "")
}

#[test]
fn claims_stand_change_and_go(rt: HostRuntime) {
    let mut table = Table::new(rt.alloc());
    assert!(rt; stand_in_order_and_block_asks(rt.alloc(), &mut table));
    assert!(rt; change_and_go(rt.alloc(), &mut table));
    assert!(rt; breaks_end(rt.alloc(), &mut Table::new(rt.alloc())));
}

// ---- grants of shares

/// Grants a share of a client's owner on file 1.
#[tactic(auto, using(crate::proofs::TrialLaws::share_of_any_party))]
fn shares(
    alloc: Global,
    table: &mut Table,
    protocol: Protocol,
    number: u32,
    access: Rwd,
    deny: Rwd,
) -> bool {
    if matches!(protocol, Protocol::Smb) {
        return false;
    }
    let claim = Claim {
        file: 1,
        owner: Owner::Name(protocol, number),
        party: Party::Name(protocol, number),
        what: What::Share(access, deny),
    };
    match table.granted(alloc, &claim) {
        Ok(change) => change.held <= CLAIMS && table.write(&change).is_ok(),
        Err(_) => false,
    }
}

const READ: Rwd = Rwd {
    r: true,
    w: false,
    d: false,
};

const WRITE: Rwd = Rwd {
    r: false,
    w: true,
    d: false,
};

fn has(claim: Option<Claim>, access: &[bool; 2], deny: &[bool; 2]) -> bool {
    match claim {
        Some(
            Claim {
                what: What::Share(rights, denied),
                ..
            },
        ) => {
            rights.r == access[0]
                && rights.w == access[1]
                && denied.r == deny[0]
                && denied.w == deny[1]
        }
        _ => false,
    }
}

fn grants_shares(alloc: Global, table: &mut Table) -> bool {
    shares(alloc, table, Protocol::Nfs, 1, READ, WRITE)
        && shares(alloc, table, Protocol::Nfs, 1, WRITE, READ)
        && shares(alloc, table, Protocol::Nlm, 1, READ, WRITE)
        && shares(alloc, table, Protocol::Nlm, 1, WRITE, READ)
}

/// Whether a second share is united with the first of an NFSv4 open owner (RFC 7530 9.9), and takes the place of an NLM
/// owner's.
fn are_united(alloc: Global, table: &mut Table) -> bool {
    grants_shares(alloc, table)
        && table.len() == 2
        && has(
            table.share_of(1, Owner::Name(Protocol::Nfs, 1)),
            &[true, true],
            &[true, true],
        )
        && has(
            table.share_of(1, Owner::Name(Protocol::Nlm, 1)),
            &[false, true],
            &[true, false],
        )
}

// ---- the limit

/// Enters a share of an NLM owner on file 1.
#[tactic(auto, using(xl_table::proofs::InsertLaws::sound_inserted_other))]
fn share_enters(table: &mut Table, number: u32) -> Result<(), TableErr> {
    let _ = table.len();
    table.insert(Claim {
        file: 1,
        owner: Owner::Name(Protocol::Nlm, number),
        party: Party::Name(Protocol::Nlm, number),
        what: What::Share(READ, WRITE),
    })
}

fn fills_up(table: &mut Table) -> bool {
    for number in 0..16_384u32 {
        if share_enters(table, number).is_err() {
            return false;
        }
    }
    matches!(share_enters(table, 20_000), Err(TableErr::Full(16_384)))
}

fn has_room_again(table: &mut Table) -> bool {
    table.remove_leaver(Leaver::Party(Party::Name(Protocol::Nlm, 7)));
    share_enters(table, 20_000).is_ok() && table.len() == 16_384
}

fn is_full_at_last(table: &mut Table) -> bool {
    fills_up(table) && has_room_again(table)
}

// ---- the least blocker

/// The owner of NLM ranges with this byte as its last.
fn owner_named(alloc: Global, last: u8) -> Result<Name, AllocError> {
    let caller = Sequence::from_slice(alloc, b"a")?;
    Ok(Name::NlmRange(caller, 7, Sequence::from_slice(alloc, &[1, last])?))
}

fn enters_name(alloc: Global, names: &mut Names, last: u8) -> bool {
    match owner_named(alloc, last) {
        Ok(name) => names.intern(&name).is_ok(),
        Err(_) => false,
    }
}

fn locks(alloc: Global, table: &mut Table, number: u32) -> bool {
    enters(
        alloc,
        table,
        Claim {
            file: 1,
            owner: Owner::Name(Protocol::Nlm, number),
            party: Party::Name(Protocol::Nlm, 9),
            what: What::Range(Extent::Bytes(0, 9), false),
        },
    )
}

fn is_least(found: Result<Option<Claim>, AllocError>, number: u32) -> bool {
    matches!(found, Ok(Some(claim)) if same_owner(claim.owner, Owner::Name(Protocol::Nlm, number)))
}

/// Whether the least text is found of two shared locks of the same bytes, whose owners' texts differ in their last byte
/// alone; the lesser text came later.
fn are_least(alloc: Global, table: &mut Table, names: &mut Names) -> bool {
    enters_name(alloc, names, 6)
        && enters_name(alloc, names, 5)
        && locks(alloc, table, 0)
        && locks(alloc, table, 1)
        && is_least(
            table.least_blocker(alloc, names, &claim_in("lease lock 9 9")),
            1,
        )
        && is_least(
            table.least_range(alloc, names, &claim_in("lease lock 9 9")),
            1,
        )
}

fn pairs() -> bool {
    is_answer_due(Moment(7), &claim_in("lease break RH 7"))
        && is_blocked_by(&claim_in("lease lock 40 41"), &claim_in("lease lock 40 44"))
}

#[test]
fn shares_limits_and_least_texts(rt: HostRuntime) {
    assert!(rt; are_united(rt.alloc(), &mut Table::new(rt.alloc())));
    assert!(rt; is_full_at_last(&mut Table::new(rt.alloc())));
    assert!(rt;
        are_least(
            rt.alloc(),
            &mut Table::new(rt.alloc()),
            &mut Names::new(rt.alloc())
        )
    );
}

#[test]
fn pairs_and_laws(rt: HostRuntime) {
    assert!(rt; pairs());
    stays_compatible();
    stays_sound();
    united_shares_stay_compatible();
    unlocks_grow_only_by_a_cut();
}
