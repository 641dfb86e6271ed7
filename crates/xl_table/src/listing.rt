//! The claims that pass a test, in their order.
ghost use Rattle.std.specs.Prelude.{◌≡◌, ◌==◌, ◌+◌, ◌<◌, ◌≤◌, ◌++◌, not, nat_lt, length, IfOk, OnOk};
ghost use Rattle.std.specs.List.{filter, list_any};
ghost use Rattle.xl_matrix.specs.Equal.{same_parties};
ghost use Rattle.xl_table.specs.Files.{joined, IsFiled};
ghost use Rattle.xl_table.specs.Pages.{paged, AreFull};
ghost use Rattle.xl_table.specs.Flat.{blocks, is_blocked, may_obstruct, is_due};
ghost use Rattle.xl_table.specs.Held.{most_claims};
ghost use Rattle.xl_table.specs.Leaving.{goes};
ghost use Rattle.xl_table.specs.Clear.{lies_apart, is_clear};

use crate::block::is_answer_due;
use crate::files::{OnFile, on_file};
use crate::leaver::{Leaver, goes};
use crate::page::Page;
use std::alloc::{AllocError, Global};
use std::marker::Brand;
use std::sync::ledger::{Blank, Ledger};
use xl_base::{Moment, Party};
use xl_matrix::{Claim, Extent, What, is_a_cache, is_blocked_by, same_party};
use xl_steps::Steps;

/// Whether a range with bytes is claimed that has none of these.
fn lies_apart(first: u64, last: u64, what: What) -> bool
    ensures { result ≡ lies_apart first last what }
{
    match what {
        What::Range(Extent::Bytes(start, end), _) => end < first || last < start,
        _ => false,
    }
}

/// Whether a range with bytes is asked, and the held one has none of them: then nothing else need be looked at.
fn is_clear(asked: What, held: What) -> bool
    ensures { result ≡ is_clear asked held }
{
    match asked {
        What::Range(Extent::Bytes(first, last), _) => lies_apart(first, last, held),
        _ => false,
    }
}

/// Whether the held claim blocks the ask.
#[tactic(auto, using(crate::proofs::ClearLaws::clear_is_false))]
pub(crate) fn blocks(ask: &Claim, held: &Claim) -> bool
    ensures { result ≡ blocks ask.now held.now }
{
    if is_clear(ask.what, held.what) {
        return false;
    }
    is_blocked_by(ask, held)
}

/// Whether the held claim blocks the ask: one step.
fn look<L: Ledger>(ask: &Claim, held: &Claim, steps: &mut Steps<L>) -> bool
    ensures test { result ≡ blocks ask.now held.now }
    ensures step { steps.new ≡ steps.old + 1 }
{
    steps.tick();
    blocks(ask, held)
}

/// Adds those of these claims that block the ask.
pub(crate) fn push_blockers<L: Ledger>(
    found: &mut Vec<Claim>,
    claims: &[Claim],
    ask: &Claim,
    steps: &mut Steps<L>,
) -> Result<(), AllocError>
    ensures found { OnOk result (found.new.items ≡ found.old.items ++ filter (λ held. blocks ask.now held) claims.now) }
    ensures more { steps.old ≤ steps.new }
    ensures few { steps.new ≤ steps.old + length claims.now }
{
    for held in claims {
        if look(ask, held, steps) {
            found.push(*held)?;
        }
    }
    Ok(())
}

/// Adds those of the claims in these pages that block the ask.
#[tactic(auto, using(crate::proofs::FileLaws::filtered_both, crate::proofs::CountLaws::looked_more))]
fn push_blockers_in<L: Ledger>(
    found: &mut Vec<Claim>,
    pages: &[Page],
    ask: &Claim,
    steps: &mut Steps<L>,
) -> Result<(), AllocError>
    ensures found { OnOk result (found.new.items ≡ found.old.items ++ filter (λ held. blocks ask.now held) (paged pages.now)) }
    ensures more { steps.old ≤ steps.new }
    ensures few { steps.new ≤ steps.old + length (paged pages.now) }
{
    if let [page, rest @ ..] = pages {
        page.push_blockers(found, ask, steps)?;
        push_blockers_in(found, rest, ask, steps)?;
    }
    Ok(())
}

/// Those that block the ask. A step is a look at a claim on its file.
pub(crate) fn list_blockers_in<L: Ledger>(
    alloc: Global,
    lists: &[OnFile],
    ask: &Claim,
    steps: &mut Steps<L>,
) -> Result<Vec<Claim>, AllocError>
    requires { IsFiled lists.now }
    ensures found { IfOk result (λ v. v.items ≡ filter (λ held. blocks ask.now held) (joined lists.now)) }
    ensures more { steps.old ≤ steps.new }
    ensures few { steps.new ≤ steps.old + length (filter (λ held. held.file == ask.now.file) (joined lists.now)) }
{
    let mut found = Vec::new(alloc);
    push_blockers_in(&mut found, on_file(lists, ask.file), ask, steps)?;
    Ok(found)
}

/// The same with steps of a ledger's own, which nobody looks at.
fn list_blockers_by<L: Ledger>(
    alloc: Global,
    lists: &[OnFile],
    ask: &Claim,
    blank: Blank,
) -> Result<Vec<Claim>, AllocError>
    requires filed { IsFiled lists.now }
    requires name { blank.name ≡ L.name }
    requires parts { blank.parts ≡ L.parts }
    requires some { 0 < blank.parts }
    ensures { IfOk result (λ v. v.items ≡ filter (λ held. blocks ask.now held) (joined lists.now)) }
{
    let mut steps = Steps::<L>::new(blank);
    let found = list_blockers_in(alloc, lists, ask, &mut steps)?;
    Ok(found)
}

/// Those that block the ask.
pub(crate) fn list_blockers(
    alloc: Global,
    lists: &[OnFile],
    ask: &Claim,
) -> Result<Vec<Claim>, AllocError>
    requires { IsFiled lists.now }
    ensures { IfOk result (λ v. v.items ≡ filter (λ held. blocks ask.now held) (joined lists.now)) }
{
    list_blockers_by::<Brand>(alloc, lists, ask, Blank::new(1))
}

/// Whether the held claim blocks the ask, or is a cache on its file.
fn may_obstruct(ask: &Claim, held: &Claim) -> bool
    ensures { result ≡ may_obstruct ask.now held.now }
{
    blocks(ask, held) || (held.file == ask.file && is_a_cache(held.what))
}

/// Adds those of these claims that block the ask, and the caches on its file.
pub(crate) fn push_obstacles(
    found: &mut Vec<Claim>,
    claims: &[Claim],
    ask: &Claim,
) -> Result<(), AllocError>
    ensures { OnOk result (found.new.items ≡ found.old.items ++ filter (may_obstruct ask.now) claims.now) }
{
    for held in claims {
        if may_obstruct(ask, held) {
            found.push(*held)?;
        }
    }
    Ok(())
}

/// Adds those of the claims in these pages.
#[tactic(auto, using(crate::proofs::FileLaws::filtered_both))]
fn push_obstacles_in(found: &mut Vec<Claim>, pages: &[Page], ask: &Claim) -> Result<(), AllocError>
    ensures { OnOk result (found.new.items ≡ found.old.items ++ filter (may_obstruct ask.now) (paged pages.now)) }
{
    if let [page, rest @ ..] = pages {
        page.push_obstacles(found, ask)?;
        push_obstacles_in(found, rest, ask)?;
    }
    Ok(())
}

/// Those that block the ask, and the caches on its file.
pub(crate) fn list_obstacles(
    alloc: Global,
    lists: &[OnFile],
    ask: &Claim,
) -> Result<Vec<Claim>, AllocError>
    requires { IsFiled lists.now }
    ensures { IfOk result (λ v. v.items ≡ filter (may_obstruct ask.now) (joined lists.now)) }
{
    let mut found = Vec::new(alloc);
    push_obstacles_in(&mut found, on_file(lists, ask.file), ask)?;
    Ok(found)
}

pub(crate) fn any_blocks(claims: &[Claim], ask: &Claim) -> bool
    ensures { result ≡ is_blocked claims.now ask.now }
{
    claims.iter().any(|held| blocks(ask, held))
}

/// Whether one of the claims in these pages blocks the ask.
#[tactic(auto, using(crate::proofs::PageLaws::any_more))]
fn any_blocks_in(pages: &[Page], ask: &Claim) -> bool
    ensures { result ≡ is_blocked (paged pages.now) ask.now }
{
    for page in pages {
        if page.blocks(ask) {
            return true;
        }
    }
    false
}

/// Whether something held blocks the ask.
#[tactic(auto, using(crate::proofs::SectionLaws::blocked_on_file))]
pub(crate) fn is_blocked(lists: &[OnFile], ask: &Claim) -> bool
    requires { IsFiled lists.now }
    ensures { result ≡ is_blocked (joined lists.now) ask.now }
{
    any_blocks_in(on_file(lists, ask.file), ask)
}

/// Adds the claims in these pages.
#[tactic(auto, using(crate::proofs::PageLaws::joined_more))]
fn push_all(all: &mut Vec<Claim>, pages: &[Page]) -> Result<(), AllocError>
    ensures { OnOk result (all.new.items ≡ all.old.items ++ paged pages.now) }
{
    for page in pages {
        all.extend_from_slice(page.as_slice())?;
    }
    Ok(())
}

/// All claims.
#[tactic(auto, using(crate::proofs::PageLaws::joined_more))]
pub(crate) fn list_all(
    alloc: Global,
    lists: &[OnFile],
    count: usize,
) -> Result<Vec<Claim>, AllocError>
    ensures { IfOk result (λ v. v.items ≡ joined lists.now) }
{
    let mut all = Vec::with_capacity(alloc, count)?;
    for list in lists {
        push_all(&mut all, &list.pages)?;
    }
    Ok(all)
}

/// The claims on the file.
pub(crate) fn list_file(
    alloc: Global,
    lists: &[OnFile],
    file: u32,
) -> Result<Vec<Claim>, AllocError>
    requires { IsFiled lists.now }
    ensures { IfOk result (λ v. v.items ≡ filter (λ held. held.file == file) (joined lists.now)) }
{
    let mut all = Vec::new(alloc);
    push_all(&mut all, on_file(lists, file))?;
    Ok(all)
}

/// Takes the claims that go out of a page's.
pub(crate) fn drop_from(claims: &mut Vec<Claim>, leaver: Leaver)
    ensures { claims.new.items ≡ filter (λ held. not (goes leaver held)) claims.old.items }
{
    claims.retain(|held| !goes(leaver, held));
}

/// Takes the claims that go out of each page. A page may be without claims then.
#[tactic(auto, using(crate::proofs::PageLaws::thin_more, crate::proofs::PageLaws::thin_done))]
fn thin_pages(pages: &mut Vec<Page>, leaver: Leaver)
    ensures { paged pages.new.items ≡ filter (λ held. not (goes leaver held)) (paged pages.old.items) }
{
    let mut at = 0;
    'pages: while at < pages.len() {
        pages[at].drop_leaver(leaver);
        at += 1;
    }
}

/// Takes the pages out that are without claims.
fn drop_empty(pages: &mut Vec<Page>)
    ensures { pages.new.items ≡ filter (λ p. nat_lt 0 (length p)) pages.old.items }
{
    pages.retain(|page| page.len() > 0);
}

/// Takes the claims that go out of a file's pages.
#[tactic(auto, using(crate::proofs::PageLaws::full_left, crate::proofs::PageLaws::same_left))]
pub(crate) fn drop_in(pages: &mut Vec<Page>, leaver: Leaver)
    ensures claims { paged pages.new.items ≡ filter (λ held. not (goes leaver held)) (paged pages.old.items) }
    ensures full { AreFull pages.new.items }
{
    thin_pages(pages, leaver);
    drop_empty(pages);
}

fn party_among(alloc: Global, claims: &[Claim], party: Party) -> Result<Vec<Claim>, AllocError>
    ensures { IfOk result (λ v. v.items ≡ filter (λ held. same_parties held.party party) claims.now) }
{
    claims
        .iter()
        .filter(|held| same_party(held.party, party))
        .copied()
        .collect(alloc)
}

/// Adds those of the party among these.
fn push_party(
    alloc: Global,
    found: &mut Vec<Claim>,
    claims: &[Claim],
    party: Party,
) -> Result<(), AllocError>
    ensures { OnOk result (found.new.items ≡ found.old.items ++ filter (λ held. same_parties held.party party) claims.now) }
{
    let part = party_among(alloc, claims, party)?;
    found.extend_from_slice(&part)?;
    Ok(())
}

/// Adds those of the party in these pages.
#[tactic(auto, using(crate::proofs::FileLaws::filtered_more))]
pub(crate) fn push_party_in(
    alloc: Global,
    found: &mut Vec<Claim>,
    pages: &[Page],
    party: Party,
) -> Result<(), AllocError>
    ensures { OnOk result (found.new.items ≡ found.old.items ++ filter (λ held. same_parties held.party party) (paged pages.now)) }
{
    for page in pages {
        push_party(alloc, found, page.as_slice(), party)?;
    }
    Ok(())
}

fn due_among(alloc: Global, claims: &[Claim], now: Moment) -> Result<Vec<Claim>, AllocError>
    ensures { IfOk result (λ v. v.items ≡ filter (λ held. is_due now held) claims.now) }
{
    claims
        .iter()
        .filter(|held| is_answer_due(now, held))
        .copied()
        .collect(alloc)
}

/// Adds the caches among these whose answer is due.
pub(crate) fn push_due(
    alloc: Global,
    due: &mut Vec<Claim>,
    claims: &[Claim],
    now: Moment,
) -> Result<(), AllocError>
    ensures { OnOk result (due.new.items ≡ due.old.items ++ filter (λ held. is_due now held) claims.now) }
{
    let part = due_among(alloc, claims, now)?;
    due.extend_from_slice(&part)?;
    Ok(())
}

/// Adds the caches in these pages whose answer is due.
#[tactic(auto, using(crate::proofs::FileLaws::filtered_more))]
fn push_due_in(
    alloc: Global,
    due: &mut Vec<Claim>,
    pages: &[Page],
    now: Moment,
) -> Result<(), AllocError>
    ensures { OnOk result (due.new.items ≡ due.old.items ++ filter (λ held. is_due now held) (paged pages.now)) }
{
    for page in pages {
        page.push_due(alloc, due, now)?;
    }
    Ok(())
}

/// The caches whose answer is due.
#[tactic(auto, using(crate::proofs::FileLaws::filtered_more))]
pub(crate) fn list_due(
    alloc: Global,
    lists: &[OnFile],
    now: Moment,
) -> Result<Vec<Claim>, AllocError>
    ensures { IfOk result (λ v. v.items ≡ filter (λ held. is_due now held) (joined lists.now)) }
{
    let mut due = Vec::new(alloc);
    for list in lists {
        push_due_in(alloc, &mut due, &list.pages, now)?;
    }
    Ok(due)
}
