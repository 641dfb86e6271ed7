//! The breaks that an ask begins.
ghost use Rattle.std.specs.Prelude.{◌≡◌, ◌+◌, ◌<◌, ◌^◌, List, length, map, IfOk};
ghost use Rattle.xl_base.specs.Limits.{numbers_left};
ghost use Rattle.xl_base.specs.Lists.{IsIn, sorted};
ghost use Rattle.xl_cache.specs.BreakPlans.{planned};
ghost use Rattle.xl_table.specs.Held.{IsSound};
ghost use Rattle.xl_core.specs.BreaksBegun.{with_break, told_before, is_recalled, recalls, call_of, last_of, begun_told, breaks_begun, left_then, plan_then};
ghost use Rattle.xl_core.specs.BreaksInOrder.{row_of, begun_of, row_before, begun_in, all_begun, AreHeldThen};
ghost use Rattle.xl_core.specs.Good.{IsGood};
ghost use Rattle.xl_core.specs.Whole.{state_of};

use crate::ask::Effect;
use crate::lease::moment_after;
use crate::parts::Parts;
use std::alloc::{AllocError, Global};
use xl_base::{Moment, Party, Protocol, Sequence};
use xl_cache::{BreakPlan, answer_needed, first_slow, is_break_running};
use xl_matrix::{Break, CacheKind, Claim, What};
use xl_names::{Names, party_text};
use xl_table::Table;

// ---- the effects

/// A break, with the text of the party by which it is put in order.
#[derive(Drop)]
pub(crate) struct Row {
    pub text: Sequence<u8>,
    pub cache: Claim,
    pub left: Option<CacheKind>,
}

fn row_of(
    alloc: Global,
    names: &Names,
    begun: &(Claim, Option<CacheKind>),
) -> Result<Row, AllocError>
    ensures { IfOk result (λ r. r ≡ row_of names.now begun.now) }
{
    let text = party_text(alloc, names, begun.0.party)?;
    Ok(Row {
        text: Sequence::from_vec(text.into_bytes()),
        cache: begun.0,
        left: begun.1,
    })
}

fn rows_of(
    alloc: Global,
    names: &Names,
    breaks: &[(Claim, Option<CacheKind>)],
) -> Result<Vec<Row>, AllocError>
    ensures { IfOk result (λ v. v.items ≡ map (row_of names.now) breaks.now) }
{
    let mut rows = Vec::new(alloc);
    for begun in breaks {
        rows.push(row_of(alloc, names, begun)?)?;
    }
    Ok(rows)
}

/// The rows in order.
fn in_order(rows: Vec<Row>) -> Result<Vec<Row>, AllocError>
    ensures { IfOk result (λ v. v.items ≡ sorted row_before rows.items) }
{
    let mut rows = rows;
    rows.sort_by(|a, b| a.text.as_slice().cmp(b.text.as_slice()))?;
    Ok(rows)
}

/// Whether the break of the party's cache has a call of the server's own.
fn is_recalled(party: Party) -> bool
    ensures { result ≡ is_recalled party }
{
    matches!(party, Party::Name(Protocol::Nfs, _))
}

/// The number of the break's call, if it has one, and if the last number that was given out is this one.
fn call_of(last: u32, row: &Row) -> Option<u32>
    requires { last + 1 < 2 ^ 32 }
    ensures { result ≡ call_of last (begun_of row.now) }
{
    if is_recalled(row.cache.party) {
        Some(last + 1)
    } else {
        None
    }
}

fn last_of(last: u32, call: Option<u32>) -> u32
    ensures { result ≡ last_of last call }
{
    match call {
        Some(number) => number,
        None => last,
    }
}

/// The effects of these breaks, if the last number that was given out is this one, and the last one then.
fn tell(alloc: Global, last: u32, rows: &[Row]) -> Result<(Sequence<Effect>, u32), AllocError>
    requires { last + length rows.now < 2 ^ 32 }
    ensures told { IfOk result (λ r. r.0 ≡ begun_told last (map begun_of rows.now)) }
    ensures last { IfOk result (λ r. r.1 ≡ last + recalls (map begun_of rows.now)) }
{
    let mut effects = Sequence::new(alloc);
    let mut number = last;
    for row in rows {
        let call = call_of(number, row);
        effects.push(Effect::Begun(row.cache, row.left, call))?;
        number = last_of(number, call);
    }
    Ok((effects, number))
}

/// The effects of these breaks, in their order, and the last number given out then.
fn tell_all(
    alloc: Global,
    names: &Names,
    last: u32,
    breaks: &[(Claim, Option<CacheKind>)],
) -> Result<(Sequence<Effect>, u32), AllocError>
    requires { last + length breaks.now < 2 ^ 32 }
    ensures told { IfOk result (λ r. r.0 ≡ begun_told last (sorted (told_before names.now) breaks.now)) }
    ensures last { IfOk result (λ r. r.1 ≡ last + recalls breaks.now) }
{
    let rows = in_order(rows_of(alloc, names, breaks)?)?;
    let told = tell(alloc, last, &rows)?;
    Ok(told)
}

// ---- what is held

/// Begins the break of a cache that is held.
#[tactic(auto, unfolding(crate::specs::BreaksInOrder::begun_in))]
fn begin(table: &mut Table, begun: &(Claim, Option<CacheKind>), deadline: Moment)
    requires held { IsIn begun.now.0 table.old }
    requires sound { IsSound table.old }
    ensures { table.new ≡ begun_in deadline begun.now table.old }
{
    let (cache, left) = *begun;
    match cache.what {
        What::Cache(kind, _) if answer_needed(kind, left) => {
            let running = Break {
                target: left,
                deadline,
            };
            table.change(&cache, What::Cache(kind, Some(running)));
        }
        _ => table.remove(&cache),
    }
}

/// Begins the breaks of caches that are held.
fn begin_all(table: &mut Table, breaks: &[(Claim, Option<CacheKind>)], deadline: Moment)
    requires held { AreHeldThen deadline breaks.now table.old }
    requires sound { IsSound table.old }
    ensures { table.new ≡ all_begun deadline breaks.now table.old }
{
    for begun in breaks {
        begin(table, begun, deadline);
    }
}

/// Begins the breaks that an ask begins, and gives their effects. At least 65,536 numbers must be left to give out.
#[tactic(auto, unfolding(crate::specs::BreaksBegun::breaks_begun))]
pub(crate) fn begin_breaks(
    alloc: Global,
    parts: &mut Parts,
    ask: &Claim,
    plan: &BreakPlan,
) -> Result<Sequence<Effect>, AllocError>
    requires plan { plan.now ≡ planned ask.now parts.old.table }
    requires good { IsGood (state_of parts.old) }
    requires numbers { parts.old.counter + numbers_left < 2 ^ 32 }
    ensures state { IfOk result (λ effects. breaks_begun ask.now (state_of parts.old) ≡ (effects, state_of parts.new)) }
    ensures queue { parts.new.queue ≡ parts.old.queue }
    ensures names { parts.new.names ≡ parts.old.names }
    ensures stable { parts.new.stable ≡ parts.old.stable }
    ensures given { parts.new.given ≡ parts.old.given }
    ensures failed { parts.new.failed ≡ parts.old.failed }
{
    let breaks = plan.breaks.as_slice();
    let (effects, last) = tell_all(alloc, &parts.names, parts.counter, breaks)?;
    let deadline = moment_after(parts.clock, parts.times.break_time);
    begin_all(&mut parts.table, breaks, deadline);
    parts.counter = last;
    Ok(effects)
}

// ---- the plan then

/// The cache while a break of it runs.
fn with_break(cache: &Claim, to: Option<CacheKind>, deadline: Moment) -> Claim
    ensures { result ≡ with_break cache.now cache.now.what to deadline }
{
    match cache.what {
        What::Cache(kind, _) => Claim {
            file: cache.file,
            owner: cache.owner,
            party: cache.party,
            what: What::Cache(
                kind,
                Some(Break {
                    target: to,
                    deadline,
                }),
            ),
        },
        _ => *cache,
    }
}

/// The first cache of the plan that is held once its breaks have begun, as it is held then.
fn left_then(plan: &BreakPlan, deadline: Moment) -> Option<Claim>
    ensures { result ≡ left_then deadline plan.now }
{
    let Some(cache) = plan.left else {
        return None;
    };
    if is_break_running(cache.what) {
        return Some(cache);
    }
    match first_slow(plan) {
        Some((cache, to)) => Some(with_break(&cache, to, deadline)),
        None => None,
    }
}

/// What is left of the plan once its breaks have begun.
pub(crate) fn plan_then(alloc: Global, plan: &BreakPlan, deadline: Moment) -> BreakPlan
    ensures { result ≡ plan_then deadline plan.now }
{
    let left = left_then(plan, deadline);
    BreakPlan {
        breaks: Sequence::new(alloc),
        awaited: left,
        left,
    }
}
