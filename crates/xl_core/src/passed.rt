//! How far the queue of a file was gone through, so that a turn is looked for behind those whom the turn before left held up.
ghost use Rattle.std.specs.Prelude.{◌≡◌, ◌==◌, ◌&&◌, ◌+◌, ◌<◌, ◌^◌, if◌then◌else◌, [], true, take, IfOk};
ghost use Rattle.std.specs.List.{AllByRecursion, list_all};
ghost use Rattle.xl_wait.specs.Waiting.{waiting_on};
ghost use Rattle.xl_core.specs.Good.{IsGood};
ghost use Rattle.xl_core.specs.Settle.{is_up};
ghost use Rattle.xl_core.specs.Passed.{is_shut_out, is_element, replaces_none, replace_none, known_on, is_seen_free, passed_then, ArePassed, FreesNobody};
ghost use Rattle.xl_core.specs.Whole.{state_of};

use crate::ask::Effect;
use crate::parts::Parts;
use crate::settling::Called;
use std::alloc::{AllocError, Global};
use xl_matrix::{Claim, Extent, What, is_posix};
use xl_wait::Waiter;

/// The first so many of those who wait on the file are shut out by what is held, so they are held up while it has no cache.
#[derive(Clone, Copy)]
pub(crate) struct Passed {
    /// The file.
    pub file: u32,
    /// How many of those who wait there.
    pub count: usize,
}

/// Of nobody it is known.
pub(crate) const NOBODY: Passed = Passed { file: 0, count: 0 };

/// Whether something held blocks the first claim that the waiter asks for, and it waits for that.
pub(crate) fn is_shut_out(parts: &Parts, waiter: &Waiter) -> bool
    ensures { result ≡ is_shut_out (state_of parts.now) waiter.now }
{
    match waiter.asked.as_slice() {
        [claim, ..] => waiter.blocking && parts.table.is_blocked(claim),
        [] => false,
    }
}

/// How many are shut out in front, once the waiter behind so many others is looked at.
pub(crate) fn shut_then(parts: &Parts, waiter: &Waiter, shut: usize, count: usize) -> usize
    requires { count < 2 ^ 63 }
    ensures { result ≡ (if (shut == count) && is_shut_out (state_of parts.now) waiter.now then shut + 1 else shut) }
{
    if shut == count && is_shut_out(parts, waiter) {
        shut + 1
    } else {
        shut
    }
}

/// How many of those who wait on this file are known to be held up, as they are shut out.
#[tactic(auto, using(crate::proofs::PassedLaws::none_shut, crate::proofs::PassedLaws::none_up))]
pub(crate) fn known_on(parts: &Parts, file: u32, passed: Passed) -> usize
    requires { ArePassed passed (state_of parts.now) }
    ensures exact { result ≡ known_on passed file parts.now.table }
    ensures shut { AllByRecursion (λ w. is_shut_out (state_of parts.now) w ≡ true) (take result (waiting_on file parts.now.queue)) }
    ensures up { AllByRecursion (λ w. is_up (state_of parts.now) w ≡ true) (take result (waiting_on file parts.now.queue)) }
{
    if passed.file != file {
        return 0;
    }
    if parts.table.has_cache(file) {
        return 0;
    }
    passed.count
}

/// Whether the claim is one of an SMB open's ranges, which are held one by one.
fn is_element(claim: &Claim) -> bool
    ensures { result ≡ is_element claim.now }
{
    matches!(claim.what, What::Range(_, _)) && !is_posix(claim.owner)
}

fn are_elements(asked: &[Claim]) -> bool
    ensures { result ≡ list_all is_element asked.now }
{
    asked.iter().all(is_element)
}

/// Whether nothing is held in whose place the claim comes, so that all that is held stays beside it.
fn replaces_none(alloc: Global, parts: &Parts, claim: &Claim) -> Result<bool, AllocError>
    ensures { IfOk result (λ b. b ≡ replaces_none claim.now parts.now.table) }
{
    match claim.what {
        What::Share(_, _) => Ok(parts.table.share_of(claim.file, claim.owner).is_none()),
        What::Range(Extent::Bytes(_, _), _) => {
            if !is_posix(claim.owner) {
                return Ok(true);
            }
            let spans = parts.table.spans_of(alloc, claim.file, claim.owner)?;
            Ok(spans.len() == 0)
        }
        What::Range(Extent::Empty(_), _) => Ok(true),
        What::Cache(_, _) => Ok(true),
    }
}

/// Whether so it is with all of these, of which several are ranges of an SMB open.
fn replace_none(alloc: Global, parts: &Parts, asked: &[Claim]) -> Result<bool, AllocError>
    ensures { IfOk result (λ b. b ≡ replace_none asked.now parts.now.table) }
{
    match asked {
        [] => Ok(true),
        [claim] => replaces_none(alloc, parts, claim),
        [_, _, ..] => Ok(are_elements(asked)),
    }
}

/// Whether a grant to the one who is called frees nobody in front of it: no cache is on the file, nor wished for, and what is
/// held stays.
pub(crate) fn frees_nobody(
    alloc: Global,
    parts: &Parts,
    called: &Called,
    file: u32,
) -> Result<bool, AllocError>
    requires { IsGood (state_of parts.now) }
    ensures exact { IfOk result (λ b. b ≡ is_seen_free called.now file parts.now.table) }
    ensures free { IfOk result (λ b. b ≡ true → FreesNobody called.now file (state_of parts.now)) }
{
    if !called.wish.is_empty() {
        return Ok(false);
    }
    if parts.table.has_cache(file) {
        return Ok(false);
    }
    let free = replace_none(alloc, parts, called.asked.as_slice())?;
    Ok(free)
}

/// Those who were passed before the one who is called, if its turn frees none of them and began no break.
pub(crate) fn passed_then(front: Passed, frees_nobody: bool, begun: &[Effect]) -> Passed
    ensures exact { result ≡ passed_then front frees_nobody begun.now }
    ensures seen { 0 < result.count → (result ≡ front) × (frees_nobody ≡ true) × (begun.now ≡ []) }
{
    match begun {
        [] if frees_nobody => front,
        _ => NOBODY,
    }
}
