//! Which held claim blocks an ask.
ghost use Rattle.std.specs.Prelude.{◌≡◌};
ghost use Rattle.xl_matrix.specs.Blocks.{is_share, is_range, is_cache, is_replaced, is_own, is_met, is_met_by_own, blocks};

use crate::claim::{Claim, What};
use crate::equal::same_owner;
use crate::extent::meet;
use crate::matrix::compatible;
use crate::owner::is_posix;
use xl_base::Owner;

/// Whether a share is claimed.
pub fn is_a_share(what: What) -> bool
    ensures { result ≡ is_share what }
{
    matches!(what, What::Share(_, _))
}

/// Whether a byte range is claimed.
pub fn is_a_range(what: What) -> bool
    ensures { result ≡ is_range what }
{
    matches!(what, What::Range(_, _))
}

/// Whether a cache is claimed.
pub fn is_a_cache(what: What) -> bool
    ensures { result ≡ is_cache what }
{
    matches!(what, What::Cache(_, _))
}

fn is_replaced_by_owner(owner: Owner, what: What) -> bool
    ensures { result ≡ is_replaced owner what }
{
    match what {
        What::Share(_, _) => true,
        What::Range(_, _) => is_posix(owner),
        What::Cache(_, _) => false,
    }
}

/// Whether the held claim is the asker's own, and the ask replaces it.
fn is_own_claim(ask: &Claim, held: &Claim) -> bool
    ensures { result ≡ is_own ask.now held.now }
{
    same_owner(ask.owner, held.owner) && is_replaced_by_owner(held.owner, held.what)
}

fn meets_exclusively(owner: Owner, asked: What, other: Owner, held: What) -> bool
    ensures { result ≡ is_met owner asked other held }
{
    match (asked, held) {
        (What::Range(extent, true), What::Range(place, _)) => {
            meet(!is_posix(owner) && !is_posix(other), extent, place)
        }
        _ => false,
    }
}

/// Whether an exclusive range is asked where its owner has one already.
fn meets_own(ask: &Claim, held: &Claim) -> bool
    ensures { result ≡ is_met_by_own ask.now held.now }
{
    ask.file == held.file
        && same_owner(ask.owner, held.owner)
        && meets_exclusively(ask.owner, ask.what, held.owner, held.what)
}

/// Whether the held claim blocks the ask: both may not be held together, or an SMB open asks for an exclusive range
/// where it has one (MS-FSA 2.1.4.10). What the ask replaces does not: its owner's share, and the ranges of an NLM or
/// NFSv4 owner. It takes no memory.
#[tactic(auto, unfolding(crate::specs::Blocks::blocks))]
pub fn is_blocked_by(ask: &Claim, held: &Claim) -> bool
    ensures { result ≡ blocks ask.now held.now }
{
    !is_own_claim(ask, held) && (!compatible(ask, held) || meets_own(ask, held))
}
