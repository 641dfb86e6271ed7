//! How one who asks stands to the grace that runs (RFC 7530 9.6.2, 9.6.3).
ghost use Rattle.std.specs.Prelude.{◌≡◌, IfOk, option_copied};
ghost use Rattle.xl_core.specs.Standings.{nobody, recorded_name, recorded_as, recorded_by, recorded_at, marked, asker_as, stores_name, is_smb, standing_by, standing, standing_again, refusal, is_timely};
ghost use Rattle.xl_core.specs.Whole.{state_of};

use crate::ask::{Answer, Ask, Who};
use crate::parts::Parts;
use std::alloc::{AllocError, Global};
use xl_base::{Mark, Moment, Party, Protocol, Recorded, Sequence};
use xl_grace::Admission;
use xl_names::{Name, Names};

/// How one who asks stands to grace.
#[derive(Clone, Copy)]
pub(crate) enum Standing {
    /// No grace runs, and it reclaims nothing.
    Timely,
    /// It reclaims in grace, and its client is recorded with a mark that agrees.
    Reclaims,
    /// It waits for the end of grace.
    Stays,
    /// It is no reclaim, and comes while grace runs; a reading of the clock from this moment on may end it.
    Early(Moment),
    /// It is a reclaim, and no grace runs; the clock.
    Late(Moment),
    /// It is a reclaim in grace by a client that isn't recorded, or whose mark doesn't agree with the kept one.
    Unrecorded,
}

/// What stands for a client that no record has.
fn nobody(alloc: Global) -> Recorded
    ensures { result ≡ nobody }
{
    Recorded {
        protocol: Protocol::Smb,
        name: Sequence::new(alloc),
        mark: None,
    }
}

/// A client of NLM or NFSv4, as the record names it.
fn recorded_name(alloc: Global, name: &Name) -> Result<Recorded, AllocError>
    ensures { IfOk result (λ r. r ≡ recorded_name name.now) }
{
    match name {
        Name::NlmParty(caller) => Ok(Recorded {
            protocol: Protocol::Nlm,
            name: Sequence::from_slice(alloc, caller.as_slice())?,
            mark: None,
        }),
        Name::NfsParty(id) => Ok(Recorded {
            protocol: Protocol::Nfs,
            name: Sequence::from_slice(alloc, id.as_slice())?,
            mark: None,
        }),
        _ => Ok(nobody(alloc)),
    }
}

/// The same of one who asks.
pub(crate) fn recorded_as(alloc: Global, who: &Who) -> Result<Recorded, AllocError>
    ensures { IfOk result (λ r. r ≡ recorded_as who.now) }
{
    match who {
        Who::Named(name) => recorded_name(alloc, name),
        Who::Open(_) => Ok(nobody(alloc)),
    }
}

/// A client with the mark that it comes with.
pub(crate) fn marked(name: Recorded, mark: &Option<Mark>) -> Recorded
    ensures { result ≡ marked name mark.now }
{
    Recorded {
        protocol: name.protocol,
        name: name.name,
        mark: *mark,
    }
}

/// One who asks, with its mark.
pub(crate) fn asker_as(alloc: Global, ask: &Ask) -> Result<Recorded, AllocError>
    ensures { IfOk result (λ r. r ≡ asker_as ask.now) }
{
    Ok(marked(recorded_as(alloc, &ask.party)?, &ask.mark))
}

/// Whether the asker's name is to be recorded before a grant: it is monitored, and reclaims nothing.
pub(crate) fn stores_name(ask: &Ask) -> bool
    ensures { result ≡ stores_name ask.now }
{
    ask.monitored && !ask.reclaim
}

/// A party by its number, as the record names it.
pub(crate) fn recorded_at(
    alloc: Global,
    names: &Names,
    party: Party,
) -> Result<Recorded, AllocError>
    ensures { IfOk result (λ r. r ≡ recorded_at names.now party) }
{
    let Party::Name(_, number) = party else {
        return Ok(nobody(alloc));
    };
    match names.as_slice().get(number as usize) {
        Some(name) => recorded_name(alloc, name),
        None => Ok(nobody(alloc)),
    }
}

/// Whether it is of SMB, whose requests wait while grace runs.
pub(crate) fn is_smb(who: &Who) -> bool
    ensures { result ≡ is_smb who.now }
{
    !matches!(
        who,
        Who::Named(Name::NlmParty(_)) | Who::Named(Name::NfsParty(_))
    )
}

fn standing_by(stays: bool, reclaim: bool, clock: Moment, admission: Admission) -> Standing
    ensures { result ≡ standing_by stays reclaim clock admission }
{
    match admission {
        Admission::Enters if reclaim => Standing::Reclaims,
        Admission::Enters => Standing::Timely,
        Admission::Grace(_) if stays => Standing::Stays,
        Admission::Grace(until) => Standing::Early(until),
        Admission::NoGrace => Standing::Late(clock),
        Admission::NotRecorded => Standing::Unrecorded,
    }
}

/// What grace makes of an ask, which waits for the end of grace or not.
#[tactic(auto, unfolding(crate::specs::Standings::standing), using(crate::proofs::StandingLaws::timely_so))]
pub(crate) fn standing_of(
    alloc: Global,
    parts: &Parts,
    ask: &Ask,
    stays: bool,
) -> Result<Standing, AllocError>
    ensures { IfOk result (λ r. r ≡ standing (state_of parts.now) (asker_as ask.now) stays ask.now.reclaim) }
{
    if !ask.reclaim && !parts.grace.runs() {
        return Ok(Standing::Timely);
    }
    let name = asker_as(alloc, ask)?;
    Ok(standing_by(
        stays,
        ask.reclaim,
        parts.clock,
        parts.grace.may_enter(&name, ask.reclaim),
    ))
}

/// One who waits already waits on while grace runs.
pub(crate) fn standing_again(parts: &Parts) -> Standing
    ensures { result ≡ standing_again (state_of parts.now) }
{
    if parts.grace.runs() {
        Standing::Stays
    } else {
        Standing::Timely
    }
}

/// What one is answered whom grace refuses.
pub(crate) fn refusal(standing: Standing) -> Option<Answer>
    ensures { result ≡ refusal standing }
{
    match standing {
        Standing::Timely | Standing::Reclaims | Standing::Stays => None,
        Standing::Early(until) => Some(Answer::Grace(until)),
        Standing::Late(clock) => Some(Answer::NoGrace(clock)),
        Standing::Unrecorded => Some(Answer::NotRecorded),
    }
}

/// Whether nothing of grace is in its way, and it is no reclaim.
pub(crate) fn is_timely(standing: Standing) -> bool
    ensures { result ≡ is_timely standing }
{
    matches!(standing, Standing::Timely)
}
