//! OPEN (RFC 7530 16.16).
ghost use Rattle.std.specs.Prelude.{◌≡◌, ◌||◌, ℕ, [], false, true, None, Some, IsSome, option_copied, IfOk, OnOk};
ghost use Rattle.std.specs.List.{find};
ghost use Rattle.xl_core.specs.State.{CoreState, MayBe};
ghost use Rattle.xl_nfs.specs.Opens.{shown_open_args, shown_open_claim};
ghost use Rattle.xl_nfs.specs.Outcomes.{is_ok};
ghost use Rattle.xl_nfs_state.specs.State.{is_client, is_stateid};
ghost use Rattle.xl_nfs_opens.specs.Opens.{answer_status, answered, granted_by, is_granted, granted_more, granted_new, judged, judged_by, open_as, open_at, open_claimed, open_file, open_judged, open_on, reclaims, refused, claim_client, client_in, open_held, opener_of};
ghost use Rattle.xl_nfs_opens.specs.Plans.{carried};
ghost use Rattle.xl_plan.specs.Budgets.{IsReady};
ghost use Rattle.xl_plan.specs.Keepers.{HandsTo, IsQuiet};
ghost use Rattle.xl_nfs_opens.specs.Short.{Leaves};

use crate::aims::opened_file;
use crate::delegating::{delegate, granted_wish, wish_of};
use crate::done::{Done, beside, ended_as};
use crate::entering::{
    either_bits, enter, flags_of, has_room, open_held, open_row, open_seqids, stand,
};
use crate::leases::drawn;
use crate::opener::{Judged, Opener};
use crate::renewing::{FIRST_SEQID, renew_for, state_client, stateid_of};
use crate::repeats::{keep_told, repeat};
use crate::results::result_bytes;
use crate::seqids::{advances, find_opener, opener_number, remember, seat};
use crate::shares::{asked, give_all, reclaims, share_ask};
use crate::told::Told;
use std::alloc::{AllocError, Global};
use xl_base::{Keeper, Sequence};
use xl_core::{Answer, Core, Effect, number_in};
use xl_nfs::{NfsStatus, OpenArgs, OpenClaim, operation};
use xl_nfs_state::{
    ClientRow, NfsState, OwnerKind, OwnerRow, SeqidVerdict, StateidRow, Whose, verdict,
};

/// What is exported, beside so many opens of other protocols.
#[derive(Clone, Copy)]
pub struct Exported<'a> {
    /// The names of the files.
    pub files: &'a [Sequence<u8>],
    /// How many opens other protocols have.
    pub others: u32,
}

/// An OPEN by an owner, at this current handle.
#[derive(Clone, Copy)]
struct Opening<'a> {
    /// What is exported.
    exported: Exported<'a>,
    /// The current handle.
    at: u32,
    /// Who asks.
    opener: &'a Opener,
    /// What is asked.
    args: &'a OpenArgs<'a>,
}

/// The file that is opened.
#[derive(Clone, Copy)]
struct Opened {
    /// Its number.
    file: u32,
    /// Whether its owner is confirmed.
    confirmed: bool,
    /// Whether a delegation is for writing, if one is wished for, or granted.
    write: Option<bool>,
}

fn is_granted(answer: Answer) -> bool
    ensures { result ≡ is_granted answer }
{
    matches!(answer, Answer::Granted(_))
}

/// The status by the core's answer.
pub fn answer_status(reclaim: bool, answer: Answer) -> NfsStatus
    ensures { result ≡ answer_status reclaim answer }
{
    match answer {
        Answer::Granted(_) => NfsStatus::Ok,
        Answer::Conflict(_) if reclaim => NfsStatus::ReclaimConflict,
        Answer::Conflict(_) => NfsStatus::ShareDenied,
        Answer::Queued(_) | Answer::Recall(_) => NfsStatus::Delay,
        Answer::Grace(_) => NfsStatus::Grace,
        Answer::NoGrace(_) => NfsStatus::NoGrace,
        Answer::NotRecorded => NfsStatus::ReclaimBad,
        Answer::Full(_) => NfsStatus::Resource,
        Answer::NotHeld | Answer::StoreFailed => NfsStatus::ServerFault,
    }
}

/// What the owner's seqid says, by its row.
fn judge_row(row: &OwnerRow, seqid: u32) -> Judged
    ensures { result ≡ judged_by seqid (Some row.now) }
{
    match verdict(Some(row.seqids), operation::OPEN, seqid) {
        SeqidVerdict::Repeat => Judged::Repeats(row.number),
        SeqidVerdict::New => Judged::New,
        SeqidVerdict::Next if row.seqids.confirmed => Judged::Next,
        SeqidVerdict::Bad(_) if row.seqids.confirmed => Judged::Bad,
        SeqidVerdict::Next | SeqidVerdict::Bad(_) => Judged::Anew(row.number),
    }
}

/// What the owner's seqid says; one that was never confirmed and doesn't repeat is new.
#[tactic(auto, unfolding(crate::specs::Opens::judged))]
fn judge(state: &NfsState, opener: &Opener, seqid: u32) -> Judged
    ensures { result ≡ judged state.now opener.now seqid }
{
    match find_opener(state, opener) {
        Some(row) => judge_row(row, seqid),
        None => Judged::New,
    }
}

/// It is refused so; the result is kept if it counts.
#[tactic(auto, using(crate::proofs::ResultLaws::fits_18))]
fn refuse(
    alloc: Global,
    state: &mut NfsState,
    current: Option<u32>,
    opener: &Opener,
    args: &OpenArgs,
    confirmed: bool,
    status: NfsStatus,
) -> Result<(Told, Option<u32>), AllocError>
    requires client { IsSome (find (is_client opener.now.client true) state.old.clients) }
    requires fails { is_ok status ≡ false }
    ensures done { (n : ℕ) (s : CoreState) → IfOk result (λ r. carried n s state.old (refused state.old current opener.now (shown_open_args args.now) confirmed status) ≡ (r.0, r.1, [], state.new, s)) }
{
    let told = Told::Ended(status);
    if advances(status) {
        let bytes = result_bytes(alloc, operation::OPEN, &told)?;
        remember(alloc, state, opener, open_seqids(args, confirmed), bytes)?;
    }
    Ok((told, current))
}

/// The owner has no open on the file: a new one takes the next number, and a delegation the one behind it.
#[tactic(auto, using(xl_plan::proofs::BudgetLaws::ready_less, xl_plan::proofs::BudgetLaws::ready_then, xl_plan::proofs::BudgetLaws::leaves_then))]
fn grant_new(
    alloc: Global,
    state: &mut NfsState,
    core: &mut Core,
    opening: &Opening,
    opened: Opened,
) -> Result<(Told, Option<u32>), AllocError>
    requires client { IsSome (find (is_client opening.now.opener.now.client true) state.old.clients) }
    requires ready { IsReady 2 core.old }
    ensures done { (n : ℕ) → IfOk result (λ r. carried n core.old state.old (granted_new core.old state.old opening.now.opener.now (shown_open_args opening.now.args.now) opened.file opened.confirmed opened.write) ≡ (r.0, r.1, [], state.new, core.new)) }
    ensures leaves { OnOk result (Leaves 2 core.old core.new) }
    ensures quiet { OnOk result (IsQuiet core.old core.new) }
{
    let (opener, args, file) = (opening.opener, opening.args, opened.file);
    let owner = opener_number(state, opener);
    let number = u64::from(drawn(core));
    seat(alloc, state, opener, open_seqids(args, opened.confirmed))?;
    let row = open_row(number, opener, owner, file, args);
    enter(alloc, state, owner, row)?;
    let delegation = delegate(alloc, state, core, opener, file, opened.write)?;
    let flags = flags_of(opened.confirmed);
    let told = Told::Opened(stateid_of(core, number, FIRST_SEQID), flags, delegation);
    keep_told(alloc, state, owner, operation::OPEN, &told)?;
    Ok((told, Some(file)))
}

/// It has one: that has the rights of both from then on.
#[tactic(auto, using(xl_plan::proofs::BudgetLaws::ready_less, xl_plan::proofs::BudgetLaws::leaves_more))]
fn grant_more(
    alloc: Global,
    state: &mut NfsState,
    core: &mut Core,
    opening: &Opening,
    opened: Opened,
    row: &StateidRow,
) -> Result<(Told, Option<u32>), AllocError>
    requires client { IsSome (find (is_client opening.now.opener.now.client true) state.old.clients) }
    requires there { find (is_stateid row.now.number) state.old.stateids ≡ Some row.now }
    requires open { row.now.standing.closed ≡ false }
    requires ready { IsReady 2 core.old }
    ensures done { (n : ℕ) → IfOk result (λ r. carried n core.old state.old (granted_more core.old state.old opening.now.opener.now (shown_open_args opening.now.args.now) opened.file opened.confirmed opened.write row.now) ≡ (r.0, r.1, [], state.new, core.new)) }
    ensures leaves { OnOk result (Leaves 2 core.old core.new) }
    ensures quiet { OnOk result (IsQuiet core.old core.new) }
{
    let (opener, args, file) = (opening.opener, opening.args, opened.file);
    let owner = opener_number(state, opener);
    let access = either_bits(row.standing.access, args.access);
    let deny = either_bits(row.standing.deny, args.deny);
    stand(state, row, access, deny, false);
    seat(alloc, state, opener, open_seqids(args, opened.confirmed))?;
    let delegation = delegate(alloc, state, core, opener, file, opened.write)?;
    let seqid = row.standing.seqid.wrapping_add(1);
    let flags = flags_of(opened.confirmed);
    let told = Told::Opened(stateid_of(core, row.number, seqid), flags, delegation);
    keep_told(alloc, state, owner, operation::OPEN, &told)?;
    Ok((told, Some(file)))
}

/// The share is granted, and a delegation if that was wished for and could be.
fn grant(
    alloc: Global,
    state: &mut NfsState,
    core: &mut Core,
    opening: &Opening,
    opened: Opened,
) -> Result<(Told, Option<u32>), AllocError>
    requires client { IsSome (find (is_client opening.now.opener.now.client true) state.old.clients) }
    requires ready { IsReady 2 core.old }
    ensures done { (n : ℕ) → IfOk result (λ r. carried n core.old state.old (granted_by core.old state.old opening.now.opener.now (shown_open_args opening.now.args.now) opened.file opened.confirmed opened.write (open_held state.old opening.now.opener.now opened.file)) ≡ (r.0, r.1, [], state.new, core.new)) }
    ensures leaves { OnOk result (Leaves 2 core.old core.new) }
    ensures quiet { OnOk result (IsQuiet core.old core.new) }
{
    match open_held(state, opening.opener, opened.file) {
        Some(row) => {
            let said = grant_more(alloc, state, core, opening, opened, &row)?;
            Ok(said)
        }
        None => {
            let said = grant_new(alloc, state, core, opening, opened)?;
            Ok(said)
        }
    }
}

/// What becomes of the request by the core's answer.
#[tactic(auto, using(crate::proofs::EndLaws::status_fails, xl_plan::proofs::BudgetLaws::leaves_self, xl_plan::proofs::BudgetLaws::leaves_more, xl_plan::proofs::BudgetLaws::ready_less))]
fn answer(
    alloc: Global,
    state: &mut NfsState,
    core: &mut Core,
    opening: &Opening,
    opened: Opened,
    answer: Answer,
) -> Result<(Told, Option<u32>), AllocError>
    requires client { IsSome (find (is_client opening.now.opener.now.client true) state.old.clients) }
    requires ready { IsReady 2 core.old }
    ensures done { (n : ℕ) → IfOk result (λ r. carried n core.old state.old (answered state.old (Some opening.now.at) opening.now.opener.now (shown_open_args opening.now.args.now) opened.file opened.confirmed opened.write answer core.old) ≡ (r.0, r.1, [], state.new, core.new)) }
    ensures leaves { OnOk result (Leaves 2 core.old core.new) }
    ensures quiet { OnOk result (IsQuiet core.old core.new) }
{
    let (opener, args) = (opening.opener, opening.args);
    let reclaim = reclaims(&args.claim);
    if is_granted(answer) {
        let write = granted_wish(alloc, core, opener, opened.file, opened.write)?;
        let confirmed = opened.confirmed || reclaim;
        let opened = Opened {
            file: opened.file,
            confirmed,
            write,
        };
        let granted = grant(alloc, state, core, opening, opened)?;
        return Ok(granted);
    }
    let status = answer_status(reclaim, answer);
    let (current, confirmed) = (Some(opening.at), opened.confirmed);
    let ended = refuse(alloc, state, current, opener, args, confirmed, status)?;
    Ok(ended)
}

/// The share of the file is asked for, if there is room beside so many opens of others.
#[tactic(auto, using(crate::proofs::LeaveLaws::ask_ready, crate::proofs::LeaveLaws::asked_leaves, xl_plan::proofs::BudgetLaws::leaves_self, xl_plan::proofs::BudgetLaws::leaves_more))]
fn open_on<K: Keeper>(
    alloc: Global,
    state: &mut NfsState,
    core: &mut Core,
    keeper: &mut K,
    opening: &Opening,
    confirmed: bool,
    file: u32,
) -> Result<Done, AllocError>
    requires client { IsSome (find (is_client opening.now.opener.now.client true) state.old.clients) }
    requires ready { IsReady 4 core.old }
    ensures done { (n : ℕ) → IfOk result (λ r. MayBe n core.new → carried n core.old state.old (open_on opening.now.exported.others core.old state.old (Some opening.now.at) opening.now.opener.now (shown_open_args opening.now.args.now) confirmed file) ≡ (r.0, r.1, r.2, state.new, core.new)) }
    ensures leaves { OnOk result (Leaves 4 core.old core.new) }
    ensures keeper { OnOk result (HandsTo K.held K.given K.faults K.left core.old core.new keeper.old keeper.new) }
{
    let (opener, args) = (opening.opener, opening.args);
    if !has_room(state, opening.exported.others, opener, file) {
        return Ok(ended_as(alloc, NfsStatus::Resource, Some(opening.at)));
    }
    let wish = wish_of(alloc, core, state, opener, args, confirmed, file)?;
    let request = share_ask(alloc, wish, opener, args, file)?;
    let (said, effects) = asked(alloc, core, keeper, request)?;
    let opened = Opened {
        file,
        confirmed,
        write: wish,
    };
    let (told, handle) = answer(alloc, state, core, opening, opened, said)?;
    Ok((told, handle, effects))
}

/// OPEN by an owner that is confirmed, or new.
#[tactic(auto, unfolding(crate::specs::Opens::open_as), using(xl_plan::proofs::BudgetLaws::leaves_self, xl_plan::proofs::BudgetLaws::leaves_more))]
fn open_as<K: Keeper>(
    alloc: Global,
    state: &mut NfsState,
    core: &mut Core,
    keeper: &mut K,
    opening: &Opening,
    confirmed: bool,
) -> Result<Done, AllocError>
    requires client { IsSome (find (is_client opening.now.opener.now.client true) state.old.clients) }
    requires ready { IsReady 4 core.old }
    ensures done { (n : ℕ) → IfOk result (λ r. MayBe n core.new → carried n core.old state.old (open_as opening.now.exported.files.now opening.now.exported.others core.old state.old (Some opening.now.at) opening.now.at opening.now.opener.now (shown_open_args opening.now.args.now) confirmed) ≡ (r.0, r.1, r.2, state.new, core.new)) }
    ensures leaves { OnOk result (Leaves 4 core.old core.new) }
    ensures keeper { OnOk result (HandsTo K.held K.given K.faults K.left core.old core.new keeper.old keeper.new) }
{
    let (at, opener, args) = (opening.at, opening.opener, opening.args);
    let files = opening.exported.files;
    match opened_file(files, core, state, opener.client, at, args) {
        Ok(file) => {
            let done = open_on(alloc, state, core, keeper, opening, confirmed, file)?;
            Ok(done)
        }
        Err(status) => {
            let said = refuse(alloc, state, Some(at), opener, args, confirmed, status)?;
            Ok(beside(alloc, said))
        }
    }
}

/// OPEN by an owner that was never confirmed: it goes with its open, and is new.
#[tactic(auto, using(xl_plan::proofs::BudgetLaws::leaves_then, xl_plan::proofs::BudgetLaws::ready_then, xl_plan::proofs::BudgetLaws::ready_less))]
fn open_anew<K: Keeper>(
    alloc: Global,
    state: &mut NfsState,
    core: &mut Core,
    keeper: &mut K,
    opening: &Opening,
    number: u64,
) -> Result<Done, AllocError>
    requires client { IsSome (find (is_client opening.now.opener.now.client true) state.old.clients) }
    requires ready { IsReady 4 core.old }
    ensures done { (n : ℕ) → IfOk result (λ r. MayBe n core.new → carried n core.old state.old (open_judged opening.now.exported.files.now opening.now.exported.others core.old state.old (Some opening.now.at) opening.now.at opening.now.opener.now (shown_open_args opening.now.args.now) (Judged.Anew number)) ≡ (r.0, r.1, r.2, state.new, core.new)) }
    ensures leaves { OnOk result (Leaves 4 core.old core.new) }
    ensures keeper { OnOk result (HandsTo K.held K.given K.faults K.left core.old core.new keeper.old keeper.new) }
{
    let Ok(rows) = state.list_stateids(alloc, Whose::Owner(number)) else {
        return Err(AllocError);
    };
    give_all(alloc, core, opening.opener, rows.as_slice())?;
    state.forget_owner(number);
    let done = open_as(alloc, state, core, keeper, opening, false)?;
    Ok(done)
}

/// OPEN by what the owner's seqid says.
#[tactic(auto, using(xl_plan::proofs::BudgetLaws::leaves_self, xl_plan::proofs::BudgetLaws::leaves_more))]
fn open_judged<K: Keeper>(
    alloc: Global,
    state: &mut NfsState,
    core: &mut Core,
    keeper: &mut K,
    opening: &Opening,
    judged: Judged,
) -> Result<Done, AllocError>
    requires client { IsSome (find (is_client opening.now.opener.now.client true) state.old.clients) }
    requires ready { IsReady 4 core.old }
    ensures done { (n : ℕ) → IfOk result (λ r. MayBe n core.new → carried n core.old state.old (open_judged opening.now.exported.files.now opening.now.exported.others core.old state.old (Some opening.now.at) opening.now.at opening.now.opener.now (shown_open_args opening.now.args.now) judged) ≡ (r.0, r.1, r.2, state.new, core.new)) }
    ensures leaves { OnOk result (Leaves 4 core.old core.new) }
    ensures keeper { OnOk result (HandsTo K.held K.given K.faults K.left core.old core.new keeper.old keeper.new) }
{
    let current = Some(opening.at);
    match judged {
        Judged::Bad => Ok(ended_as(alloc, NfsStatus::BadSeqid, current)),
        Judged::Repeats(number) => {
            let done = repeat(alloc, state, core, current, number)?;
            Ok(done)
        }
        Judged::Anew(number) => {
            let done = open_anew(alloc, state, core, keeper, opening, number)?;
            Ok(done)
        }
        Judged::New => open_as(alloc, state, core, keeper, opening, false),
        Judged::Next => open_as(alloc, state, core, keeper, opening, true),
    }
}

/// The owner of an OPEN, of this client.
fn opener_of(alloc: Global, row: &ClientRow, args: &OpenArgs) -> Result<Opener, AllocError>
    ensures { IfOk result (λ opener. opener ≡ opener_of row.now (shown_open_args args.now)) }
{
    Ok(Opener {
        client: row.number,
        id: Sequence::from_slice(alloc, row.id.as_slice())?,
        verifier: row.details.verifier,
        kind: OwnerKind::Open,
        owner: Sequence::from_slice(alloc, args.owner.owner)?,
    })
}

/// The confirmed client of a clientid.
pub fn client_in<'a>(state: &'a NfsState, core: &Core, clientid: u64) -> Option<&'a ClientRow>
    ensures { option_copied result ≡ client_in core.now state.now clientid }
{
    let number = number_in(core, clientid)?;
    state.find_client(number, true)
}

/// OPEN if a file or the root is the current one.
#[tactic(auto, using(xl_plan::proofs::BudgetLaws::leaves_self, xl_plan::proofs::BudgetLaws::leaves_more))]
fn open_at<K: Keeper>(
    alloc: Global,
    exported: &Exported,
    state: &mut NfsState,
    core: &mut Core,
    keeper: &mut K,
    args: &OpenArgs,
    current: Option<u32>,
) -> Result<Done, AllocError>
    requires ready { IsReady 4 core.old }
    ensures done { (n : ℕ) → IfOk result (λ r. MayBe n core.new → carried n core.old state.old (open_at exported.now.files.now exported.now.others core.old state.old (shown_open_args args.now) current) ≡ (r.0, r.1, r.2, state.new, core.new)) }
    ensures leaves { OnOk result (Leaves 4 core.old core.new) }
    ensures keeper { OnOk result (HandsTo K.held K.given K.faults K.left core.old core.new keeper.old keeper.new) }
{
    let Some(at) = current else {
        return Ok(ended_as(alloc, NfsStatus::NoFileHandle, current));
    };
    let Some(row) = client_in(state, core, args.owner.clientid) else {
        return Ok(ended_as(alloc, NfsStatus::StaleClientId, current));
    };
    let opener = opener_of(alloc, row, args)?;
    let judged = judge(state, &opener, args.seqid);
    let opening = Opening {
        exported: *exported,
        at,
        opener: &opener,
        args,
    };
    let done = open_judged(alloc, state, core, keeper, &opening, judged)?;
    Ok(done)
}

/// The client that the delegation names by which a file is claimed.
fn claim_client(state: &NfsState, core: &Core, claim: &OpenClaim) -> Option<u32>
    ensures { result ≡ claim_client core.now state.now (shown_open_claim claim.now) }
{
    match claim {
        OpenClaim::DelegateCurrent(delegation) => state_client(state, core, &delegation.stateid),
        _ => None,
    }
}

/// OPEN, once the lease of the client is renewed.
#[tactic(auto, unfolding(crate::specs::Opens::open_claimed), using(xl_plan::proofs::BudgetLaws::leaves_then, xl_plan::proofs::BudgetLaws::ready_then))]
fn open_claimed<K: Keeper>(
    alloc: Global,
    exported: &Exported,
    state: &mut NfsState,
    core: &mut Core,
    keeper: &mut K,
    current: Option<u32>,
    args: &OpenArgs,
) -> Result<Done, AllocError>
    requires ready { IsReady 4 core.old }
    ensures done { (n : ℕ) → IfOk result (λ r. MayBe n core.new → carried n core.old state.old (open_claimed exported.now.files.now exported.now.others core.old state.old current (shown_open_args args.now)) ≡ (r.0, r.1, r.2, state.new, core.new)) }
    ensures leaves { OnOk result (Leaves 4 core.old core.new) }
    ensures keeper { OnOk result (HandsTo K.held K.given K.faults K.left core.old core.new keeper.old keeper.new) }
{
    let client = claim_client(state, core, &args.claim);
    renew_for(alloc, state, core, client)?;
    let done = open_at(alloc, exported, state, core, keeper, args, current)?;
    Ok(done)
}

/// OPEN.
#[tactic(auto, unfolding(crate::specs::Opens::open_file), using(xl_plan::proofs::BudgetLaws::leaves_then, xl_plan::proofs::BudgetLaws::ready_then))]
pub fn open_file<K: Keeper>(
    alloc: Global,
    exported: &Exported,
    state: &mut NfsState,
    core: &mut Core,
    keeper: &mut K,
    current: Option<u32>,
    args: &OpenArgs,
) -> Result<Done, AllocError>
    requires ready { IsReady 4 core.old }
    ensures done { (n : ℕ) → IfOk result (λ r. MayBe n core.new → carried n core.old state.old (open_file exported.now.files.now exported.now.others core.old state.old current (shown_open_args args.now)) ≡ (r.0, r.1, r.2, state.new, core.new)) }
    ensures leaves { OnOk result (Leaves 4 core.old core.new) }
    ensures keeper { OnOk result (HandsTo K.held K.given K.faults K.left core.old core.new keeper.old keeper.new) }
{
    let client = number_in(core, args.owner.clientid);
    renew_for(alloc, state, core, client)?;
    let done = open_claimed(alloc, exported, state, core, keeper, current, args)?;
    Ok(done)
}
