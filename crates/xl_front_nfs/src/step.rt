//! What a call of program 100003 version 4 is answered (RFC 7530 15.1, 15.2).
ghost use Rattle.std.specs.Prelude.{◌≡◌, ℕ, ◌+◌, ◌≤◌, List, [], ◌++◌, true, length, IfOk, OnOk};
ghost use Rattle.std.specs.List.{AllByRecursion};
ghost use Rattle.xl_base.specs.Limits.{most_message_bytes};
ghost use Rattle.xl_nfs.specs.Basics.{most_text_bytes};
ghost use Rattle.xl_nfs.specs.Compounds.{compound_head_at};
ghost use Rattle.xl_programs.specs.Programs.{serves, shown_request};
ghost use Rattle.xl_programs.specs.Sent.{sent_to, FitsFrame};
ghost use Rattle.xl_rpc.specs.Replies.{reply};
ghost use Rattle.xl_rpc.specs.declared.reply.Verdict.TheVariants.{Success, GarbageArgs};
ghost use Rattle.xl_core.specs.State.{CoreState, MayBe};
ghost use Rattle.xl_front_nfs.specs.Courses.{course_of};
ghost use Rattle.xl_front_nfs.specs.FrontNfs.{null_in, compound_in, call_in, most_ops, most_drawn, most_results, run, with_reply, replied, nfs_step};
ghost use Rattle.xl_nfs_opens.specs.Results.{compound_results};
ghost use Rattle.xl_plan.specs.Budgets.{IsReady};
ghost use Rattle.xl_plan.specs.Keepers.{HandsTo};
ghost use Rattle.xl_nfs_opens.specs.Short.{Leaves};
ghost use Rattle.xl_front_nfs.specs.State.{FrontNfs};
ghost use Rattle.xl_front_nfs.specs.Steps.{begun, steps_in};

use crate::compound::{Ops, Progress, run_ops};
use crate::front::NfsFront;
use std::alloc::{AllocError, Global};
use xl_base::{Exports, Keeper, Out, Sequence};
use xl_core::{Core, Effect};
use xl_nfs::{CompoundHead, NfsStatus, read_head};
use xl_nfs_opens::Exported;
use xl_programs::{Program, Request, refusal, sent_to};
use xl_rpc::{Verdict, Xdr, XdrOut, write_reply};

/// The procedure NULL.
const NULL: u32 = 0;

/// The minor version that is served.
const MINOR_VERSION: u32 = 0;

/// How many operations a COMPOUND has at most.
const MOST_OPS: u32 = 64;

/// A request as it arrives.
#[derive(Clone, Copy)]
pub struct Arrival<'a> {
    /// The connection that it came by.
    pub conn: u64,
    /// The request.
    pub request: &'a Request<'a>,
}

/// A COMPOUND whose head is read, of this request.
#[derive(Clone, Copy)]
struct Call<'a> {
    /// The request's number.
    xid: u32,
    /// The head.
    head: CompoundHead<'a>,
    /// What stands behind it.
    args: Xdr<'a>,
}

/// Writes the results of a COMPOUND (COMPOUND4res): the last status, the tag, and the results behind their count.
#[tactic(auto, unfolding(xl_nfs_opens::specs::Results::compound_results))]
fn put_results(
    out: &mut XdrOut,
    tag: &[u8],
    status: NfsStatus,
    count: u32,
    results: &XdrOut,
) -> Result<(), AllocError>
    requires { length tag.now ≤ most_text_bytes }
    ensures { OnOk result (out.new ≡ out.old ++ compound_results tag.now status count results.now) }
{
    out.u32(status.number())?;
    out.opaque(tag)?;
    out.u32(count)?;
    out.append(results)?;
    Ok(())
}

/// The reply to a COMPOUND.
#[tactic(auto, using(crate::proofs::ReplyLaws::compound_little))]
fn compound_reply(
    alloc: Global,
    xid: u32,
    tag: &[u8],
    status: NfsStatus,
    count: u32,
    results: &XdrOut,
) -> Result<Vec<u8>, AllocError>
    requires tag { length tag.now ≤ most_text_bytes }
    requires few { length results.now ≤ most_results }
    ensures reply { IfOk result (λ v. v.items ≡ reply xid Success ++ compound_results tag.now status count results.now) }
    ensures little { IfOk result (λ v. length v.items ≤ most_message_bytes) }
{
    let mut out = XdrOut::new(alloc);
    write_reply(&mut out, xid, Verdict::Success)?;
    put_results(&mut out, tag, status, count, results)?;
    Ok(out.done())
}

/// What a COMPOUND has come to before its first operation.
fn begun(alloc: Global) -> Progress
    ensures begun { course_of result ≡ begun }
    ensures none { (result.count ≡ 0) × (result.results ≡ []) × (result.effects ≡ []) }
{
    Progress {
        current: None,
        results: XdrOut::new(alloc),
        count: 0,
        status: NfsStatus::Ok,
        effects: Sequence::new(alloc),
    }
}

/// A COMPOUND is done; its operations are in these bytes.
fn done<K: Keeper>(
    alloc: Global,
    exported: &Exported,
    front: &mut NfsFront,
    core: &mut Core,
    keeper: &mut K,
    call: &Call,
) -> Result<(Vec<u8>, Sequence<Effect>), AllocError>
    requires tag { length call.now.head.tag.now ≤ most_text_bytes }
    requires few { call.now.head.count ≤ most_ops }
    requires ready { IsReady most_drawn core.old }
    ensures done { (n : ℕ) → IfOk result (λ r. MayBe n core.new → with_reply call.now.xid call.now.head.tag.now (run n exported.now.files.now exported.now.others front.old core.old (steps_in call.now.head.count call.now.args.rest.now)) ≡ (r.0.items, r.1, front.new, core.new)) }
    ensures leaves { OnOk result (Leaves most_drawn core.old core.new) }
    ensures little { IfOk result (λ r. length r.0.items ≤ most_message_bytes) }
    ensures keeper { OnOk result (HandsTo K.held K.given K.faults K.left core.old core.new keeper.old keeper.new) }
{
    let mut progress = begun(alloc);
    let ops = Ops {
        bytes: call.args,
        count: call.head.count,
    };
    let state = &mut front.state;
    run_ops(alloc, exported, state, core, keeper, &mut progress, &ops)?;
    let reply = compound_reply(
        alloc,
        call.xid,
        call.head.tag,
        progress.status,
        progress.count,
        &progress.results,
    )?;
    Ok((reply, progress.effects))
}

/// The reply to arguments that can't be read, or behind which bytes stand; nothing happened besides.
fn garbage(alloc: Global, xid: u32) -> Result<(Vec<u8>, Sequence<Effect>), AllocError>
    ensures reply { IfOk result (λ r. r.0.items ≡ reply xid GarbageArgs) }
    ensures none { IfOk result (λ r. r.1 ≡ []) }
    ensures little { IfOk result (λ r. length r.0.items ≤ most_message_bytes) }
{
    let bytes = refusal(alloc, xid, Verdict::GarbageArgs)?;
    Ok((bytes, Sequence::new(alloc)))
}

/// The reply to a COMPOUND of which nothing is done.
fn refused(
    alloc: Global,
    xid: u32,
    tag: &[u8],
    status: NfsStatus,
) -> Result<(Vec<u8>, Sequence<Effect>), AllocError>
    requires tag { length tag.now ≤ most_text_bytes }
    ensures reply { IfOk result (λ r. r.0.items ≡ reply xid Success ++ compound_results tag.now status 0 []) }
    ensures none { IfOk result (λ r. r.1 ≡ []) }
    ensures little { IfOk result (λ r. length r.0.items ≤ most_message_bytes) }
{
    let bytes = compound_reply(alloc, xid, tag, status, 0, &XdrOut::new(alloc))?;
    Ok((bytes, Sequence::new(alloc)))
}

/// The reply to NULL.
#[tactic(auto, using(xl_plan::proofs::BudgetLaws::leaves_self, xl_plan::proofs::BudgetLaws::leaves_more))]
fn null(alloc: Global, request: &Request) -> Result<(Vec<u8>, Sequence<Effect>), AllocError>
    ensures done { (n : ℕ) (files : List (List ℕ)) (others : ℕ) (f : FrontNfs) (s : CoreState) → IfOk result (λ r. replied n files others f s request.now.xid (null_in request.now.arguments.rest.now) ≡ (r.0.items, r.1, f, s)) }
    ensures little { IfOk result (λ r. length r.0.items ≤ most_message_bytes) }
{
    if !request.arguments.left().is_empty() {
        return garbage(alloc, request.xid);
    }
    let bytes = refusal(alloc, request.xid, Verdict::Success)?;
    Ok((bytes, Sequence::new(alloc)))
}

/// The reply to a COMPOUND: its minor version is judged before the number of its operations.
#[tactic(auto, unfolding(xl_nfs::specs::Compounds::compound_head), using(xl_plan::proofs::BudgetLaws::leaves_self, xl_plan::proofs::BudgetLaws::leaves_more))]
fn compound<K: Keeper>(
    alloc: Global,
    exported: &Exported,
    front: &mut NfsFront,
    core: &mut Core,
    keeper: &mut K,
    request: &Request,
) -> Result<(Vec<u8>, Sequence<Effect>), AllocError>
    requires ready { IsReady most_drawn core.old }
    ensures done { (n : ℕ) → IfOk result (λ r. MayBe n core.new → replied n exported.now.files.now exported.now.others front.old core.old request.now.xid (compound_in (compound_head_at request.now.arguments.rest.now)) ≡ (r.0.items, r.1, front.new, core.new)) }
    ensures leaves { OnOk result (Leaves most_drawn core.old core.new) }
    ensures little { IfOk result (λ r. length r.0.items ≤ most_message_bytes) }
    ensures keeper { OnOk result (HandsTo K.held K.given K.faults K.left core.old core.new keeper.old keeper.new) }
{
    let mut args = request.arguments;
    let Ok(head) = read_head(&mut args) else {
        return garbage(alloc, request.xid);
    };
    if head.minorversion != MINOR_VERSION {
        return refused(alloc, request.xid, head.tag, NfsStatus::MinorVersMismatch);
    }
    if head.count > MOST_OPS {
        return refused(alloc, request.xid, head.tag, NfsStatus::Resource);
    }
    let xid = request.xid;
    let call = Call { xid, head, args };
    done(alloc, exported, front, core, keeper, &call)
}

/// The reply to a request.
#[tactic(auto, unfolding(crate::specs::FrontNfs::call_in), using(xl_plan::proofs::BudgetLaws::leaves_self, xl_plan::proofs::BudgetLaws::leaves_more))]
fn replied<K: Keeper>(
    alloc: Global,
    exported: &Exported,
    front: &mut NfsFront,
    core: &mut Core,
    keeper: &mut K,
    request: &Request,
) -> Result<(Vec<u8>, Sequence<Effect>), AllocError>
    requires ready { IsReady most_drawn core.old }
    ensures done { (n : ℕ) → IfOk result (λ r. MayBe n core.new → replied n exported.now.files.now exported.now.others front.old core.old request.now.xid (call_in (shown_request request.now)) ≡ (r.0.items, r.1, front.new, core.new)) }
    ensures leaves { OnOk result (Leaves most_drawn core.old core.new) }
    ensures little { IfOk result (λ r. length r.0.items ≤ most_message_bytes) }
    ensures keeper { OnOk result (HandsTo K.held K.given K.faults K.left core.old core.new keeper.old keeper.new) }
{
    if request.procedure == NULL {
        let done = null(alloc, request)?;
        Ok(done)
    } else {
        let done = compound(alloc, exported, front, core, keeper, request)?;
        Ok(done)
    }
}

/// Answers a call of NFS version 4.0 (RFC 7530): the reply to the connection that it came by, without its frame and at
/// most 65,536 bytes long, and what the core told of besides. Other protocols have this number of opens. The procedures
/// served are NULL and COMPOUND. A COMPOUND's
/// operations are done in order, up to the first that isn't OK; PUTROOTFH, PUTFH, GETFH, LOOKUP, SETCLIENTID,
/// SETCLIENTID_CONFIRM, RENEW, OPEN, OPEN_CONFIRM, OPEN_DOWNGRADE, CLOSE, DELEGRETURN, LOCK, LOCKT, LOCKU and RELEASE_LOCKOWNER
/// are served, other numbers from 3 to 39 are NOTSUPP and all else OP_ILLEGAL. A head that
/// can't be read, and bytes behind NULL, are GARBAGE_ARGS; bytes behind the last operation are not looked at. At least
/// 65,792 numbers must be left to give out, beside those that who waits and the recalls of delegations may take; a COMPOUND
/// takes 256 at most, four an operation. After an error nothing is known of the front and the core.
#[tactic(auto, unfolding(crate::specs::FrontNfs::nfs_step))]
pub fn nfs_step<K: Keeper>(
    alloc: Global,
    exports: &Exports,
    others: u32,
    front: &mut NfsFront,
    core: &mut Core,
    keeper: &mut K,
    arrival: &Arrival<'_>,
) -> Result<(Sequence<Out>, Sequence<Effect>), AllocError>
    requires known { serves Program.Nfs arrival.now.request.now.procedure ≡ true }
    requires ready { IsReady most_drawn core.old }
    ensures state { (n : ℕ) → IfOk result (λ r. MayBe n core.new → nfs_step n exports.now others front.old core.old arrival.now.conn (shown_request arrival.now.request.now) ≡ (r.0, r.1, front.new, core.new)) }
    ensures leaves { OnOk result (Leaves most_drawn core.old core.new) }
    ensures little { IfOk result (λ r. AllByRecursion FitsFrame r.0) }
    ensures keeper { OnOk result (HandsTo K.held K.given K.faults K.left core.old core.new keeper.old keeper.new) }
{
    let files = exports.files.as_slice();
    let exported = Exported { files, others };
    let (reply, effects) = replied(alloc, &exported, front, core, keeper, arrival.request)?;
    Ok((sent_to(alloc, arrival.conn, reply)?, effects))
}
