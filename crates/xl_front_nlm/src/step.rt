//! What a call of program 100021 version 4 is answered: the Network Lock Manager (XNFS C702).
ghost use Rattle.std.specs.Prelude.{◌≡◌, ℕ, ◌≤◌, true, [], ◌++◌, length, option_map, IfOk, IfSome, OnOk};
ghost use Rattle.std.specs.List.{AllByRecursion};
ghost use Rattle.xl_base.specs.Limits.{most_message_bytes};
ghost use Rattle.xl_nlm.specs.Arguments.{CallFits};
ghost use Rattle.xl_nlm.specs.Items.{shown_call, shown_reply};
ghost use Rattle.xl_nlm.specs.Replies.{results, ReplyFits};
ghost use Rattle.xl_programs.specs.Programs.{serves, shown_request};
ghost use Rattle.xl_programs.specs.Sent.{sent_to, FitsFrame};
ghost use Rattle.xl_rpc.specs.Replies.{reply};
ghost use Rattle.xl_rpc.specs.declared.reply.Verdict.TheVariants.{Success, GarbageArgs};
ghost use Rattle.xl_core.specs.State.{MayBe};
ghost use Rattle.xl_plan.specs.Keepers.{HandsTo};
ghost use Rattle.xl_front_nlm.specs.FrontNlm.{call_in, replied, nlm_step};
ghost use Rattle.xl_front_nlm.specs.Layers.{core_of, front_of};
ghost use Rattle.xl_front_nlm.specs.Short.{IsReady, Leaves};

use crate::layers::NlmLayers;
use crate::procedures::serve;
use crate::results::reply_of;
use std::alloc::{AllocError, Global};
use xl_base::{Exports, Keeper, Out, Sequence};
use xl_core::Effect;
use xl_nlm::{NlmCall, NlmReply, read, write_result};
use xl_programs::{Program, Request, refusal, sent_to};
use xl_rpc::{Verdict, XdrOut, write_reply};

/// A reply with results, which are short.
#[tactic(auto, using(crate::proofs::ReplyLaws::whole_short))]
fn with_results(alloc: Global, xid: u32, told: &NlmReply) -> Result<Vec<u8>, AllocError>
    requires { ReplyFits (shown_reply told.now) }
    ensures reply { IfOk result (λ v. v.items ≡ reply xid Success ++ results (shown_reply told.now)) }
    ensures little { IfOk result (λ v. length v.items ≤ most_message_bytes) }
{
    let mut out = XdrOut::new(alloc);
    write_reply(&mut out, xid, Verdict::Success)?;
    write_result(&mut out, told)?;
    Ok(out.done())
}

/// The call that a request is, unless its arguments are garbage.
#[tactic(auto, unfolding(crate::specs::FrontNlm::call_in))]
fn call_in<'a>(request: &Request<'a>) -> Option<NlmCall<'a>>
    requires known { serves Program.Nlm request.now.procedure ≡ true }
    ensures call { option_map shown_call result ≡ call_in (shown_request request.now) }
    ensures fits { IfSome result (λ call. CallFits (shown_call call)) }
{
    let mut args = request.arguments;
    let Ok(call) = read(request.procedure, &mut args) else {
        return None;
    };
    if !args.left().is_empty() {
        return None;
    }
    Some(call)
}

/// The reply to arguments that can't be read, or behind which bytes stand; nothing happened besides.
fn garbage(alloc: Global, xid: u32) -> Result<(Vec<u8>, Sequence<Effect>), AllocError>
    ensures reply { IfOk result (λ r. r.0.items ≡ reply xid GarbageArgs) }
    ensures none { IfOk result (λ r. r.1 ≡ []) }
    ensures little { IfOk result (λ r. length r.0.items ≤ most_message_bytes) }
{
    let bytes = refusal(alloc, xid, Verdict::GarbageArgs)?;
    Ok((bytes, Sequence::new(alloc)))
}

/// The reply to a request.
#[tactic(auto, using(crate::proofs::LeaveLaws::leaves_self, crate::proofs::LeaveLaws::leaves_short))]
fn replied<K: Keeper>(
    alloc: Global,
    count: usize,
    layers: NlmLayers,
    keeper: &mut K,
    request: &Request,
) -> Result<(Vec<u8>, Sequence<Effect>), AllocError>
    requires known { serves Program.Nlm request.now.procedure ≡ true }
    requires ready { IsReady 0 layers.core.now }
    ensures done { (n : ℕ) → IfOk result (λ r. MayBe n (core_of layers.exit) → replied n count layers.entry.front.now layers.entry.core.now request.now.xid (call_in (shown_request request.now)) ≡ (r.0.items, r.1, front_of layers.exit, core_of layers.exit)) }
    ensures leaves { OnOk result (Leaves 2 layers.entry.core.now (core_of layers.exit)) }
    ensures keeper { OnOk result (HandsTo K.held K.given K.faults K.left layers.entry.core.now (core_of layers.exit) keeper.old keeper.new) }
    ensures little { IfOk result (λ r. length r.0.items ≤ most_message_bytes) }
{
    let Some(call) = call_in(request) else {
        return garbage(alloc, request.xid);
    };
    let NlmLayers { front, core } = layers;
    let (outcome, effects) = serve(alloc, count, NlmLayers { front, core }, keeper, &call)?;
    let told = reply_of(core.names(), &call, outcome);
    let reply = with_results(alloc, request.xid, &told)?;
    Ok((reply, effects))
}

/// Answers a call of NLM (XNFS C702) from the connection of this number: the reply, without its frame and at most
/// 65,536 bytes long, and what the core told of besides: the breaks of caches that began, and who waits no more. The
/// procedures served are NULL, TEST, LOCK, CANCEL, UNLOCK, SHARE, UNSHARE, NM_LOCK and FREE_ALL; a lock that may wait
/// is answered with BLOCKED. Arguments that can't be read, and bytes behind them, are GARBAGE_ARGS. At least 65,536
/// numbers must be left to give out beside those that who waits and the recalls to come may take; a call adds two to
/// these at most. After an error nothing is known of the front and the core.
#[tactic(auto, unfolding(crate::specs::FrontNlm::nlm_step))]
pub fn nlm_step<K: Keeper>(
    alloc: Global,
    exports: &Exports,
    layers: NlmLayers,
    keeper: &mut K,
    conn: u64,
    request: &Request,
) -> Result<(Sequence<Out>, Sequence<Effect>), AllocError>
    requires known { serves Program.Nlm request.now.procedure ≡ true }
    requires ready { IsReady 0 layers.core.now }
    ensures state { (n : ℕ) → IfOk result (λ r. MayBe n (core_of layers.exit) → nlm_step n exports.now layers.entry.front.now layers.entry.core.now conn (shown_request request.now) ≡ (r.0, r.1, front_of layers.exit, core_of layers.exit)) }
    ensures leaves { OnOk result (Leaves 2 layers.entry.core.now (core_of layers.exit)) }
    ensures little { IfOk result (λ r. AllByRecursion FitsFrame r.0) }
    ensures keeper { OnOk result (HandsTo K.held K.given K.faults K.left layers.entry.core.now (core_of layers.exit) keeper.old keeper.new) }
{
    let count = exports.files.len();
    let (reply, effects) = replied(alloc, count, layers, keeper, request)?;
    Ok((sent_to(alloc, conn, reply)?, effects))
}
