//! How what became of a call is sent.
ghost use Rattle.std.specs.Prelude.{◌≡◌, option_map};
ghost use Rattle.xl_nlm.specs.Arguments.{CallFits, TextFits};
ghost use Rattle.xl_nlm.specs.Items.{shown_call, shown_holder, shown_test_res, shown_reply};
ghost use Rattle.xl_nlm.specs.Replies.{holder, test_res, ReplyFits};
ghost use Rattle.xl_format.specs.Formats.{chosen_part};
ghost use Rattle.xl_matrix.specs.declared.claim.What.TheVariants.{Range};
ghost use Rattle.xl_matrix.specs.declared.claim.Extent.TheVariants.{Bytes};
ghost use Rattle.xl_front_nlm.specs.Results.{answer_status, status_of, IsTestOutcome, IsOutcomeOf, owner_parts, holder_by, holder_of, test_holder, test_result, res_of, share_res_of, reply_of};
ghost use Rattle.xl_front_nlm.specs.Short.{AreShort};

use crate::aim::length_of;
use crate::outcome::Outcome;
use xl_base::Owner;
use xl_core::Answer;
use xl_matrix::{Claim, Extent, What};
use xl_names::{Name, Names};
use xl_nlm::{Holder, NlmCall, NlmReply, NlmStatus, Res, ShareRes, TestRes};

/// How the core's answer to a call is sent.
fn answer_status(answer: Answer) -> NlmStatus
    ensures { result ≡ answer_status answer }
{
    match answer {
        Answer::Granted(_) | Answer::NotHeld => NlmStatus::Granted,
        Answer::Conflict(_) | Answer::Recall(_) | Answer::NotRecorded => NlmStatus::Denied,
        Answer::Queued(_) => NlmStatus::Blocked,
        Answer::Grace(_) | Answer::NoGrace(_) => NlmStatus::DeniedGracePeriod,
        Answer::Full(_) => NlmStatus::DeniedNolocks,
        Answer::StoreFailed => NlmStatus::Failed,
    }
}

/// How what became of a call is sent.
fn status_of(outcome: Outcome) -> NlmStatus
    ensures { result ≡ status_of outcome }
{
    match outcome {
        Outcome::NoFile => NlmStatus::StaleFh,
        Outcome::TooBig => NlmStatus::Fbig,
        Outcome::Waits => NlmStatus::Blocked,
        Outcome::NotWaiting => NlmStatus::Denied,
        Outcome::Answered(answer) => answer_status(answer),
        Outcome::Ended | Outcome::Nothing => NlmStatus::Granted,
    }
}

/// The svid and oh of an owner of NLM ranges; of another 0 and none.
#[tactic(auto, using(crate::proofs::ShortLaws::owner_short))]
fn owner_parts(names: &Names, owner: Owner) -> (i32, &[u8])
    requires { AreShort names.now }
    ensures value { (result.0, result.1.now) ≡ owner_parts names.now owner }
    ensures fits { TextFits result.1.now }
{
    let Owner::Name(_, number) = owner else {
        return (0, &[]);
    };
    match names.as_slice().get(number as usize) {
        Some(Name::NlmRange(_, svid, oh)) => (*svid, oh.as_slice()),
        _ => (0, &[]),
    }
}

/// Bytes that an owner holds, as TEST gives them.
#[tactic(auto, unfolding(xl_nlm::specs::Replies::holder))]
fn holder_by(exclusive: bool, svid: i32, oh: &[u8], first: u64, last: u64) -> Holder<'_>
    requires { TextFits oh.now }
    ensures value { shown_holder result ≡ holder_by (svid, oh.now) (Range (Bytes first last) exclusive) }
    ensures fits { holder.Fit (shown_holder result) }
{
    Holder {
        exclusive,
        svid,
        oh,
        l_offset: first,
        l_len: length_of(first, last),
    }
}

/// A held range as TEST gives it.
fn holder_of<'a>(names: &'a Names, claim: &Claim) -> Holder<'a>
    requires { AreShort names.now }
    ensures value { shown_holder result ≡ holder_of names.now claim.now }
    ensures fits { holder.Fit (shown_holder result) }
{
    let (svid, oh) = owner_parts(names, claim.owner);
    match claim.what {
        What::Range(Extent::Bytes(first, last), exclusive) => {
            holder_by(exclusive, svid, oh, first, last)
        }
        _ => holder_by(false, svid, oh, 0, 0),
    }
}

/// The holder, if one is given.
fn test_holder(names: &Names, outcome: Outcome) -> Option<Holder<'_>>
    requires { AreShort names.now }
    ensures value { option_map shown_holder result ≡ test_holder names.now outcome }
    ensures fits { (chosen_part holder (option_map shown_holder result)).Fit }
{
    match outcome {
        Outcome::Answered(Answer::Conflict(claim)) => Some(holder_of(names, &claim)),
        _ => None,
    }
}

/// The results of TEST.
#[tactic(auto, unfolding(xl_nlm::specs::Replies::test_res, xl_nlm::specs::Replies::status), using(crate::proofs::ShortLaws::told_as_denied))]
fn test_result<'a>(names: &'a Names, cookie: &'a [u8], outcome: Outcome) -> TestRes<'a>
    requires cookie { TextFits cookie.now }
    requires names { AreShort names.now }
    requires outcome { IsTestOutcome outcome }
    ensures value { shown_test_res result ≡ test_result cookie.now names.now outcome }
    ensures fits { test_res.Fit (shown_test_res result) }
{
    TestRes {
        cookie,
        stat: status_of(outcome),
        holder: test_holder(names, outcome),
    }
}

/// The results of LOCK, CANCEL, UNLOCK and NM_LOCK.
#[tactic(auto, unfolding(xl_nlm::specs::Replies::res, xl_nlm::specs::Replies::status))]
fn res_of(cookie: &[u8], outcome: Outcome) -> NlmReply<'_>
    requires { TextFits cookie.now }
    ensures value { shown_reply result ≡ res_of cookie.now outcome }
    ensures fits { ReplyFits (shown_reply result) }
{
    NlmReply::Res(Res {
        cookie,
        stat: status_of(outcome),
    })
}

/// The results of SHARE and UNSHARE.
#[tactic(auto, unfolding(xl_nlm::specs::Replies::share_res, xl_nlm::specs::Replies::status))]
fn share_res_of(cookie: &[u8], outcome: Outcome) -> NlmReply<'_>
    requires { TextFits cookie.now }
    ensures value { shown_reply result ≡ share_res_of cookie.now outcome }
    ensures fits { ReplyFits (shown_reply result) }
{
    NlmReply::Share(ShareRes {
        cookie,
        stat: status_of(outcome),
        sequence: 0,
    })
}

/// The results of a call, which have a spelling.
#[tactic(auto, unfolding(crate::specs::Results::reply_of, xl_format::specs::Formats::nothing, xl_nlm::specs::Arguments::test_args, xl_nlm::specs::Arguments::lock_args, xl_nlm::specs::Arguments::cancel_args, xl_nlm::specs::Arguments::unlock_args, xl_nlm::specs::Arguments::share_args))]
pub(crate) fn reply_of<'a>(names: &'a Names, call: &NlmCall<'a>, outcome: Outcome) -> NlmReply<'a>
    requires fits { CallFits (shown_call call.now) }
    requires short { AreShort names.now }
    requires outcome { IsOutcomeOf (shown_call call.now) outcome }
    ensures value { shown_reply result ≡ reply_of names.now (shown_call call.now) outcome }
    ensures fits { ReplyFits (shown_reply result) }
{
    match call {
        NlmCall::Test(args) => NlmReply::Test(test_result(names, args.cookie, outcome)),
        NlmCall::Lock(args) | NlmCall::NmLock(args) => res_of(args.cookie, outcome),
        NlmCall::Cancel(args) => res_of(args.cookie, outcome),
        NlmCall::Unlock(args) => res_of(args.cookie, outcome),
        NlmCall::Share(args) | NlmCall::Unshare(args) => share_res_of(args.cookie, outcome),
        NlmCall::Null | NlmCall::Granted(_) | NlmCall::FreeAll(_) => NlmReply::Void,
    }
}
