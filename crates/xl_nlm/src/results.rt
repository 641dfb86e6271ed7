//! Results, read from XDR.
ghost use Rattle.std.specs.Prelude.{◌≡◌, ℕ, List, ◌++◌, IfOk, Ok, IsTrue};
ghost use Rattle.xl_base.specs.Codec.{Advances};
ghost use Rattle.xl_nlm.specs.Items.{ReplyItem, shown_holder, shown_test_res, shown_res, shown_share_res, shown_reply};
ghost use Rattle.xl_nlm.specs.Arguments.{is_known};
ghost use Rattle.xl_nlm.specs.Replies.{IsReplyTo, results, status, holder, test_res, res, share_res, results_at};

use crate::item::{Holder, NlmReply, NlmStatus, Res, ShareRes, TestRes};
use crate::procedure;
use crate::reading::read_text;
use xl_format::read_record;
use xl_rpc::{RpcBad, Xdr};

#[tactic(auto, unfolding(crate::specs::Replies::status))]
fn read_status(xdr: &mut Xdr) -> Result<NlmStatus, RpcBad>
    ensures { Advances (λ s. s) result xdr.old.rest.now xdr.new.rest.now (status.at xdr.old.rest.now) }
{
    let mut at = *xdr;
    let status = match at.u32()? {
        0 => NlmStatus::Granted,
        1 => NlmStatus::Denied,
        2 => NlmStatus::DeniedNolocks,
        3 => NlmStatus::Blocked,
        4 => NlmStatus::DeniedGracePeriod,
        5 => NlmStatus::Deadlck,
        6 => NlmStatus::Rofs,
        7 => NlmStatus::StaleFh,
        8 => NlmStatus::Fbig,
        9 => NlmStatus::Failed,
        _ => return Err(RpcBad::Value),
    };
    *xdr = at;
    Ok(status)
}

#[tactic(auto, unfolding(crate::specs::Replies::holder))]
fn read_holder<'a>(xdr: &mut Xdr<'a>) -> Result<Holder<'a>, RpcBad>
    ensures { Advances shown_holder result xdr.old.rest.now xdr.new.rest.now (holder.at xdr.old.rest.now) }
{
    read_record!(xdr; Holder { exclusive: Xdr::boolean, svid: Xdr::i32, oh: read_text, l_offset: Xdr::u64, l_len: Xdr::u64 })
}

/// The holder stands just behind the status Denied.
#[tactic(auto, unfolding(crate::specs::Replies::test_res, xl_format::specs::Formats::nothing))]
fn read_test_res<'a>(xdr: &mut Xdr<'a>) -> Result<TestRes<'a>, RpcBad>
    ensures { Advances shown_test_res result xdr.old.rest.now xdr.new.rest.now (test_res.at xdr.old.rest.now) }
{
    let mut at = *xdr;
    let cookie = read_text(&mut at)?;
    let stat = read_status(&mut at)?;
    let holder = match stat {
        NlmStatus::Denied => Some(read_holder(&mut at)?),
        _ => None,
    };
    *xdr = at;
    Ok(TestRes {
        cookie,
        stat,
        holder,
    })
}

#[tactic(auto, unfolding(crate::specs::Replies::res))]
fn read_res<'a>(xdr: &mut Xdr<'a>) -> Result<Res<'a>, RpcBad>
    ensures { Advances shown_res result xdr.old.rest.now xdr.new.rest.now (res.at xdr.old.rest.now) }
{
    read_record!(xdr; Res { cookie: read_text, stat: read_status })
}

#[tactic(auto, unfolding(crate::specs::Replies::share_res))]
fn read_share_res<'a>(xdr: &mut Xdr<'a>) -> Result<ShareRes<'a>, RpcBad>
    ensures { Advances shown_share_res result xdr.old.rest.now xdr.new.rest.now (share_res.at xdr.old.rest.now) }
{
    read_record!(xdr; ShareRes { cookie: read_text, stat: read_status, sequence: Xdr::i32 })
}

#[tactic(auto, unfolding(crate::specs::Replies::results_of, xl_format::specs::Formats::nothing))]
fn read_results<'a>(proc: u32, body: &mut Xdr<'a>) -> Result<NlmReply<'a>, RpcBad>
    ensures { Advances shown_reply result body.old.rest.now body.new.rest.now (results_at proc body.old.rest.now) }
{
    match proc {
        procedure::NULL | procedure::FREE_ALL => Ok(NlmReply::Void),
        procedure::TEST => read_test_res(body).map(NlmReply::Test),
        procedure::LOCK
        | procedure::CANCEL
        | procedure::UNLOCK
        | procedure::GRANTED
        | procedure::NM_LOCK => read_res(body).map(NlmReply::Res),
        procedure::SHARE | procedure::UNSHARE => read_share_res(body).map(NlmReply::Share),
        _ => Err(RpcBad::Value),
    }
}

/// The results of a procedure whose results are known, read from the front; what stands behind them is left. A fault is
/// the first in reading order: Short if the bytes end within them, Pad and Bool as in XDR, TooLong if a cookie or
/// an owner has more than 1,024 bytes, Value if a status is above 9. It leaves the reader as it was.
pub fn read_result<'a>(proc: u32, body: &mut Xdr<'a>) -> Result<NlmReply<'a>, RpcBad>
    requires { IsTrue (is_known proc) }
    // What is read is spelled so.
    ensures found { IfOk result (λ r. (body.old.rest.now ≡ results (shown_reply r) ++ body.new.rest.now) × IsReplyTo proc (shown_reply r)) }
    // What is spelled so is read, whatever follows.
    ensures only { (r : ReplyItem) (rest : List ℕ) → IsReplyTo proc r → body.old.rest.now ≡ results r ++ rest → Advances shown_reply result body.old.rest.now body.new.rest.now (Ok (r, rest)) }
    // Which fault it is.
    ensures exact { Advances shown_reply result body.old.rest.now body.new.rest.now (results_at proc body.old.rest.now) }
{
    read_results(proc, body)
}
