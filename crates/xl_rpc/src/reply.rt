//! Replies (RFC 5531 9).
ghost use Rattle.std.specs.Prelude.{◌≡◌, ℕ, ◌<◌, ◌^◌, List, ◌++◌, OnOk, OnErr, IfOk, Ok};
ghost use Rattle.xl_base.specs.Codec.{Advances};
ghost use Rattle.xl_base.specs.Results.{Gives};
ghost use Rattle.xl_rpc.specs.declared.reply.Verdict.{Verdict};
ghost use Rattle.xl_rpc.specs.Xdr.{IsReadAgain, Puts, unsigned, UnsignedFits};
ghost use Rattle.xl_rpc.specs.Replies.{VerdictFits, is_denied, stat, detail, denied, accepted, told, reply_stat, reply, accepted_with, denied_with, accepted_at, denied_at, verdict_at, reply_at};

use crate::fault::RpcBad;
use crate::put_whole;
use crate::writer::XdrOut;
use crate::xdr::Xdr;
use std::alloc::AllocError;

/// What a reply says of its call.
#[derive(Clone, Copy)]
pub enum Verdict {
    /// The call was done; its results stand behind (SUCCESS).
    Success,
    /// The program is not served here (PROG_UNAVAIL).
    ProgUnavail,
    /// The program is served in the versions from the first number to the second (PROG_MISMATCH).
    ProgMismatch(u32, u32),
    /// The program has no such procedure (PROC_UNAVAIL).
    ProcUnavail,
    /// The arguments can't be read (GARBAGE_ARGS).
    GarbageArgs,
    /// The server failed (SYSTEM_ERR).
    SystemErr,
    /// RPC is served in the versions from the first number to the second (RPC_MISMATCH).
    RpcMismatch(u32, u32),
    /// The credential was refused, for this auth_stat (AUTH_ERROR).
    AuthError(u32),
}

/// A reply.
#[derive(Clone, Copy)]
pub struct Reply<'a> {
    /// The number of the call that it answers.
    pub xid: u32,
    /// What it says of the call.
    pub verdict: Verdict,
    /// A reader of what stands behind: the results of a successful call.
    pub body: Xdr<'a>,
}

const REPLY: u32 = 1;

const ACCEPTED: u32 = 0;

const DENIED: u32 = 1;

const AUTH_NONE: u32 = 0;

/// The room that a reply takes at first, in bytes: as many as it has with results that are short.
const REPLY_ROOM: usize = 64;

/// The verdict behind an accept_stat.
fn read_accepted_with(stat: u32, xdr: &mut Xdr) -> Result<Verdict, RpcBad>
    ensures { Advances (λ v. v) result xdr.old.rest.now xdr.new.rest.now (accepted_with stat xdr.old.rest.now) }
{
    match stat {
        0 => Ok(Verdict::Success),
        1 => Ok(Verdict::ProgUnavail),
        2 => {
            let mut at = *xdr;
            let low = at.u32()?;
            let high = at.u32()?;
            *xdr = at;
            Ok(Verdict::ProgMismatch(low, high))
        }
        3 => Ok(Verdict::ProcUnavail),
        4 => Ok(Verdict::GarbageArgs),
        5 => Ok(Verdict::SystemErr),
        _ => Err(RpcBad::Value),
    }
}

/// The verdict behind a reject_stat.
fn read_denied_with(stat: u32, xdr: &mut Xdr) -> Result<Verdict, RpcBad>
    ensures { Advances (λ v. v) result xdr.old.rest.now xdr.new.rest.now (denied_with stat xdr.old.rest.now) }
{
    match stat {
        0 => {
            let mut at = *xdr;
            let low = at.u32()?;
            let high = at.u32()?;
            *xdr = at;
            Ok(Verdict::RpcMismatch(low, high))
        }
        1 => Ok(Verdict::AuthError(xdr.u32()?)),
        _ => Err(RpcBad::Value),
    }
}

#[tactic(auto, unfolding(crate::specs::Replies::accepted_at))]
fn read_accepted(xdr: &mut Xdr) -> Result<Verdict, RpcBad>
    ensures { Advances (λ v. v) result xdr.old.rest.now xdr.new.rest.now (accepted_at xdr.old.rest.now) }
{
    let mut at = *xdr;
    if at.u32()? != AUTH_NONE {
        return Err(RpcBad::Value);
    }
    if at.u32()? != 0 {
        return Err(RpcBad::TooLong);
    }
    let stat = at.u32()?;
    let verdict = read_accepted_with(stat, &mut at)?;
    *xdr = at;
    Ok(verdict)
}

#[tactic(auto, unfolding(crate::specs::Replies::denied_at))]
fn read_denied(xdr: &mut Xdr) -> Result<Verdict, RpcBad>
    ensures { Advances (λ v. v) result xdr.old.rest.now xdr.new.rest.now (denied_at xdr.old.rest.now) }
{
    let mut at = *xdr;
    let stat = at.u32()?;
    let verdict = read_denied_with(stat, &mut at)?;
    *xdr = at;
    Ok(verdict)
}

#[tactic(auto, unfolding(crate::specs::Replies::verdict_at))]
fn read_verdict(xdr: &mut Xdr) -> Result<Verdict, RpcBad>
    ensures { Advances (λ v. v) result xdr.old.rest.now xdr.new.rest.now (verdict_at xdr.old.rest.now) }
{
    let mut at = *xdr;
    let verdict = match at.u32()? {
        ACCEPTED => read_accepted(&mut at)?,
        DENIED => read_denied(&mut at)?,
        _ => return Err(RpcBad::Value),
    };
    *xdr = at;
    Ok(verdict)
}

#[tactic(auto, unfolding(crate::specs::Replies::reply_at))]
fn read_all(bytes: &[u8]) -> Result<Reply<'_>, RpcBad>
    ensures { Gives (λ r. ((r.xid, r.verdict), r.body.rest.now)) result (reply_at bytes.now) }
{
    let mut xdr = Xdr::new(bytes);
    let xid = xdr.u32()?;
    if xdr.u32()? != REPLY {
        return Err(RpcBad::NotCall);
    }
    let verdict = read_verdict(&mut xdr)?;
    Ok(Reply {
        xid,
        verdict,
        body: xdr,
    })
}

/// The reply at the front of a record, with what stands behind it unread. A fault is the first in reading order: Short
/// if the bytes end within it, NotCall if the message type is not 1, Value if a stat is none of its item or the
/// verifier of an accepted reply is not AUTH_NONE, TooLong if that verifier has bytes.
pub fn read_reply(bytes: &[u8]) -> Result<Reply<'_>, RpcBad>
    // What is read is spelled so.
    ensures found { IfOk result (λ r. (bytes.now ≡ reply r.xid r.verdict ++ r.body.rest.now) × (UnsignedFits r.xid × VerdictFits r.verdict)) }
    // What is spelled so is read, whatever follows.
    ensures only { (xid : ℕ) (v : Verdict) (rest : List ℕ) → UnsignedFits xid → VerdictFits v → bytes.now ≡ reply xid v ++ rest → Gives {Y = (ℕ × Verdict) × List ℕ} (λ r. ((r.xid, r.verdict), r.body.rest.now)) result (Ok ((xid, v), rest)) }
    // Which fault it is.
    ensures exact { Gives (λ r. ((r.xid, r.verdict), r.body.rest.now)) result (reply_at bytes.now) }
{
    read_all(bytes)
}

impl Verdict {
    /// Whether the reply says that the call was denied (MSG_DENIED, RFC 5531 9).
    pub fn is_denied(self) -> bool
        ensures { result ≡ is_denied self }
    {
        matches!(self, Verdict::RpcMismatch(..) | Verdict::AuthError(_))
    }

    /// The accept_stat of an accepted reply, the reject_stat of a denied one (RFC 5531 9).
    pub fn stat(self) -> u32
        ensures { result ≡ stat self }
    {
        match self {
            Verdict::Success => 0,
            Verdict::ProgUnavail => 1,
            Verdict::ProgMismatch(..) => 2,
            Verdict::ProcUnavail => 3,
            Verdict::GarbageArgs => 4,
            Verdict::SystemErr => 5,
            Verdict::RpcMismatch(..) => 0,
            Verdict::AuthError(_) => 1,
        }
    }
}

fn put_detail(out: &mut XdrOut, verdict: Verdict) -> Result<(), AllocError>
    ensures { Puts result out.old out.new (detail verdict) }
{
    match verdict {
        Verdict::ProgMismatch(low, high) | Verdict::RpcMismatch(low, high) => {
            out.u32(low)?;
            out.u32(high)?;
        }
        Verdict::AuthError(why) => out.u32(why)?,
        _ => {}
    }
    Ok(())
}

fn put_told(out: &mut XdrOut, verdict: Verdict) -> Result<(), AllocError>
    ensures { Puts result out.old out.new (unsigned (reply_stat verdict) ++ told verdict) }
{
    if verdict.is_denied() {
        out.u32(DENIED)?;
    } else {
        out.u32(ACCEPTED)?;
        out.u32(AUTH_NONE)?;
        out.u32(0)?;
    }
    out.u32(verdict.stat())?;
    put_detail(out, verdict)?;
    Ok(())
}

#[tactic(auto, unfolding(crate::specs::Replies::reply))]
fn put_reply(out: &mut XdrOut, xid: u32, verdict: Verdict) -> Result<(), AllocError>
    ensures { Puts result out.old out.new (reply xid verdict) }
{
    out.u32(xid)?;
    out.u32(REPLY)?;
    put_told(out, verdict)?;
    Ok(())
}

/// Writes a reply up to its results, which follow it if the verdict is Success. Want of memory leaves what was
/// written before as it was.
#[tactic(auto, using(crate::proofs::XdrLaws::taken_back, crate::proofs::ReplyLaws::reply_again))]
pub fn write_reply(out: &mut XdrOut, xid: u32, verdict: Verdict) -> Result<(), AllocError>
    ensures ok { OnOk result (out.new ≡ out.old ++ reply xid verdict) }
    ensures again { OnOk result (IsReadAgain reply_at (xid, verdict) out.old out.new) }
    ensures err { OnErr result (out.new ≡ out.old) }
{
    out.reserve(REPLY_ROOM)?;
    put_whole!(out; put_reply(out, xid, verdict))
}
