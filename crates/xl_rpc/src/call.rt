//! Calls (RFC 5531 9).
ghost use Rattle.std.specs.Prelude.{◌≡◌, ℕ, ◌≤◌, List, ◌++◌, length, OnOk, OnErr, IfOk, Ok};
ghost use Rattle.xl_base.specs.Codec.{Advances};
ghost use Rattle.xl_base.specs.Results.{Gives};
ghost use Rattle.xl_rpc.specs.Xdr.{IsReadAgain, Keeps, Puts};
ghost use Rattle.xl_rpc.specs.Calls.{HeadItem, AuthFits, HeadFits, shown_auth, shown_head, auth, call, auth_at, call_at};

use crate::fault::RpcBad;
use crate::put_whole;
use crate::writer::XdrOut;
use crate::xdr::Xdr;
use std::alloc::AllocError;

/// A credential or a verifier (RFC 5531 8.2). It is read and written, and not judged.
#[derive(Clone, Copy)]
pub struct Auth<'a> {
    /// The flavor; AUTH_NONE is 0.
    pub flavor: u32,
    /// The body, at most 400 bytes.
    pub body: &'a [u8],
}

/// What stands before a call's arguments.
#[derive(Clone, Copy)]
pub struct CallHead<'a> {
    /// The number by which the reply names the call.
    pub xid: u32,
    /// The program.
    pub prog: u32,
    /// The program's version.
    pub vers: u32,
    /// The procedure.
    pub proc: u32,
    /// The credential.
    pub cred: Auth<'a>,
    /// The verifier.
    pub verf: Auth<'a>,
}

/// A call.
#[derive(Clone, Copy)]
pub struct Call<'a> {
    /// What stands before the arguments.
    pub head: CallHead<'a>,
    /// A reader of the arguments and of what stands behind them.
    pub args: Xdr<'a>,
}

const CALL: u32 = 0;

/// The version of ONC RPC (RFC 5531).
pub const RPC_VERSION: u32 = 2;

const MAX_AUTH_BYTES: u32 = 400;

#[tactic(auto, unfolding(crate::specs::Calls::auth_at))]
fn read_auth<'a>(xdr: &mut Xdr<'a>) -> Result<Auth<'a>, RpcBad>
    ensures { Advances shown_auth result xdr.old.rest.now xdr.new.rest.now (auth_at xdr.old.rest.now) }
{
    let mut at = *xdr;
    let flavor = at.u32()?;
    let body = at.opaque(MAX_AUTH_BYTES)?;
    *xdr = at;
    Ok(Auth { flavor, body })
}

#[tactic(auto, unfolding(crate::specs::Calls::call_at))]
fn read_head(bytes: &[u8]) -> Result<Call<'_>, RpcBad>
    ensures exact { Gives (λ c. (shown_head c.head, c.args.rest.now)) result (call_at bytes.now) }
{
    let mut xdr = Xdr::new(bytes);
    let xid = xdr.u32()?;
    if xdr.u32()? != CALL {
        return Err(RpcBad::NotCall);
    }
    if xdr.u32()? != RPC_VERSION {
        return Err(RpcBad::Version(xid));
    }
    let prog = xdr.u32()?;
    let vers = xdr.u32()?;
    let proc = xdr.u32()?;
    let cred = read_auth(&mut xdr)?;
    let verf = read_auth(&mut xdr)?;
    let head = CallHead {
        xid,
        prog,
        vers,
        proc,
        cred,
        verf,
    };
    Ok(Call { head, args: xdr })
}

/// The call at the front of a record, with its arguments unread. A fault is the first in reading order: Short if the
/// bytes end within the head, NotCall if the message type is not 0, Version if the RPC version is not 2, TooLong
/// if a credential or verifier has more than 400 bytes, Pad if its padding is not zero.
pub fn read_call(bytes: &[u8]) -> Result<Call<'_>, RpcBad>
    // What is read is spelled so.
    ensures found { IfOk result (λ c. (bytes.now ≡ call (shown_head c.head) ++ c.args.rest.now) × HeadFits (shown_head c.head)) }
    // What is spelled so is read, whatever follows.
    ensures only { (h : HeadItem) (rest : List ℕ) → HeadFits h → bytes.now ≡ call h ++ rest → Gives {Y = HeadItem × List ℕ} (λ c. (shown_head c.head, c.args.rest.now)) result (Ok (h, rest)) }
    // Which fault it is.
    ensures exact { Gives (λ c. (shown_head c.head, c.args.rest.now)) result (call_at bytes.now) }
{
    read_head(bytes)
}

#[tactic(auto, unfolding(crate::specs::Calls::auth))]
fn put_auth(out: &mut XdrOut, value: &Auth) -> Result<(), AllocError>
    requires { AuthFits (shown_auth value.now) }
    ensures { Puts result out.old out.new (auth (shown_auth value.now)) }
{
    out.u32(value.flavor)?;
    out.opaque(value.body)?;
    Ok(())
}

#[tactic(auto, unfolding(crate::specs::Calls::call, crate::specs::Calls::HeadFits))]
fn put_head(out: &mut XdrOut, head: &CallHead) -> Result<(), AllocError>
    requires { HeadFits (shown_head head.now) }
    ensures ok { OnOk result (out.new ≡ out.old ++ call (shown_head head.now)) }
    ensures kept { Keeps out.old out.new }
{
    out.u32(head.xid)?;
    out.u32(CALL)?;
    out.u32(RPC_VERSION)?;
    out.u32(head.prog)?;
    out.u32(head.vers)?;
    out.u32(head.proc)?;
    put_auth(out, &head.cred)?;
    put_auth(out, &head.verf)?;
    Ok(())
}

/// Writes the head of a call, whose credential and verifier have at most 400 bytes; the arguments follow it. Want of memory leaves what was written before as it was.
#[tactic(auto, using(crate::proofs::XdrLaws::taken_back, crate::proofs::CallLaws::call_again))]
pub fn write_call(out: &mut XdrOut, head: &CallHead) -> Result<(), AllocError>
    requires { HeadFits (shown_head head.now) }
    ensures ok { OnOk result (out.new ≡ out.old ++ call (shown_head head.now)) }
    ensures again { OnOk result (IsReadAgain call_at (shown_head head.now) out.old out.new) }
    ensures err { OnErr result (out.new ≡ out.old) }
{
    put_whole!(out; put_head(out, head))
}
