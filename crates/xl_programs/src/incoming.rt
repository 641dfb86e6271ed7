//! What becomes of a record before a front reads its arguments.
ghost use Rattle.std.specs.Prelude.{◌≡◌, ◌≤◌, true, length, IfOk};
ghost use Rattle.xl_rpc.specs.Calls.{shown_head};
ghost use Rattle.xl_programs.specs.Programs.{serves, shown_incoming, in_program, in_some, incoming_at, IsServed};
ghost use Rattle.xl_programs.specs.Sent.{refusal_of};

use crate::program::Program;
use std::alloc::{AllocError, Global};
use xl_rpc::{Call, RPC_VERSION, RpcBad, Verdict, Xdr, XdrOut, read_call, write_reply};

/// A call of a procedure that is served.
#[derive(Clone, Copy)]
pub struct Request<'a> {
    /// The program.
    pub program: Program,
    /// The number of the call, which its reply repeats.
    pub xid: u32,
    /// The procedure.
    pub procedure: u32,
    /// The arguments, unread.
    pub arguments: Xdr<'a>,
}

/// What a record is.
#[derive(Clone, Copy)]
pub enum Incoming<'a> {
    /// No call of ONC RPC: it is not answered.
    Unanswered,
    /// A call of this number that is answered by this verdict alone.
    Refused(u32, Verdict),
    /// A call of a procedure that is served.
    Asked(Request<'a>),
}

/// A call of this program: its version and the procedure are judged in this order.
#[tactic(auto, unfolding(crate::specs::Programs::in_program))]
fn in_program<'a>(call: Call<'a>, program: Program) -> Incoming<'a>
    ensures value { shown_incoming result ≡ in_program (shown_head call.entry.head) call.entry.args.rest.now program }
    ensures served { IsServed result }
{
    let xid = call.head.xid;
    let version = program.version();
    if call.head.vers != version {
        Incoming::Refused(xid, Verdict::ProgMismatch(version, version))
    } else if !program.serves(call.head.proc) {
        Incoming::Refused(xid, Verdict::ProcUnavail)
    } else {
        Incoming::Asked(Request {
            program,
            xid,
            procedure: call.head.proc,
            arguments: call.args,
        })
    }
}

/// What a record without its frame is: no call (RFC 5531 9) is not answered, except one of another RPC version, with
/// RPC_MISMATCH; then PROG_UNAVAIL, PROG_MISMATCH and PROC_UNAVAIL are answered, in this order.
#[tactic(auto, unfolding(crate::specs::Programs::incoming_at))]
pub fn read_incoming(bytes: &[u8]) -> Incoming<'_>
    ensures value { shown_incoming result ≡ incoming_at bytes.now }
    ensures served { IsServed result }
{
    match read_call(bytes) {
        Ok(call) => match Program::at(call.head.prog) {
            Some(program) => in_program(call, program),
            None => Incoming::Refused(call.head.xid, Verdict::ProgUnavail),
        },
        Err(RpcBad::Version(xid)) => {
            Incoming::Refused(xid, Verdict::RpcMismatch(RPC_VERSION, RPC_VERSION))
        }
        Err(_) => Incoming::Unanswered,
    }
}

/// A reply without results: 32 bytes at most.
#[tactic(auto, using(crate::proofs::ReplyLaws::reply_little))]
pub fn refusal(alloc: Global, xid: u32, verdict: Verdict) -> Result<Vec<u8>, AllocError>
    ensures reply { IfOk result (λ v. v.items ≡ refusal_of xid verdict) }
    ensures little { IfOk result (λ v. length v.items ≤ 32) }
{
    let mut out = XdrOut::new(alloc);
    write_reply(&mut out, xid, verdict)?;
    Ok(out.done())
}
