//! How what a request is answered is spelled.
ghost use Rattle.std.specs.Prelude.{◌≡◌, ℕ, true, ◌≤◌, length, option_map, IfOk, IfSome};
ghost use Rattle.xl_smb.specs.Leases.{are_contexts};
ghost use Rattle.xl_smb.specs.Heads.{command_of};
ghost use Rattle.xl_base.specs.Limits.{most_message_bytes};
ghost use Rattle.xl_smb.specs.Replies.{shown_reply};
ghost use Rattle.xl_smb.specs.Sessions.{shown_negotiate_reply};
ghost use Rattle.xl_front_smb.specs.Replies.{credits_for, tree_id, reply_head, pending_head, head_by, negotiated, contexts_of, body_of, reply_of, IsAnswer};

use crate::told::Told;
use std::alloc::{AllocError, Global};
use xl_smb::{
    Break, CloseReply, Command, NegotiateReply, Route, SessionSetupReply, SmbHead, SmbMessage,
    SmbReply, TreeConnectReply, write,
};
use xl_smb_locks::{FinalReply, PENDING, SUCCESS, contexts_told, file_id, file_of, final_body};

/// The credits that are granted if so many are asked for.
#[tactic(auto, unfolding(crate::specs::Replies::credits_for))]
fn credits_for(asked: u16) -> u16
    ensures { result ≡ credits_for asked }
{
    asked.max(1).min(512)
}

/// The tree connect that a request names, 0 for none.
pub(crate) fn tree_id(route: Route) -> u32
    ensures { result ≡ tree_id route }
{
    match route {
        Route::Tree(id) => id,
        Route::Async(_) => 0,
    }
}

/// The header of a reply.
#[tactic(auto, unfolding(crate::specs::Replies::reply_head))]
fn reply_head(head: &SmbHead, status: u32, tree: u32, session: u64) -> SmbHead
    ensures { result ≡ reply_head head.now status tree session }
{
    SmbHead {
        credit_charge: head.credit_charge,
        status,
        command: head.command,
        credits: credits_for(head.credits),
        flags: 1,
        next_command: 0,
        message_id: head.message_id,
        route: Route::Tree(tree),
        session_id: session,
        signature: [0; 16],
    }
}

/// The header of STATUS_PENDING, which names the AsyncId.
#[tactic(auto, unfolding(crate::specs::Replies::pending_head))]
fn pending_head(head: &SmbHead, id: u32) -> SmbHead
    ensures { result ≡ pending_head head.now id }
{
    SmbHead {
        credit_charge: head.credit_charge,
        status: PENDING,
        command: head.command,
        credits: credits_for(head.credits),
        flags: 3,
        next_command: 0,
        message_id: head.message_id,
        route: Route::Async(u64::from(id)),
        session_id: head.session_id,
        signature: [0; 16],
    }
}

/// The header of the reply that says this.
fn head_by(head: &SmbHead, told: Told) -> SmbHead
    ensures { result ≡ head_by head.now told }
{
    let tree = tree_id(head.route);
    match told {
        Told::Failed(status) => reply_head(head, status.number(), tree, head.session_id),
        Told::SetUp(session) => reply_head(head, SUCCESS, tree, session),
        Told::Connected(tree) => reply_head(head, SUCCESS, tree, head.session_id),
        Told::Pending(id) => pending_head(head, id),
        Told::Nothing
        | Told::Negotiated
        | Told::LoggedOff
        | Told::Disconnected
        | Told::Opened(_, _)
        | Told::Acknowledged(_, _)
        | Told::Answered(_)
        | Told::Closed
        | Told::Locked
        | Told::Echoed => reply_head(head, SUCCESS, tree, head.session_id),
    }
}

/// The body of a reply to NEGOTIATE.
fn negotiated() -> NegotiateReply<'static>
    ensures { shown_negotiate_reply result ≡ negotiated }
{
    NegotiateReply {
        security_mode: 1,
        dialect: 0x0210,
        server_guid: [0; 16],
        capabilities: 2,
        max_transact: 65_536,
        max_read: 65_536,
        max_write: 65_536,
        system_time: 0,
        start_time: 0,
        buffer: &[],
    }
}

/// The contexts of the reply that says this: those of a file that is open.
fn contexts_of(alloc: Global, told: Told) -> Result<Vec<u8>, AllocError>
    ensures list { IfOk result (λ list. list.items ≡ contexts_of told) }
    ensures within { IfOk result (λ list. are_contexts list.items ≡ true) }
    ensures little { IfOk result (λ list. length list.items ≤ 56) }
{
    match told {
        Told::Opened(_, cache) => Ok(contexts_told(alloc, cache)?),
        _ => Ok(Vec::new(alloc)),
    }
}

/// The body of the reply that says this with these contexts, if one is sent.
fn body_of(told: Told, contexts: &[u8]) -> Option<SmbReply<'_>>
    requires { contexts.now ≡ contexts_of told }
    ensures { option_map shown_reply result ≡ body_of told }
{
    match told {
        Told::Nothing => None,
        Told::Failed(status) => Some(final_body(FinalReply::Failed(status), contexts)),
        Told::Negotiated => Some(SmbReply::Negotiate(negotiated())),
        Told::SetUp(_) => Some(SmbReply::SessionSetup(SessionSetupReply {
            flags: 1,
            buffer: &[],
        })),
        Told::LoggedOff => Some(SmbReply::Logoff),
        Told::Connected(_) => Some(SmbReply::TreeConnect(TreeConnectReply {
            share_type: 1,
            flags: 0,
            capabilities: 0,
            maximal_access: 0x001F_01FF,
        })),
        Told::Disconnected => Some(SmbReply::TreeDisconnect),
        Told::Opened(id, cache) => Some(final_body(FinalReply::Opened(id, cache), contexts)),
        Told::Acknowledged(id, level) => {
            Some(SmbReply::OplockBreak(Break::Oplock(level, file_id(id))))
        }
        Told::Answered(lease) => Some(SmbReply::OplockBreak(Break::Lease(lease))),
        Told::Locked => Some(final_body(FinalReply::Locked, contexts)),
        Told::Pending(_) => Some(SmbReply::Error),
        Told::Closed => Some(SmbReply::Close(CloseReply {
            flags: 0,
            status: file_of(0),
        })),
        Told::Echoed => Some(SmbReply::Echo),
    }
}

/// The reply to a request of this header, if one is sent.
#[tactic(auto, unfolding(crate::specs::Replies::reply_of), using(crate::proofs::ReplyLaws::reply_stands, crate::proofs::ReplyLaws::reply_little))]
pub(crate) fn reply_of(
    alloc: Global,
    head: &SmbHead,
    told: Told,
) -> Result<Option<Vec<u8>>, AllocError>
    requires { IsAnswer (command_of head.now.command) told }
    ensures reply { IfOk result (λ reply. option_map (λ v. v.items) reply ≡ reply_of head.now told) }
    ensures little { IfOk result (λ reply. IfSome reply (λ v. length v.items ≤ most_message_bytes)) }
{
    if head.command == Command::Cancel.number() {
        return Ok(None);
    }
    let contexts = contexts_of(alloc, told)?;
    let Some(body) = body_of(told, &contexts) else {
        return Ok(None);
    };
    let message = SmbMessage::Reply(head_by(head, told), body);
    Ok(Some(write(alloc, &message)?))
}
