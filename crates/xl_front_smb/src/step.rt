//! What a message of an SMB connection is answered (MS-SMB2 3.3.5).
ghost use Rattle.std.specs.Prelude.{◌≡◌, ℕ, ◌≤◌, length, option_map, IfSome, IfOk, OnOk};
ghost use Rattle.std.specs.List.{AllByRecursion};
ghost use Rattle.xl_base.specs.Limits.{most_message_bytes};
ghost use Rattle.xl_plan.specs.Keepers.{HandsTo};
ghost use Rattle.xl_programs.specs.Sent.{FitsFrame};
ghost use Rattle.xl_core.specs.State.{MayBe};
ghost use Rattle.xl_front_smb.specs.FrontSmb.{sent_by, smb_step, smb_shown};
ghost use Rattle.xl_front_smb.specs.Short.{IsReady, Leaves};

use crate::arrival::{Arrival, Packet};
use crate::ending::dismiss_all;
use crate::front::SmbFront;
use crate::replies::reply_of;
use crate::requests::requested;
use std::alloc::{AllocError, Global};
use xl_base::{Exports, Keeper, Out, Sequence};
use xl_core::{Core, Effect};
use xl_programs::sent_to;
use xl_smb::read_head;
use xl_smb_locks::{push_all, tell};

/// What is sent to a connection, if it is answered.
fn sent_by(alloc: Global, conn: u64, reply: Option<Vec<u8>>) -> Result<Sequence<Out>, AllocError>
    requires little { IfSome reply (λ v. length v.items ≤ most_message_bytes) }
    ensures value { IfOk result (λ outs. outs ≡ sent_by conn (option_map (λ v. v.items) reply)) }
    ensures little { IfOk result (λ outs. AllByRecursion FitsFrame outs) }
{
    match reply {
        Some(bytes) => sent_to(alloc, conn, bytes),
        None => Ok(Sequence::new(alloc)),
    }
}

/// Answers a message of an SMB connection: the final replies to the requests that it cancels, in order of arrival, and
/// its own reply, if there is one, each without its frame and at most 65,536 bytes long; and what the core told of
/// besides. The other fronts have this number of opens. NEGOTIATE, SESSION_SETUP, LOGOFF, TREE_CONNECT,
/// TREE_DISCONNECT, CREATE, CLOSE, LOCK, CANCEL, ECHO and acknowledgements of the breaks of oplocks and leases are
/// served. A CREATE that the core lets wait, for the end of grace or for a cache in its way, is pending, and so is a LOCK. A
/// CANCEL gets no reply, nor does what has no header of SMB 2.1 or is a reply by its flags. The breaks that begin for it come
/// first among what the core tells of. After an error nothing is known of the front and the core.
#[tactic(auto, unfolding(crate::specs::FrontSmb::smb_step), using(xl_plan::proofs::BudgetLaws::leaves_self, xl_plan::proofs::BudgetLaws::leaves_more, xl_plan::proofs::BudgetLaws::ready_less, xl_smb_locks::proofs::FinalLaws::fit_both))]
pub fn smb_step<K: Keeper>(
    alloc: Global,
    exports: &Exports,
    front: &mut SmbFront,
    core: &mut Core,
    keeper: &mut K,
    packet: &Packet<'_>,
    others: u32,
) -> Result<(Sequence<Out>, Sequence<Effect>), AllocError>
    requires ready { IsReady 3 core.old }
    ensures state { (n : ℕ) → IfOk result (λ r. MayBe n core.new → smb_step n exports.now others front.old core.old packet.now.conn packet.now.bytes.now ≡ (r.0, r.1, front.new, core.new)) }
    ensures leaves { OnOk result (Leaves 3 core.old core.new) }
    ensures little { IfOk result (λ r. AllByRecursion FitsFrame r.0) }
    ensures keeper { OnOk result (HandsTo K.held K.given K.faults K.left core.old core.new keeper.old keeper.new) }
{
    let Ok(head) = read_head(packet.bytes) else {
        return Ok((Sequence::new(alloc), Sequence::new(alloc)));
    };
    if head.is_reply() {
        return Ok((Sequence::new(alloc), Sequence::new(alloc)));
    }
    let arrival = Arrival {
        files: exports.files.as_slice(),
        others,
        conn: packet.conn,
        head: &head,
    };
    let (told, effects) = requested(
        alloc,
        &mut front.state,
        core,
        keeper,
        &arrival,
        packet.bytes,
    )?;
    let mut outs = dismiss_all(alloc, &mut front.state, effects.as_slice())?;
    let reply = reply_of(alloc, &head, told)?;
    push_all(&mut outs, sent_by(alloc, packet.conn, reply)?)?;
    Ok((outs, effects))
}

/// What is sent for an effect of the core, in the state that it left, without its frame: the notice of a break to who holds the
/// open (MS-SMB2 3.3.4.6), and the final reply to a request that waited, and was served or waits no more (3.3.4.4). The request
/// is forgotten then, and the open that it waited to make stands. All else sends nothing.
#[tactic(auto, unfolding(crate::specs::FrontSmb::smb_shown))]
pub fn smb_shown(
    alloc: Global,
    front: &mut SmbFront,
    core: &Core,
    effect: &Effect,
) -> Result<Sequence<Out>, AllocError>
    ensures state { IfOk result (λ outs. smb_shown front.old core.now effect.now ≡ (outs, front.new)) }
    ensures little { IfOk result (λ outs. AllByRecursion FitsFrame outs) }
{
    tell(alloc, &mut front.state, core, effect)
}
