//! The end of opens, sessions and connections.
ghost use Rattle.std.specs.Prelude.{◌≡◌, ℕ, [], ◌++◌, Some, IsSome, IfOk, OnOk};
ghost use Rattle.std.specs.List.{AllByRecursion};
ghost use Rattle.xl_programs.specs.Sent.{FitsFrame};
ghost use Rattle.xl_smb_state.specs.State.{session_of, sessions_on, trees_of, opens_under};
ghost use Rattle.xl_smb_state.specs.declared.row.Scope.TheVariants as scope;
ghost use Rattle.xl_core.specs.Settle.{close_open};
ghost use Rattle.xl_plan.specs.Keepers.{IsQuiet};
ghost use Rattle.xl_front_smb.specs.Ending.{party_going, leavers, without_party, leavers_under, all_dismissed, all_ended, all_closed, trees_dropped, session_gone, sessions_gone, connection_gone, requests_gone, requests_dropped, smb_end};
ghost use Rattle.xl_front_smb.specs.Short.{IsReady, Leaves};

use crate::front::SmbFront;
use std::alloc::{AllocError, Global};
use xl_base::{Out, Party, Sequence};
use xl_core::{Core, Effect};
use xl_smb_locks::{dismiss, party_of};
use xl_smb_state::{Scope, SmbState};

/// Puts effects behind others.
fn push_all(effects: &mut Sequence<Effect>, more: Sequence<Effect>) -> Result<(), AllocError>
    ensures { OnOk result (effects.new ≡ effects.old ++ more) }
{
    for effect in more.into_vec() {
        effects.push(effect)?;
    }
    Ok(())
}

/// The party whose caches go with an open: its own, or the lease's that it is the last open of.
pub(crate) fn party_going(core: &Core, state: &SmbState, number: u32) -> Option<Party>
    ensures { result ≡ party_going core.now.names state.now number }
{
    let row = state.find_open(number)?;
    if state.is_last_open(number) {
        Some(party_of(core, number, row))
    } else {
        None
    }
}

/// An open that is closed, with the party whose caches go with it.
type Leaver = (u32, Option<Party>);

/// Ends an open: all that it holds and waits for goes, and the effects come behind those before.
fn end_one(
    alloc: Global,
    core: &mut Core,
    leaver: Leaver,
    effects: &mut Sequence<Effect>,
) -> Result<(), AllocError>
    requires ready { IsReady 0 core.old }
    ensures state { OnOk result (core.new ≡ (close_open core.old leaver.0 leaver.1).1) }
    ensures told { OnOk result (effects.new ≡ effects.old ++ (close_open core.old leaver.0 leaver.1).0) }
    ensures leaves { OnOk result (Leaves 0 core.old core.new) }
    ensures quiet { OnOk result (IsQuiet core.old core.new) }
{
    let told = core.close_open(alloc, leaver.0, leaver.1)?;
    push_all(effects, told)?;
    Ok(())
}

/// Ends these opens, one after the other.
#[tactic(auto, using(xl_smb_locks::proofs::LeaveLaws::ready_on))]
fn end_all(
    alloc: Global,
    core: &mut Core,
    leavers: &[Leaver],
) -> Result<Sequence<Effect>, AllocError>
    requires ready { IsReady 0 core.old }
    ensures state { IfOk result (λ effects. all_ended leavers.now core.old ≡ (effects, core.new)) }
    ensures leaves { OnOk result (Leaves 0 core.old core.new) }
    ensures quiet { OnOk result (IsQuiet core.old core.new) }
{
    let mut effects = Sequence::new(alloc);
    'opens: for leaver in leavers {
        end_one(alloc, core, *leaver, &mut effects)?;
    }
    Ok(effects)
}

/// Closes these opens, which are those under it; each with the party whose caches go with it.
#[tactic(auto, using(crate::proofs::EndLaws::open_there, crate::proofs::EndLaws::opens_step, crate::proofs::EndLaws::closed_step, crate::proofs::EndLaws::leavers_step))]
fn close_all(
    alloc: Global,
    state: &mut SmbState,
    core: &Core,
    under: Scope,
    numbers: &[u32],
) -> Result<Vec<Leaver>, AllocError>
    requires listed { opens_under under state.old ≡ numbers.now }
    ensures leavers { IfOk result (λ v. v.items ≡ leavers core.now.names state.old numbers.now) }
    ensures closed { OnOk result (state.new ≡ all_closed numbers.now state.old) }
    ensures none { OnOk result (opens_under under state.new ≡ []) }
{
    let mut leavers = Vec::new(alloc);
    'opens: for number in numbers {
        state.links();
        leavers.push((*number, party_going(core, state, *number)))?;
        state.close(alloc, *number);
    }
    Ok(leavers)
}

/// Puts those behind the others that requests wait to make, which have no caches.
#[tactic(auto, using(crate::proofs::EndLaws::creates_step))]
fn push_creates(leavers: &mut Vec<Leaver>, creates: &[u32]) -> Result<(), AllocError>
    ensures { OnOk result (leavers.new.items ≡ leavers.old.items ++ without_party creates.now) }
{
    'creates: for number in creates {
        leavers.push((*number, None))?;
    }
    Ok(())
}

/// Ends and closes the opens under it, and ends those that requests under it wait to make.
pub(crate) fn end_under(
    alloc: Global,
    state: &mut SmbState,
    core: &mut Core,
    under: Scope,
) -> Result<Sequence<Effect>, AllocError>
    requires ready { IsReady 0 core.old }
    ensures core { IfOk result (λ effects. all_ended (leavers_under core.old.names under state.old) core.old ≡ (effects, core.new)) }
    ensures closed { OnOk result (state.new ≡ all_closed (opens_under under state.old) state.old) }
    ensures none { OnOk result (opens_under under state.new ≡ []) }
    ensures leaves { OnOk result (Leaves 0 core.old core.new) }
    ensures quiet { OnOk result (IsQuiet core.old core.new) }
{
    let opens = state.under(alloc, under)?;
    let creates = state.creates_under(alloc, under)?;
    let mut leavers = close_all(alloc, state, core, under, &opens)?;
    push_creates(&mut leavers, &creates)?;
    let effects = end_all(alloc, core, &leavers)?;
    Ok(effects)
}

/// Takes out these tree connects, which are those of the session, under which no open is.
#[tactic(auto, using(crate::proofs::EndLaws::tree_there, crate::proofs::EndLaws::tree_free, crate::proofs::EndLaws::trees_step, crate::proofs::EndLaws::dropped_step))]
fn drop_trees(state: &mut SmbState, session: u32, numbers: &[u32])
    requires listed { trees_of session state.old ≡ numbers.now }
    requires free { opens_under (scope.Session session) state.old ≡ [] }
    ensures dropped { state.new ≡ trees_dropped numbers.now state.old }
    ensures none { trees_of session state.new ≡ [] }
{
    'trees: for number in numbers {
        state.links();
        state.drop_tree(*number);
    }
}

/// Takes out a session, under which no open is, with its tree connects.
#[tactic(auto, unfolding(crate::specs::Ending::session_gone), using(crate::proofs::EndLaws::session_stays))]
pub(crate) fn end_session(
    alloc: Global,
    state: &mut SmbState,
    session: u32,
) -> Result<(), AllocError>
    requires there { IsSome (session_of session state.old) }
    requires free { opens_under (scope.Session session) state.old ≡ [] }
    ensures { OnOk result (state.new ≡ session_gone session state.old) }
{
    let trees = state.trees_of(alloc, session)?;
    drop_trees(state, session, &trees);
    state.drop_session(session);
    Ok(())
}

/// Takes out these sessions, which are those on the connection, under which no open is.
#[tactic(auto, using(crate::proofs::EndLaws::session_there, crate::proofs::EndLaws::session_free, crate::proofs::EndLaws::sessions_step, crate::proofs::EndLaws::gone_step, crate::proofs::EndLaws::opens_stay))]
fn end_sessions(
    alloc: Global,
    state: &mut SmbState,
    conn: u64,
    numbers: &[u32],
) -> Result<(), AllocError>
    requires listed { sessions_on conn state.old ≡ numbers.now }
    requires free { opens_under (scope.Connection conn) state.old ≡ [] }
    ensures gone { OnOk result (state.new ≡ sessions_gone numbers.now state.old) }
    ensures none { OnOk result (sessions_on conn state.new ≡ []) }
{
    'sessions: for number in numbers {
        state.links();
        end_session(alloc, state, *number)?;
    }
    Ok(())
}

/// Takes out a connection, under which no open is, with its sessions.
#[tactic(auto, unfolding(crate::specs::Ending::connection_gone), using(crate::proofs::EndLaws::no_connection))]
fn end_connection(alloc: Global, state: &mut SmbState, conn: u64) -> Result<(), AllocError>
    requires free { opens_under (scope.Connection conn) state.old ≡ [] }
    ensures { OnOk result (state.new ≡ connection_gone conn state.old) }
{
    let sessions = state.sessions_on(alloc, conn)?;
    end_sessions(alloc, state, conn, &sessions)?;
    if state.find_connection(conn).is_some() {
        state.drop_connection(conn);
    }
    Ok(())
}

/// Forgets these requests that wait.
#[tactic(auto, using(crate::proofs::FinalLaws::drop_there, crate::proofs::FinalLaws::drop_none))]
fn drop_requests(state: &mut SmbState, numbers: &[u32])
    ensures { state.new ≡ requests_dropped numbers.now state.old }
{
    'requests: for number in numbers {
        if state.find_waiting(*number).is_some() {
            state.drop_waiting(*number);
        }
    }
}

/// Forgets the requests that wait and came by a connection.
#[tactic(auto, using(crate::proofs::FinalLaws::forgotten))]
fn forget_requests(alloc: Global, state: &mut SmbState, conn: u64) -> Result<(), AllocError>
    ensures { OnOk result (state.new ≡ requests_gone conn state.old) }
{
    state.links();
    let numbers = state.waiting_under(alloc, Scope::Connection(conn))?;
    drop_requests(state, &numbers);
    Ok(())
}

/// Answers those of whom these effects tell that they wait no more.
pub(crate) fn dismiss_all(
    alloc: Global,
    state: &mut SmbState,
    effects: &[Effect],
) -> Result<Sequence<Out>, AllocError>
    ensures state { IfOk result (λ outs. all_dismissed effects.now state.old ≡ (outs, state.new)) }
    ensures little { IfOk result (λ outs. AllByRecursion FitsFrame outs) }
{
    if let [] = effects {
        return Ok(Sequence::new(alloc));
    }
    let numbers = state.waiting(alloc)?;
    let outs = dismiss(alloc, state, effects, &numbers)?;
    Ok(outs)
}

/// The connection of this number ends: each open under it ends with all that it holds and waits for, in the order in which
/// they came, and so do those that requests under it wait to make; its sessions and tree connects go, and its requests that wait
/// are forgotten. What the core tells of is handed on; nothing is sent, and nothing is stored.
#[tactic(auto, unfolding(crate::specs::Ending::smb_end))]
pub fn smb_end(
    alloc: Global,
    front: &mut SmbFront,
    core: &mut Core,
    conn: u64,
) -> Result<Sequence<Effect>, AllocError>
    requires ready { IsReady 0 core.old }
    ensures state { IfOk result (λ effects. smb_end front.old core.old conn ≡ (effects, front.new, core.new)) }
    ensures leaves { OnOk result (Leaves 0 core.old core.new) }
    ensures quiet { OnOk result (IsQuiet core.old core.new) }
{
    let effects = end_under(alloc, &mut front.state, core, Scope::Connection(conn))?;
    end_connection(alloc, &mut front.state, conn)?;
    forget_requests(alloc, &mut front.state, conn)?;
    let _unsent = dismiss_all(alloc, &mut front.state, effects.as_slice())?;
    Ok(effects)
}
