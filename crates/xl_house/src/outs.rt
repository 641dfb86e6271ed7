//! What is sent, in its frames.
ghost use Rattle.std.specs.Prelude.{◌≡◌, ◌≤◌, ◌++◌, [], Some, None, map, vec_capacity, OnOk, IfOk};
ghost use Rattle.std.specs.List.{AllByRecursion};
ghost use Rattle.xl_core.specs.State.{aside_of};
ghost use Rattle.xl_front_nlm.specs.Short.{IsReady, Leaves};
ghost use Rattle.xl_programs.specs.Sent.{FitsFrame};
ghost use Rattle.xl_house.specs.Machine.{sent_of};
ghost use Rattle.xl_base.specs.declared.name.Protocol.TheVariants.{Nlm};
ghost use Rattle.xl_front_nfs.specs.Recalls.{recalls};
ghost use Rattle.xl_front_nfs.specs.State.{nfs_shown};
ghost use Rattle.xl_front_smb.specs.FrontSmb.{smb_shown};
ghost use Rattle.xl_house.specs.Telling.{nfs_sent, smb_sent, shown_by, showing, framed, grants, behind, all_shown};

use crate::layers::Layers;
use std::alloc::{AllocError, Global};
use xl_base::{Dest, Exports, Kind, Out, Protocol, Sequence};
use xl_core::Effect;
use xl_frame::wrap;
use xl_front_nfs::{nfs_shown, recalls};
use xl_front_nlm::{NlmLayers, shown};
use xl_front_smb::smb_shown;

/// An out in its frame, if it goes to a connection of this kind; a call has none.
fn framed(alloc: Global, kind: Kind, out: Out) -> Result<Out, AllocError>
    requires { FitsFrame out }
    ensures { IfOk result (λ o. o ≡ framed kind out) }
{
    let Out { dest, to, bytes } = out;
    let bytes = match dest {
        Dest::Conn(_) => Sequence::from_vec(wrap(alloc, kind, bytes.as_slice())?),
        Dest::Back(_) => bytes,
    };
    Ok(Out { dest, to, bytes })
}

/// An empty list with room for so many outs. A list that grows by itself takes room for four at once, and the journal keeps
/// each.
pub(crate) fn room_for(alloc: Global, many: usize) -> Result<Vec<Out>, AllocError>
    ensures empty { IfOk result (λ outs. outs.items ≡ []) }
    ensures room { IfOk result (λ outs. many ≤ vec_capacity outs) }
{
    Vec::with_capacity(alloc, many)
}

/// Adds these in their frames.
pub(crate) fn send_all(
    alloc: Global,
    kind: Kind,
    sent: Sequence<Out>,
    outs: &mut Sequence<Out>,
) -> Result<(), AllocError>
    requires { AllByRecursion FitsFrame sent }
    ensures { OnOk result (outs.new ≡ outs.old ++ map (framed kind) sent) }
{
    for out in sent.into_vec() {
        outs.push(framed(alloc, kind, out)?)?;
    }
    Ok(())
}

/// Adds what the front of NLM sends for an effect of its own.
fn show_nlm(
    alloc: Global,
    exports: &Exports,
    layers: &mut Layers,
    effect: &Effect,
    outs: &mut Sequence<Out>,
) -> Result<(), AllocError>
    requires ready { IsReady 0 layers.old.core }
    ensures state { OnOk result (behind outs.old (shown_by exports.now layers.old.front layers.old.core effect.now Nlm) ≡ (outs.new, layers.new.front, layers.new.core)) }
    ensures leaves { OnOk result (Leaves 2 layers.old.core layers.new.core) }
{
    let calls = shown(
        alloc,
        exports,
        NlmLayers {
            front: &mut layers.front.nlm,
            core: &mut layers.core,
        },
        effect,
    )?;
    send_all(alloc, Kind::Rpc, calls, outs)?;
    Ok(())
}

/// Adds what the front of NFSv4 sends for an effect of its own. The core stays.
#[tactic(auto, using(xl_front_nlm::proofs::LeaveLaws::leaves_self))]
fn show_nfs(
    alloc: Global,
    layers: &mut Layers,
    effect: &Effect,
    outs: &mut Sequence<Out>,
) -> Result<(), AllocError>
    requires ready { IsReady 0 layers.old.core }
    ensures state { OnOk result (behind outs.old (nfs_sent layers.old.front layers.old.core (recalls layers.old.front.nfs layers.old.core effect.now) (nfs_shown layers.old.front.nfs effect.now)) ≡ (outs.new, layers.new.front, layers.new.core)) }
    ensures leaves { OnOk result (Leaves 2 layers.old.core layers.new.core) }
{
    let calls = recalls(alloc, &layers.front.nfs, &layers.core, effect)?;
    nfs_shown(&mut layers.front.nfs, effect);
    send_all(alloc, Kind::Rpc, calls, outs)?;
    Ok(())
}

/// Adds what the front of SMB sends for an effect of its own. The core stays.
#[tactic(auto, using(xl_front_nlm::proofs::LeaveLaws::leaves_self))]
fn show_smb(
    alloc: Global,
    layers: &mut Layers,
    effect: &Effect,
    outs: &mut Sequence<Out>,
) -> Result<(), AllocError>
    requires ready { IsReady 0 layers.old.core }
    ensures state { OnOk result (behind outs.old (smb_sent layers.old.front layers.old.core (smb_shown layers.old.front.smb layers.old.core effect.now)) ≡ (outs.new, layers.new.front, layers.new.core)) }
    ensures leaves { OnOk result (Leaves 2 layers.old.core layers.new.core) }
{
    let finals = smb_shown(alloc, &mut layers.front.smb, &layers.core, effect)?;
    send_all(alloc, Kind::Smb, finals, outs)?;
    Ok(())
}

/// Adds what the front of this protocol sends for an effect of its own, in the state that it left.
fn show_by(
    alloc: Global,
    exports: &Exports,
    layers: &mut Layers,
    effect: &Effect,
    protocol: Protocol,
    outs: &mut Sequence<Out>,
) -> Result<(), AllocError>
    requires ready { IsReady 0 layers.old.core }
    ensures state { OnOk result (behind outs.old (shown_by exports.now layers.old.front layers.old.core effect.now protocol) ≡ (outs.new, layers.new.front, layers.new.core)) }
    ensures leaves { OnOk result (Leaves 2 layers.old.core layers.new.core) }
{
    match protocol {
        Protocol::Nlm => show_nlm(alloc, exports, layers, effect, outs),
        Protocol::Nfs => show_nfs(alloc, layers, effect, outs),
        Protocol::Smb => show_smb(alloc, layers, effect, outs),
    }
}

/// Adds what is sent for an effect, in the state that it left: one front hears of it, that of the party that it names.
fn show(
    alloc: Global,
    exports: &Exports,
    layers: &mut Layers,
    effect: &Effect,
    outs: &mut Sequence<Out>,
) -> Result<(), AllocError>
    requires ready { IsReady 0 layers.old.core }
    ensures state { OnOk result (behind outs.old (showing exports.now layers.old.front layers.old.core effect.now) ≡ (outs.new, layers.new.front, layers.new.core)) }
    ensures leaves { OnOk result (Leaves 2 layers.old.core layers.new.core) }
{
    show_by(alloc, exports, layers, effect, effect.protocol(), outs)?;
    Ok(())
}

/// Adds what the fronts send for each of these effects.
fn show_each(
    alloc: Global,
    exports: &Exports,
    layers: &mut Layers,
    effects: &[Effect],
    outs: &mut Sequence<Out>,
) -> Result<(), AllocError>
    requires ready { IsReady (grants effects.now) layers.old.core }
    ensures { OnOk result (behind outs.old (all_shown exports.now layers.old.front layers.old.core effects.now) ≡ (outs.new, layers.new.front, layers.new.core)) }
{
    for effect in effects {
        show(alloc, exports, layers, effect, outs)?;
    }
    Ok(())
}

/// Adds what the fronts send for these effects, in order. Numbers are given out to what sends a grant.
#[tactic(auto, using(crate::proofs::ShownLaws::all_leaves))]
pub(crate) fn show_all(
    alloc: Global,
    exports: &Exports,
    layers: &mut Layers,
    effects: &[Effect],
    outs: &mut Sequence<Out>,
) -> Result<(), AllocError>
    requires ready { IsReady (grants effects.now) layers.old.core }
    ensures sent { OnOk result (behind outs.old (all_shown exports.now layers.old.front layers.old.core effects.now) ≡ (outs.new, layers.new.front, layers.new.core)) }
    ensures leaves { OnOk result (Leaves (grants effects.now) layers.old.core layers.new.core) }
    ensures aside { OnOk result (aside_of layers.new.core ≡ aside_of layers.old.core) }
{
    show_each(alloc, exports, layers, effects, outs)?;
    Ok(())
}

/// What the fronts send for these effects.
pub(crate) fn sent_for(
    alloc: Global,
    exports: &Exports,
    layers: &mut Layers,
    effects: Sequence<Effect>,
) -> Result<Sequence<Out>, AllocError>
    requires ready { IsReady (grants effects) layers.old.core }
    ensures sent { IfOk result (λ outs. sent_of exports.now None ([], effects, layers.old.front, layers.old.core) ≡ (outs, layers.new.front, layers.new.core)) }
    ensures leaves { OnOk result (Leaves (grants effects) layers.old.core layers.new.core) }
    ensures aside { OnOk result (aside_of layers.new.core ≡ aside_of layers.old.core) }
{
    let none = Sequence::new(alloc);
    sent_with(alloc, exports, Kind::Rpc, layers, none, effects)
}

/// What the fronts send for these effects, and behind it this reply to a connection of this kind.
pub(crate) fn sent_with(
    alloc: Global,
    exports: &Exports,
    kind: Kind,
    layers: &mut Layers,
    reply: Sequence<Out>,
    effects: Sequence<Effect>,
) -> Result<Sequence<Out>, AllocError>
    requires fits { AllByRecursion FitsFrame reply }
    requires ready { IsReady (grants effects) layers.old.core }
    ensures sent { IfOk result (λ outs. sent_of exports.now (Some kind) (reply, effects, layers.old.front, layers.old.core) ≡ (outs, layers.new.front, layers.new.core)) }
    ensures leaves { OnOk result (Leaves (grants effects) layers.old.core layers.new.core) }
    ensures aside { OnOk result (aside_of layers.new.core ≡ aside_of layers.old.core) }
{
    let mut outs = Sequence::from_vec(room_for(alloc, reply.len())?);
    show_all(alloc, exports, layers, effects.as_slice(), &mut outs)?;
    send_all(alloc, kind, reply, &mut outs)?;
    Ok(outs)
}
