//! The calls that recall delegations (RFC 7530 10.4.4, 18.2).
ghost use Rattle.std.specs.Prelude.{◌≡◌, IfOk, option_copied};
ghost use Rattle.std.specs.List.{AllByRecursion};
ghost use Rattle.xl_programs.specs.Sent.{FitsFrame};
ghost use Rattle.xl_core.specs.BreakAnswers.{client_of, id_of};
ghost use Rattle.xl_front_nfs.specs.Recalls.{client_by, recall_out, recalled_as, recalled_from, recalls};

use crate::front::NfsFront;
use std::alloc::{AllocError, Global};
use xl_base::{Dest, Out, Party, Protocol, Sequence};
use xl_core::{Core, Effect};
use xl_names::{Name, Names};
use xl_nfs::recall_call;
use xl_nfs_opens::stateid_of;
use xl_nfs_state::{ClientRow, NfsState, StateidRow};

/// The id string of a party, if it is an NFSv4 client.
fn client_of<'a>(names: &'a Names, party: Party) -> Option<&'a Sequence<u8>>
    ensures { option_copied result ≡ client_of names.now party }
{
    let Party::Name(Protocol::Nfs, number) = party else {
        return None;
    };
    match names.as_slice().get(number as usize) {
        Some(Name::NfsParty(id)) => Some(id),
        _ => None,
    }
}

/// The confirmed client of this id string.
fn client_by<'a>(state: &'a NfsState, id: Option<&Sequence<u8>>) -> Option<&'a ClientRow>
    ensures { option_copied result ≡ client_by state.now (option_copied id.entry) }
{
    match id {
        Some(id) => state.find_client_named(id.as_slice(), true),
        None => None,
    }
}

/// The call of this number asks the client for this delegation of the file.
fn recall_out(
    alloc: Global,
    core: &Core,
    number: u32,
    file: u32,
    client: &ClientRow,
    row: &StateidRow,
) -> Result<Out, AllocError>
    ensures { IfOk result (λ out. out ≡ recall_out core.now number file client.now row.now) }
{
    let callback = &client.details.callback;
    let stateid = stateid_of(core, row.number, row.standing.seqid);
    let bytes = recall_call(
        alloc,
        number,
        callback.program,
        callback.ident,
        &stateid,
        file,
    )?;
    Ok(Out {
        dest: Dest::Back(u64::from(number)),
        to: Sequence::from_slice(alloc, callback.address.as_slice())?,
        bytes: Sequence::from_vec(bytes),
    })
}

/// The same, if the delegation came before the recall.
fn recalled_as(
    alloc: Global,
    core: &Core,
    number: u32,
    file: u32,
    client: &ClientRow,
    row: Option<&StateidRow>,
) -> Result<Sequence<Out>, AllocError>
    ensures value { IfOk result (λ outs. outs ≡ recalled_as core.now number file client.now (option_copied row.entry)) }
    ensures little { IfOk result (λ outs. AllByRecursion FitsFrame outs) }
{
    let mut outs = Sequence::new(alloc);
    match row {
        Some(row) if row.number < u64::from(number) => {
            outs.push(recall_out(alloc, core, number, file, client, row)?)?;
        }
        _ => {}
    }
    Ok(outs)
}

/// The same of the client's delegation of the file, if it has one.
fn recalled_from(
    alloc: Global,
    core: &Core,
    state: &NfsState,
    number: u32,
    file: u32,
    client: Option<&ClientRow>,
) -> Result<Sequence<Out>, AllocError>
    ensures value { IfOk result (λ outs. outs ≡ recalled_from core.now state.now number file (option_copied client.entry)) }
    ensures little { IfOk result (λ outs. AllByRecursion FitsFrame outs) }
{
    let Some(client) = client else {
        return Ok(Sequence::new(alloc));
    };
    let row = state.find_delegation(client.number, file);
    let outs = recalled_as(alloc, core, number, file, client, row)?;
    Ok(outs)
}

/// What is sent for an effect of the core: the break of a delegation, which has a call's number, asks its client for it
/// by CB_RECALL (RFC 7530 18.2), if the client is called back now. Nothing is sent for another effect, nor for a
/// delegation that was returned already.
#[tactic(auto, unfolding(crate::specs::Recalls::recalls))]
pub fn recalls(
    alloc: Global,
    front: &NfsFront,
    core: &Core,
    effect: &Effect,
) -> Result<Sequence<Out>, AllocError>
    ensures value { IfOk result (λ outs. outs ≡ recalls front.now core.now effect.now) }
    ensures little { IfOk result (λ outs. AllByRecursion FitsFrame outs) }
{
    let Effect::Begun(cache, _, Some(number)) = effect else {
        return Ok(Sequence::new(alloc));
    };
    let client = client_by(&front.state, client_of(core.names(), cache.party));
    let outs = recalled_from(alloc, core, &front.state, *number, cache.file, client)?;
    Ok(outs)
}
