//! Clients: the arguments of SETCLIENTID and SETCLIENTID_CONFIRM.
ghost use Rattle.xl_base.specs.Codec.{Advances};
ghost use Rattle.xl_rpc.specs.Xdr.{Puts};
ghost use Rattle.xl_nfs.specs.Clients.{label, shown_set_client_id_args, set_client_id_args, client_confirm};

use crate::basics::{read_text, read_verifier};
use std::alloc::AllocError;
use xl_format::{put_record, read_record};
use xl_rpc::{RpcBad, Xdr, XdrOut};

/// The arguments of SETCLIENTID (SETCLIENTID4args).
#[derive(Clone, Copy)]
pub struct SetClientIdArgs<'a> {
    /// Changes when the client restarts.
    pub verifier: [u8; 8],
    /// How the client names itself, at most 1,024 bytes.
    pub id: &'a [u8],
    /// The program that the server calls; 0 if it calls none.
    pub program: u32,
    /// The transport of its address (RFC 5665), at most 64 bytes.
    pub netid: &'a [u8],
    /// The address (RFC 5665), at most 64 bytes.
    pub address: &'a [u8],
    /// What each call repeats.
    pub callback_ident: u32,
}

/// What SETCLIENTID answers and SETCLIENTID_CONFIRM repeats (SETCLIENTID4resok, SETCLIENTID_CONFIRM4args).
#[derive(Clone, Copy)]
pub struct ClientConfirm {
    /// The client's number.
    pub clientid: u64,
    /// That the client got the answer.
    pub verifier: [u8; 8],
}

const MAX_LABEL_BYTES: u32 = 64;

/// A transport's name or an address.
fn read_label<'a>(xdr: &mut Xdr<'a>) -> Result<&'a [u8], RpcBad>
    ensures { Advances (λ s. s.now) result xdr.old.rest.now xdr.new.rest.now (label.at xdr.old.rest.now) }
{
    xdr.opaque(MAX_LABEL_BYTES)
}

#[tactic(auto, unfolding(crate::specs::Clients::set_client_id_args))]
pub(crate) fn read_set_client_id_args<'a>(xdr: &mut Xdr<'a>) -> Result<SetClientIdArgs<'a>, RpcBad>
    ensures { Advances shown_set_client_id_args result xdr.old.rest.now xdr.new.rest.now (set_client_id_args.at xdr.old.rest.now) }
{
    read_record!(xdr; SetClientIdArgs {
        verifier: read_verifier, id: read_text, program: Xdr::u32, netid: read_label, address: read_label,
        callback_ident: Xdr::u32
    })
}

#[tactic(auto, unfolding(crate::specs::Clients::set_client_id_args))]
pub(crate) fn put_set_client_id_args(
    out: &mut XdrOut,
    value: &SetClientIdArgs,
) -> Result<(), AllocError>
    requires { set_client_id_args.Fit (shown_set_client_id_args value.now) }
    ensures { Puts result out.old out.new (set_client_id_args.spell (shown_set_client_id_args value.now)) }
{
    put_record!(out;
        XdrOut::fixed: &value.verifier, XdrOut::opaque: value.id, XdrOut::u32: value.program,
        XdrOut::opaque: value.netid, XdrOut::opaque: value.address, XdrOut::u32: value.callback_ident
    )
}

#[tactic(auto, unfolding(crate::specs::Clients::client_confirm))]
pub(crate) fn read_client_confirm(xdr: &mut Xdr) -> Result<ClientConfirm, RpcBad>
    ensures { Advances (λ x. x) result xdr.old.rest.now xdr.new.rest.now (client_confirm.at xdr.old.rest.now) }
{
    read_record!(xdr; ClientConfirm { clientid: Xdr::u64, verifier: read_verifier })
}

#[tactic(auto, unfolding(crate::specs::Clients::client_confirm))]
pub(crate) fn put_client_confirm(out: &mut XdrOut, value: &ClientConfirm) -> Result<(), AllocError>
    ensures { Puts result out.old out.new (client_confirm.spell value.now) }
{
    put_record!(out; XdrOut::u64: value.clientid, XdrOut::fixed: &value.verifier)
}
