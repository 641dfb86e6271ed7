//! What the arguments and results of several operations share.
ghost use Rattle.std.specs.Prelude.{◌≡◌, length};
ghost use Rattle.xl_base.specs.Codec.{Advances};
ghost use Rattle.xl_rpc.specs.Xdr.{Puts};
ghost use Rattle.xl_format.specs.Formats.{bytes, array};
ghost use Rattle.xl_nfs.specs.Basics.{identifier, handle, name, verifier, stateid, shown_owner, owner, lock_type, word_at};

use std::alloc::AllocError;
use xl_format::{put_record, read_record};
use xl_rpc::{RpcBad, Xdr, XdrOut};

/// What names an open, the locks of an owner or a delegation (stateid4, RFC 7530 9.1.4).
#[derive(Clone, Copy)]
pub struct Stateid {
    /// Rises by one with each change of the state.
    pub seqid: u32,
    /// Which state it is; opaque to clients.
    pub other: [u8; 12],
}

/// An owner of opens or locks (open_owner4, lock_owner4).
#[derive(Clone, Copy)]
pub struct Owner<'a> {
    /// The client, by the number that SETCLIENTID gave it.
    pub clientid: u64,
    /// How the client names the owner, at most 1,024 bytes.
    pub owner: &'a [u8],
}

/// How a range is locked (nfs_lock_type4), numbered from 1 in this order.
#[derive(Clone, Copy)]
pub enum LockType {
    /// Shared (READ_LT).
    Read,
    /// Exclusive (WRITE_LT).
    Write,
    /// Shared, and the client would wait (READW_LT).
    ReadWaiting,
    /// Exclusive, and the client would wait (WRITEW_LT).
    WriteWaiting,
}

/// Which attributes of a file are meant (bitmap4).
#[derive(Clone, Copy)]
pub struct Bitmap<'a> {
    /// The words one behind the other, four bytes each, the highest byte first.
    pub words: &'a [u8],
}

impl<'a> Bitmap<'a> {
    /// The word at a place, counted from 0; None past the last.
    pub fn word(&self, place: usize) -> Option<u32>
        ensures { result ≡ word_at place self.now.words.now }
    {
        if self.words.len() / 4 <= place {
            return None;
        }
        let (front, _) = self.words[place * 4..].split_first_chunk::<4>().unwrap();
        Some(u32::from_be_bytes(*front))
    }
}

/// The most bytes of a tag, an owner or a client's id (RFC 7531, NFS4_OPAQUE_LIMIT).
pub const MOST_TEXT_BYTES: u32 = 1024;

const MAX_HANDLE_BYTES: u32 = 128;

/// A tag, an owner or a client's id.
pub(crate) fn read_text<'a>(xdr: &mut Xdr<'a>) -> Result<&'a [u8], RpcBad>
    ensures { Advances (λ s. s.now) result xdr.old.rest.now xdr.new.rest.now (identifier.at xdr.old.rest.now) }
{
    xdr.opaque(MOST_TEXT_BYTES)
}

/// A name or another opaque without a bound of its own.
#[tactic(auto, unfolding(crate::specs::Basics::name))]
pub(crate) fn read_name<'a>(xdr: &mut Xdr<'a>) -> Result<&'a [u8], RpcBad>
    ensures { Advances (λ s. s.now) result xdr.old.rest.now xdr.new.rest.now (name.at xdr.old.rest.now) }
{
    xdr.opaque(u32::MAX)
}

#[tactic(auto, unfolding(crate::specs::Basics::name))]
pub(crate) fn put_name(out: &mut XdrOut, value: &[u8]) -> Result<(), AllocError>
    requires { name.Fit value.now }
    ensures { Puts result out.old out.new (name.spell value.now) }
{
    out.opaque(value)
}

/// A file handle.
#[tactic(auto, unfolding(crate::specs::Basics::handle))]
pub(crate) fn read_handle<'a>(xdr: &mut Xdr<'a>) -> Result<&'a [u8], RpcBad>
    ensures { Advances (λ s. s.now) result xdr.old.rest.now xdr.new.rest.now (handle.at xdr.old.rest.now) }
{
    xdr.opaque(MAX_HANDLE_BYTES)
}

#[tactic(auto, unfolding(crate::specs::Basics::handle))]
pub(crate) fn put_handle(out: &mut XdrOut, value: &[u8]) -> Result<(), AllocError>
    requires { handle.Fit value.now }
    ensures { Puts result out.old out.new (handle.spell value.now) }
{
    out.opaque(value)
}

/// Eight bytes as they are.
#[tactic(auto, using(xl_rpc::proofs::XdrLaws::fixed_length))]
pub(crate) fn read_verifier(xdr: &mut Xdr) -> Result<[u8; 8], RpcBad>
    ensures { Advances (λ v. v) result xdr.old.rest.now xdr.new.rest.now (verifier.at xdr.old.rest.now) }
{
    let bytes = xdr.fixed(8)?;
    Ok(eight(bytes))
}

fn eight(bytes: &[u8]) -> [u8; 8]
    requires { length bytes.now ≡ 8 }
    ensures { result ≡ bytes.now }
{
    let (front, _) = bytes.split_first_chunk::<8>().unwrap();
    *front
}

/// Twelve bytes as they are.
#[tactic(auto, using(xl_rpc::proofs::XdrLaws::fixed_length))]
fn read_other(xdr: &mut Xdr) -> Result<[u8; 12], RpcBad>
    ensures { Advances (λ v. v) result xdr.old.rest.now xdr.new.rest.now ((bytes 12).at xdr.old.rest.now) }
{
    let bytes = xdr.fixed(12)?;
    Ok(twelve(bytes))
}

fn twelve(bytes: &[u8]) -> [u8; 12]
    requires { length bytes.now ≡ 12 }
    ensures { result ≡ bytes.now }
{
    let (front, _) = bytes.split_first_chunk::<12>().unwrap();
    *front
}

#[tactic(auto, unfolding(crate::specs::Basics::stateid))]
pub(crate) fn read_stateid(xdr: &mut Xdr) -> Result<Stateid, RpcBad>
    ensures { Advances (λ x. x) result xdr.old.rest.now xdr.new.rest.now (stateid.at xdr.old.rest.now) }
{
    read_record!(xdr; Stateid { seqid: Xdr::u32, other: read_other })
}

#[tactic(auto, unfolding(crate::specs::Basics::stateid))]
pub(crate) fn put_stateid(out: &mut XdrOut, value: &Stateid) -> Result<(), AllocError>
    ensures { Puts result out.old out.new (stateid.spell value.now) }
{
    put_record!(out; XdrOut::u32: value.seqid, XdrOut::fixed: &value.other)
}

#[tactic(auto, unfolding(crate::specs::Basics::owner))]
pub(crate) fn read_owner<'a>(xdr: &mut Xdr<'a>) -> Result<Owner<'a>, RpcBad>
    ensures { Advances shown_owner result xdr.old.rest.now xdr.new.rest.now (owner.at xdr.old.rest.now) }
{
    read_record!(xdr; Owner { clientid: Xdr::u64, owner: read_text })
}

#[tactic(auto, unfolding(crate::specs::Basics::owner))]
pub(crate) fn put_owner(out: &mut XdrOut, value: &Owner) -> Result<(), AllocError>
    requires { owner.Fit (shown_owner value.now) }
    ensures { Puts result out.old out.new (owner.spell (shown_owner value.now)) }
{
    put_record!(out; XdrOut::u64: value.clientid, XdrOut::opaque: value.owner)
}

#[tactic(auto, unfolding(crate::specs::Basics::lock_type))]
pub(crate) fn read_lock_type(xdr: &mut Xdr) -> Result<LockType, RpcBad>
    ensures { Advances (λ t. t) result xdr.old.rest.now xdr.new.rest.now (lock_type.at xdr.old.rest.now) }
{
    let mut at = *xdr;
    let value = match at.u32()? {
        1 => LockType::Read,
        2 => LockType::Write,
        3 => LockType::ReadWaiting,
        4 => LockType::WriteWaiting,
        _ => return Err(RpcBad::Value),
    };
    *xdr = at;
    Ok(value)
}

#[tactic(auto, unfolding(crate::specs::Basics::lock_type))]
pub(crate) fn put_lock_type(out: &mut XdrOut, value: LockType) -> Result<(), AllocError>
    ensures { Puts result out.old out.new (lock_type.spell value) }
{
    out.u32(match value {
        LockType::Read => 1,
        LockType::Write => 2,
        LockType::ReadWaiting => 3,
        LockType::WriteWaiting => 4,
    })
}

/// The words of a bitmap, behind their count.
pub(crate) fn read_bitmap<'a>(xdr: &mut Xdr<'a>) -> Result<Bitmap<'a>, RpcBad>
    ensures { Advances (λ b. b.words.now) result xdr.old.rest.now xdr.new.rest.now (array.at xdr.old.rest.now) }
{
    Ok(Bitmap {
        words: xdr.words()?,
    })
}

pub(crate) fn put_bitmap(out: &mut XdrOut, value: &Bitmap) -> Result<(), AllocError>
    requires { array.Fit value.now.words.now }
    ensures { Puts result out.old out.new (array.spell value.now.words.now) }
{
    out.words(value.words)
}
