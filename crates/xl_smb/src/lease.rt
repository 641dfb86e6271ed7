//! Leases and the contexts of CREATE that carry them.
ghost use Rattle.std.specs.Prelude.{◌≡◌, ◌≤◌, ◌++◌, true, length, drop, option_map, Some, IfSome, OnOk, IfOk};
ghost use Rattle.xl_base.specs.Results.{Gives};
ghost use Rattle.xl_layout.specs.Layouts.{Fit};
ghost use Rattle.xl_smb.specs.Leases.{shown_context, context_at, is_wanted, first_of, are_contexts, find, lease_fields, lease_at, lease_of, lease_context};

use crate::body::{buffer_at, part_at};
use crate::fault::SmbBad;
use std::alloc::{AllocError, Global};
use xl_layout::{bytes_at, put_all, u16_at, u16_bytes, u32_at, u32_bytes, u64_at, u64_bytes};

/// A lease, as CREATE asks for it and is answered (MS-SMB2 2.2.13.2.8, 2.2.14.2.10), and as its break is acknowledged.
#[derive(Clone, Copy)]
pub struct Lease {
    /// The key by which the client names it.
    pub key: [u8; 16],
    /// What may be cached: 1 read, 2 handle, 4 write.
    pub state: u32,
    /// 2 if a break runs.
    pub flags: u32,
    /// Not used; zero.
    pub duration: u64,
}

/// The contexts of a CREATE request or reply (MS-SMB2 2.2.13.2): each has a name and data, and says how far the next one
/// is.
#[derive(Clone, Copy)]
pub struct Contexts<'a>(pub &'a [u8]);

/// One context: how far the next one is, 0 in the last; its name; and its data.
#[derive(Clone, Copy)]
struct Context<'a> {
    next: u32,
    name: &'a [u8],
    content: &'a [u8],
}

impl<'a> Contexts<'a> {
    /// The data of the first context of this name and this length. None if there is none, and if a context leaves
    /// the list, which no message that was read has.
    pub fn find(self, name: &[u8], size: usize) -> Option<&'a [u8]>
        ensures { option_map (λ content. content.now) result ≡ find name.now size self.entry.0.now }
    {
        match first_of(self.0, Some((name, size))) {
            Ok(Some(context)) => Some(context.content),
            _ => None,
        }
    }

    /// The lease of the first `RqLs` context of 32 bytes. Other contexts are passed over.
    pub fn lease(self) -> Option<Lease>
        ensures { result ≡ lease_of self.entry.0.now }
    {
        match first_of(self.0, Some((b"RqLs", 32))) {
            Ok(Some(context)) => Some(lease_at(context.content)),
            _ => None,
        }
    }
}

/// The context at the front of a list.
#[tactic(auto, unfolding(crate::specs::Leases::context_at, crate::specs::Leases::context_fields))]
fn context_at(list: &[u8]) -> Result<Context<'_>, SmbBad>
    ensures is { Gives shown_context result (context_at list.now) }
    ensures long { OnOk result (16 ≤ length list.now) }
{
    if list.len() < 16 {
        return Err(SmbBad::Offset);
    }
    let name = buffer_at(list, list, 4)?;
    let content = part_at(list, u32::from(u16_at(list, 10)), u32_at(list, 12))?;
    Ok(Context {
        next: u32_at(list, 0),
        name,
        content,
    })
}

/// What stands so far on in a list; nothing if that is past its end.
fn after(list: &[u8], next: u32) -> &[u8]
    ensures { result.now ≡ drop next list.now }
{
    let next = (next as usize).min(list.len());
    list.split_at(next).1
}

/// Whether a context has this name and this length; none has if none is named.
fn is_wanted(context: &Context<'_>, wanted: Option<(&[u8], usize)>) -> bool
    ensures { result ≡ is_wanted (option_map (λ w. (w.0.now, w.1)) wanted.entry) (shown_context context.now) }
{
    match wanted {
        Some((name, size)) => context.name == name && context.content.len() == size,
        None => false,
    }
}

/// The first context that is wanted, None if none is; Offset if one leaves the list.
#[tactic(auto, using(crate::proofs::LeaseLaws::comes_to, crate::proofs::LeaseLaws::found_at, crate::proofs::LeaseLaws::ends_at, crate::proofs::LeaseLaws::goes_on))]
fn first_of<'a>(
    list: &'a [u8],
    wanted: Option<(&[u8], usize)>,
) -> Result<Option<Context<'a>>, SmbBad>
    ensures first { Gives (option_map shown_context) result (first_of (option_map (λ w. (w.0.now, w.1)) wanted.entry) list.now) }
    ensures wanted { IfOk result (λ found. IfSome found (λ c. is_wanted (option_map (λ w. (w.0.now, w.1)) wanted.entry) (shown_context c) ≡ true)) }
{
    let mut rest = list;
    'contexts: loop {
        let context = context_at(rest)?;
        if is_wanted(&context, wanted) {
            return Ok(Some(context));
        }
        if context.next == 0 {
            return Ok(None);
        }
        rest = after(rest, context.next);
    }
}

/// Whether each context lies within the list.
pub(crate) fn are_contexts(list: &[u8]) -> bool
    ensures { result ≡ are_contexts list.now }
{
    list.is_empty() || first_of(list, None).is_ok()
}

/// The lease in the 32 bytes of its context.
#[tactic(auto, unfolding(crate::specs::Leases::lease_at))]
fn lease_at(content: &[u8]) -> Lease
    requires { 32 ≤ length content.now }
    ensures { result ≡ lease_at content.now }
{
    Lease {
        key: bytes_at(content, 0),
        state: u32_at(content, 16),
        flags: u32_at(content, 20),
        duration: u64_at(content, 24),
    }
}

/// Writes the list of one context that carries this lease.
#[tactic(auto, unfolding(crate::specs::Leases::lease_context))]
fn put_lease_context(out: &mut Vec<u8>, lease: Lease) -> Result<(), AllocError>
    ensures ok { OnOk result (out.new.items ≡ out.old.items ++ lease_context lease) }
    ensures fits { Fit lease_fields lease }
{
    put_all(
        out,
        &[
            &u32_bytes(0),
            &u16_bytes(16),
            &u16_bytes(4),
            &[0; 2],
            &u16_bytes(24),
            &u32_bytes(32),
            b"RqLs",
            &[0; 4],
            &lease.key,
            &u32_bytes(lease.state),
            &u32_bytes(lease.flags),
            &u64_bytes(lease.duration),
        ],
    )
}

/// The list of one context, 56 bytes, that carries this lease.
#[tactic(auto, using(crate::proofs::LeaseLaws::lease_contexts, crate::proofs::LeaseLaws::lease_again))]
pub fn lease_context(alloc: Global, lease: Lease) -> Result<Vec<u8>, AllocError>
    ensures spelled { IfOk result (λ list. list.items ≡ lease_context lease) }
    ensures contexts { IfOk result (λ list. are_contexts list.items ≡ true) }
    ensures again { IfOk result (λ list. lease_of list.items ≡ Some lease) }
{
    let mut out = Vec::new(alloc);
    put_lease_context(&mut out, lease)?;
    Ok(out)
}
