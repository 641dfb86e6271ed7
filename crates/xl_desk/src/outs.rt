//! What a journal sends to a connection, and which calls it asks for.
ghost use Rattle.std.specs.Prelude.{◌≡◌, ◌<◌, ◌≤◌, ◌++◌, length, IfOk, option_map};
ghost use Rattle.xl_base.specs.Outs.{goes_to, sent_to, outs_to};
ghost use Rattle.xl_desk.specs.Due.{is_due, due_of, due_in, ahead_of};

use std::alloc::{AllocError, Global};
use xl_base::{Dest, Entry, Out, Sequence};

/// Which calls are a caller's: those whose number is past `after`, and is `share` modulo `of`.
#[derive(Clone, Copy, Debug)]
pub struct Due {
    /// The number of the caller's last call, 0 before the first.
    pub after: u64,
    /// The caller's place among the callers, from 0.
    pub share: u64,
    /// How many callers there are.
    pub of: u64,
}

/// What a search for the next call found.
#[derive(Drop)]
pub struct Found {
    /// The call, or None if none is due.
    pub call: Option<Out>,
    /// The place of the entry that asks for it, or the place past the last entry.
    pub at: u64,
    /// The place past the last entry.
    pub end: u64,
}

/// Whether an out goes to the connection.
fn goes_to(dest: Dest, conn: u64) -> bool
    ensures { result ≡ goes_to conn dest }
{
    match dest {
        Dest::Conn(number) => number == conn,
        Dest::Back(_) => false,
    }
}

/// Adds the bytes of those outs that go to the connection.
fn add_sent(bytes: &mut Vec<u8>, outs: &[Out], conn: u64) -> Result<(), AllocError>
    ensures { IfOk result (λ _. bytes.new.items ≡ bytes.old.items ++ sent_to conn outs.now) }
{
    'outs: for out in outs {
        if !goes_to(out.dest, conn) {
            continue;
        }
        bytes.extend_from_slice(out.bytes.as_slice())?;
    }
    Ok(())
}

/// The bytes that the entries send to the connection.
pub(crate) fn sent(alloc: Global, entries: &[Entry], conn: u64) -> Result<Vec<u8>, AllocError>
    ensures { IfOk result (λ bytes. bytes.items ≡ outs_to conn entries.now) }
{
    let mut bytes = Vec::new(alloc);
    'entries: for entry in entries {
        add_sent(&mut bytes, entry.outs.as_slice(), conn)?;
    }
    Ok(bytes)
}

/// Whether a call is due.
fn is_due(due: Due, dest: Dest) -> bool
    requires { due.share < due.of }
    ensures { result ≡ is_due due dest }
{
    match dest {
        Dest::Conn(_) => false,
        Dest::Back(call) => due.after < call && call % due.of == due.share,
    }
}

/// The first of an entry's calls that is due.
fn due_of(outs: &[Out], due: Due) -> Option<&Out>
    requires { due.share < due.of }
    ensures { option_map (λ o. o.now) result ≡ due_of due outs.now }
{
    'outs: for out in outs {
        if is_due(due, out.dest) {
            return Some(out);
        }
    }
    None
}

/// The first call that is due in these entries, and how many of them stand before its own.
fn due_in(entries: &[Entry], due: Due) -> (Option<&Out>, u64)
    requires { due.share < due.of }
    ensures call { option_map (λ o. o.now) result.0 ≡ due_in due entries.now }
    ensures ahead { result.1 ≡ ahead_of due entries.now }
    ensures within { result.1 ≤ length entries.now }
{
    let mut ahead = 0;
    'entries: for entry in entries {
        if let Some(call) = due_of(entry.outs.as_slice(), due) {
            return (Some(call), ahead);
        }
        ahead += 1;
    }
    (None, ahead)
}

/// The first call that is due in these entries once more, and how many of them stand before its own.
pub(crate) fn find(
    alloc: Global,
    entries: &[Entry],
    due: Due,
) -> Result<(Option<Out>, u64), AllocError>
    requires { due.share < due.of }
    ensures call { IfOk result (λ t. t.0 ≡ due_in due entries.now) }
    ensures ahead { IfOk result (λ t. t.1 ≡ ahead_of due entries.now) }
    ensures within { IfOk result (λ t. t.1 ≤ length entries.now) }
{
    let (call, ahead) = due_in(entries, due);
    let Some(call) = call else {
        return Ok((None, ahead));
    };
    Ok((Some(copy_of(alloc, call)?), ahead))
}

/// The same out once more.
fn copy_of(alloc: Global, out: &Out) -> Result<Out, AllocError>
    ensures { IfOk result (λ copy. copy ≡ out.now) }
{
    Ok(Out {
        dest: out.dest,
        to: Sequence::from_slice(alloc, out.to.as_slice())?,
        bytes: Sequence::from_slice(alloc, out.bytes.as_slice())?,
    })
}
