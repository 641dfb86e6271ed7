//! The summary of a journal.
ghost use Rattle.std.specs.Prelude.{◌≡◌, ◌+◌, ◌++◌, OnOk, IfOk, string_bytes};
ghost use Rattle.xl_capture.specs.Summary.{results_status, body_status, framed_status, sent_status, told_status, is_granted, is_denied, granted, denied, counts, summary};
ghost use Rattle.xl_nlm.specs.Replies.{results_at};

use std::alloc::{AllocError, Global};
use std::fmt::Write;
use xl_base::{Dest, Entry, Out};
use xl_matrix::Claim;
use xl_nlm::{NlmReply, NlmStatus, procedure, read_result};
use xl_rpc::{Verdict, Xdr, read_reply};

/// The bytes of a frame in front of its message.
const HEADER: usize = 4;

/// How many calls were granted, and how many denied.
#[derive(Clone, Copy)]
struct Tally {
    granted: usize,
    denied: usize,
}

/// The status behind the cookie that results on locks begin with.
fn results_status(body: &Xdr) -> Option<NlmStatus>
    ensures { result ≡ results_status (results_at 2 body.now.rest.now) }
{
    let mut at = *body;
    match read_result(procedure::LOCK, &mut at) {
        Ok(NlmReply::Res(found)) => Some(found.stat),
        _ => None,
    }
}

/// The status in a framed reply to a call that was done.
#[tactic(auto, unfolding(crate::specs::Summary::framed_status))]
fn framed_status(bytes: &[u8]) -> Option<NlmStatus>
    ensures { result ≡ framed_status bytes.now }
{
    if bytes.len() < HEADER {
        return None;
    }
    match read_reply(&bytes[HEADER..]) {
        Ok(reply) => match reply.verdict {
            Verdict::Success => results_status(&reply.body),
            _ => None,
        },
        Err(_) => None,
    }
}

/// The status in an out. A call to a client has none.
fn sent_status(out: &Out) -> Option<NlmStatus>
    ensures { result ≡ sent_status out.now.dest out.now.bytes }
{
    match out.dest {
        Dest::Conn(_) => framed_status(out.bytes.as_slice()),
        Dest::Back(_) => None,
    }
}

/// The first status in outs.
fn told_status(outs: &[Out]) -> Option<NlmStatus>
    ensures { result ≡ told_status outs.now }
{
    for out in outs {
        if let Some(status) = sent_status(out) {
            return Some(status);
        }
    }
    None
}

fn is_granted(status: Option<NlmStatus>) -> bool
    ensures { result ≡ is_granted status }
{
    matches!(status, Some(NlmStatus::Granted))
}

fn is_denied(status: Option<NlmStatus>) -> bool
    ensures { result ≡ is_denied status }
{
    matches!(status, Some(NlmStatus::Denied))
}

/// Counts the calls that entries answer as granted and as denied.
fn counted(entries: &[Entry]) -> Tally
    ensures { (result.granted ≡ granted entries.now) × (result.denied ≡ denied entries.now) }
{
    let mut granted = 0;
    let mut denied = 0;
    for entry in entries {
        let status = told_status(entry.outs.as_slice());
        if is_granted(status) {
            granted += 1;
        }
        if is_denied(status) {
            denied += 1;
        }
    }
    Tally { granted, denied }
}

/// The summary of a journal's entries, and of the claims that are held after them, in four lines: how many entries there
/// are, how many calls were answered by status 0 (granted), how many by status 1 (denied), and how many claims there are.
#[tactic(auto, unfolding(crate::specs::Summary::counts))]
pub fn summary(alloc: Global, entries: &[Entry], claims: &[Claim]) -> Result<Vec<u8>, AllocError>
    ensures { IfOk result (λ text. text.items ≡ summary entries.now claims.now) }
{
    let found = counted(entries);
    let mut text = String::new(alloc);
    write!(text, "entries {}\n", entries.len())?;
    write!(text, "granted {}\n", found.granted)?;
    write!(text, "denied {}\n", found.denied)?;
    write!(text, "claims {}\n", claims.len())?;
    Ok(text.into_bytes())
}
