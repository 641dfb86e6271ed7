//! What a text's messages are, a line for each.
ghost use Rattle.std.specs.Prelude.{◌≡◌, ℕ, [], ◌++◌, map, true, false, OnOk, IfOk, option_map, string_bytes, codes};
ghost use Rattle.std.specs.Fmt.{decimal};
ghost use Rattle.std.specs.Option.{is_none};
ghost use Rattle.xl_base.specs.Results.{GivesUnless};
ghost use Rattle.xl_rpc.specs.Calls.{shown_head};
ghost use Rattle.xl_nfs.specs.Ops.{shown_op};
ghost use Rattle.xl_smb.specs.Compounds.{leads_on, own_bytes};
ghost use Rattle.xl_smb.specs.Messages.{shown as shown_message};
ghost use Rattle.xl_capture.specs.Capture.{lines_of, bytes_of, bad_line, ReadsAs};
ghost use Rattle.xl_capture.specs.Show.{show_lines, bad_text, whole_word, is_nlm_shown, nlm_word, is_unlisted, ops_from, more_ops, ops_text, compound_word, nfs_word, call_word, call_text, reply_text, is_one, is_reply, rpc_text, head_text, is_other, is_other_reply, message_text, first_message, smb_text, rpc_line, smb_line, show_words, show_line, shown};
ghost use Rattle.xl_nfs.specs.Compounds.{compound_head_at};

use crate::capture::{
    CaptureError, LineError, MOST_BYTES, bytes_of, is_passed_over, is_text, looked_at, next_line,
    words_of,
};
use std::alloc::{AllocError, Global};
use std::fmt::Write;
use xl_names::put_hex_word;
use xl_nfs::{NfsOp, next_op, operation, read_head};
use xl_nlm::procedure;
use xl_programs::{NFS, NFS_VERSION, NLM, NLM_VERSION};
use xl_rpc::{Call, CallHead, Reply, RpcBad, Verdict, Xdr, read_call, read_reply};
use xl_smb::{Command, SmbHead, SmbMessage, read_head as read_smb_head};

/// Adds what is said of a message that can't be read.
fn put_bad(text: &mut String, fault: u32) -> Result<(), AllocError>
    ensures { OnOk result (string_bytes text.new ≡ string_bytes text.old ++ bad_text fault) }
{
    write!(text, "bad {fault}")?;
    Ok(())
}

/// Adds the word of arguments that were read, if nothing may be left behind them.
fn put_whole(text: &mut String, left: &[u8]) -> Result<(), AllocError>
    ensures { OnOk result (string_bytes text.new ≡ string_bytes text.old ++ whole_word left.now) }
{
    if left.is_empty() {
        text.push_str("ok")?;
    } else {
        text.push_str("bad")?;
    }
    Ok(())
}

/// Whether this procedure of NLM is read.
fn is_nlm_shown(proc: u32) -> bool
    ensures { result ≡ is_nlm_shown proc }
{
    proc <= procedure::UNLOCK || (procedure::SHARE <= proc && proc <= procedure::FREE_ALL)
}

/// Adds the word of a call of NLM.
#[tactic(auto, unfolding(crate::specs::Show::nlm_word))]
fn put_nlm_word(text: &mut String, proc: u32, args: &Xdr) -> Result<(), AllocError>
    ensures { OnOk result (string_bytes text.new ≡ string_bytes text.old ++ nlm_word proc args.now.rest.now) }
{
    if !is_nlm_shown(proc) {
        text.push_str("other")?;
        return Ok(());
    }
    let mut at = *args;
    match xl_nlm::read(proc, &mut at) {
        Ok(_) => put_whole(text, at.left())?,
        Err(_) => text.push_str("bad")?,
    }
    Ok(())
}

fn is_unlisted(op: &NfsOp) -> bool
    ensures { result ≡ is_unlisted (shown_op op.now) }
{
    matches!(op, NfsOp::NotSupported(_) | NfsOp::Illegal(_))
}

/// The numbers of so many operations, up to the first that isn't listed; None if one can't be read.
#[tactic(auto, using(crate::proofs::ShowLaws::no_op, crate::proofs::ShowLaws::cut_op, crate::proofs::ShowLaws::last_op, crate::proofs::ShowLaws::next_op))]
fn ops_of(alloc: Global, count: u32, args: &Xdr) -> Result<Option<Vec<u32>>, AllocError>
    ensures { IfOk result (λ o. option_map (λ v. v.items) o ≡ ops_from [] count args.now.rest.now) }
{
    let mut at = *args;
    let mut left = count;
    let mut numbers = Vec::new(alloc);
    'ops: while left > 0 {
        let Ok(op) = next_op(&mut at) else {
            return Ok(None);
        };
        numbers.push(op.number())?;
        if is_unlisted(&op) {
            return Ok(Some(numbers));
        }
        left -= 1;
    }
    Ok(Some(numbers))
}

/// Adds numbers with a comma before each.
fn put_more_ops(text: &mut String, numbers: &[u32]) -> Result<(), AllocError>
    ensures { OnOk result (string_bytes text.new ≡ string_bytes text.old ++ more_ops numbers.now) }
{
    for number in numbers {
        write!(text, ",{number}")?;
    }
    Ok(())
}

/// Adds numbers parted by commas, with a blank before them if there are some.
fn put_ops(text: &mut String, numbers: &[u32]) -> Result<(), AllocError>
    ensures { OnOk result (string_bytes text.new ≡ string_bytes text.old ++ ops_text numbers.now) }
{
    if let [first, more @ ..] = numbers {
        write!(text, " {first}")?;
        put_more_ops(text, more)?;
    }
    Ok(())
}

/// Adds the word of a COMPOUND, with the numbers of its operations.
fn put_compound_word(alloc: Global, text: &mut String, args: &Xdr) -> Result<(), AllocError>
    ensures { OnOk result (string_bytes text.new ≡ string_bytes text.old ++ compound_word (compound_head_at args.now.rest.now)) }
{
    let mut at = *args;
    let Ok(head) = read_head(&mut at) else {
        text.push_str("bad")?;
        return Ok(());
    };
    match ops_of(alloc, head.count, &at)? {
        Some(numbers) => {
            text.push_str("ok")?;
            put_ops(text, &numbers)?;
        }
        None => text.push_str("bad")?,
    }
    Ok(())
}

/// Adds the word of a call of NFS.
#[tactic(auto, unfolding(crate::specs::Show::nfs_word))]
fn put_nfs_word(alloc: Global, text: &mut String, proc: u32, args: &Xdr) -> Result<(), AllocError>
    ensures { OnOk result (string_bytes text.new ≡ string_bytes text.old ++ nfs_word proc args.now.rest.now) }
{
    match proc {
        0 => put_whole(text, args.left())?,
        operation::COMPOUND => put_compound_word(alloc, text, args)?,
        _ => text.push_str("other")?,
    }
    Ok(())
}

/// Adds the word of a call.
#[tactic(auto, unfolding(crate::specs::Show::call_word))]
fn put_call_word(
    alloc: Global,
    text: &mut String,
    head: &CallHead,
    args: &Xdr,
) -> Result<(), AllocError>
    ensures { OnOk result (string_bytes text.new ≡ string_bytes text.old ++ call_word (shown_head head.now) args.now.rest.now) }
{
    if head.prog == NLM && head.vers == NLM_VERSION {
        put_nlm_word(text, head.proc, args)?;
    } else if head.prog == NFS && head.vers == NFS_VERSION {
        put_nfs_word(alloc, text, head.proc, args)?;
    } else {
        text.push_str("other")?;
    }
    Ok(())
}

/// Adds what is said of a call.
#[tactic(auto, unfolding(crate::specs::Show::call_text))]
fn put_call(alloc: Global, text: &mut String, call: &Call) -> Result<(), AllocError>
    ensures { OnOk result (string_bytes text.new ≡ string_bytes text.old ++ call_text (shown_head call.now.head) call.now.args.rest.now) }
{
    let xid = call.head.xid;
    let prog = call.head.prog;
    let vers = call.head.vers;
    let proc = call.head.proc;
    write!(text, "call {xid} {prog} {vers} {proc} ")?;
    put_call_word(alloc, text, &call.head, &call.args)?;
    Ok(())
}

/// Adds what is said of a reply.
#[tactic(auto, unfolding(crate::specs::Show::reply_text))]
fn put_reply(text: &mut String, xid: u32, verdict: Verdict) -> Result<(), AllocError>
    ensures { OnOk result (string_bytes text.new ≡ string_bytes text.old ++ reply_text xid verdict) }
{
    if verdict.is_denied() {
        write!(text, "denied {xid}")?;
    } else {
        let stat = verdict.stat();
        write!(text, "reply {xid} {stat}")?;
    }
    Ok(())
}

/// Whether the message type is that of a reply.
#[tactic(auto, unfolding(crate::specs::Show::is_reply))]
fn is_reply(bytes: &[u8]) -> bool
    ensures { result ≡ is_reply bytes.now }
{
    let mut at = Xdr::new(bytes);
    match at.u32() {
        Ok(_) => matches!(at.u32(), Ok(1)),
        Err(_) => false,
    }
}

/// Adds what is said of a message of ONC RPC.
#[tactic(auto, unfolding(crate::specs::Show::rpc_text))]
fn put_rpc(alloc: Global, text: &mut String, bytes: &[u8]) -> Result<(), AllocError>
    ensures { OnOk result (string_bytes text.new ≡ string_bytes text.old ++ rpc_text bytes.now) }
{
    if is_reply(bytes) {
        match read_reply(bytes) {
            Ok(reply) => put_reply(text, reply.xid, reply.verdict)?,
            Err(fault) => put_bad(text, fault.number())?,
        }
    } else {
        match read_call(bytes) {
            Ok(call) => put_call(alloc, text, &call)?,
            Err(fault) => put_bad(text, fault.number())?,
        }
    }
    Ok(())
}

/// Adds what is said of a header of SMB.
#[tactic(auto, unfolding(crate::specs::Show::head_text))]
fn put_head(
    alloc: Global,
    text: &mut String,
    command: u16,
    status: u32,
    number: u64,
    other: bool,
) -> Result<(), AllocError>
    ensures { OnOk result (string_bytes text.new ≡ string_bytes text.old ++ head_text command status number other) }
{
    write!(text, "smb {command} ")?;
    put_hex_word(alloc, text, &status.to_be_bytes())?;
    write!(text, " {number}")?;
    text.push_str(if other { " other" } else { " ok" })?;
    Ok(())
}

/// Whether the command of a header has no layouts.
fn is_other(head: &SmbHead) -> bool
    ensures { result ≡ is_other head.now }
{
    Command::of(head.command).is_none()
}

/// The same of a reply's header: CANCEL has none except the error form.
fn is_other_reply(head: &SmbHead) -> bool
    ensures { result ≡ is_other_reply head.now }
{
    is_other(head) || (head.command == 12 && head.status == 0)
}

/// Adds what is said of a message of SMB.
#[tactic(auto, unfolding(crate::specs::Show::message_text))]
fn put_message(alloc: Global, text: &mut String, message: &SmbMessage) -> Result<(), AllocError>
    ensures { OnOk result (string_bytes text.new ≡ string_bytes text.old ++ message_text (shown_message message.now)) }
{
    match message {
        SmbMessage::Call(h, _) => {
            put_head(alloc, text, h.command, h.status, h.message_id, is_other(h))?;
        }
        SmbMessage::Reply(h, _) => {
            put_head(
                alloc,
                text,
                h.command,
                h.status,
                h.message_id,
                is_other_reply(h),
            )?;
        }
        SmbMessage::Notice(_) => put_head(alloc, text, 18, 0, u64::MAX, false)?,
    }
    Ok(())
}

/// Whether NextCommand leads to another header in so many bytes.
fn leads_on(way: u32, count: usize) -> bool
    ensures { result ≡ leads_on way count }
{
    way % 8 == 0 && way >= 64 && count >= way as usize + 64
}

/// The bytes up to the next header, if NextCommand leads to one.
fn own_bytes(way: u32, bytes: &[u8]) -> &[u8]
    ensures { result.now ≡ own_bytes way bytes.now }
{
    if leads_on(way, bytes.len()) {
        bytes.split_at(way as usize).0
    } else {
        bytes
    }
}

/// The first of several messages in one frame.
#[tactic(auto, unfolding(crate::specs::Show::first_message))]
fn first_message(frame: &[u8]) -> &[u8]
    ensures { result.now ≡ first_message frame.now }
{
    match read_smb_head(frame) {
        Ok(head) => own_bytes(head.next_command, frame),
        Err(_) => frame,
    }
}

/// Adds what is said of the bytes of a message of SMB, or of the first of several.
fn put_smb(alloc: Global, text: &mut String, bytes: &[u8]) -> Result<(), AllocError>
    ensures { OnOk result (string_bytes text.new ≡ string_bytes text.old ++ smb_text bytes.now) }
{
    match xl_smb::read(first_message(bytes)) {
        Ok(message) => put_message(alloc, text, &message)?,
        Err(fault) => put_bad(text, fault.number())?,
    }
    Ok(())
}

/// The line out of a message of ONC RPC.
fn rpc_line(alloc: Global, bytes: &[u8]) -> Result<Vec<u8>, AllocError>
    ensures { IfOk result (λ v. v.items ≡ rpc_line bytes.now) }
{
    let mut text = String::new(alloc);
    put_rpc(alloc, &mut text, bytes)?;
    text.push_str("\n")?;
    Ok(text.into_bytes())
}

/// The line out of a message of SMB.
fn smb_line(alloc: Global, bytes: &[u8]) -> Result<Vec<u8>, AllocError>
    ensures { IfOk result (λ v. v.items ≡ smb_line bytes.now) }
{
    let mut text = String::new(alloc);
    put_smb(alloc, &mut text, bytes)?;
    text.push_str("\n")?;
    Ok(text.into_bytes())
}

/// The line out of a hex word with a message of ONC RPC.
fn show_rpc(alloc: Global, hex: &[u8]) -> Result<Vec<u8>, LineError>
    ensures { ReadsAs (λ v. v.items) result (option_map rpc_line (bytes_of hex.now)) }
{
    let bytes = bytes_of(alloc, hex)?;
    Ok(rpc_line(alloc, &bytes)?)
}

/// The line out of a hex word with a message of SMB.
fn show_smb(alloc: Global, hex: &[u8]) -> Result<Vec<u8>, LineError>
    ensures { ReadsAs (λ v. v.items) result (option_map smb_line (bytes_of hex.now)) }
{
    let bytes = bytes_of(alloc, hex)?;
    Ok(smb_line(alloc, &bytes)?)
}

/// The line out of a line's words.
#[tactic(auto, unfolding(crate::specs::Show::show_words))]
fn show_words(alloc: Global, words: &[&[u8]]) -> Result<Vec<u8>, LineError>
    ensures { ReadsAs (λ v. v.items) result (show_words (map (λ w. w.now) words.now)) }
{
    match words {
        [a, hex] if is_text(a, b"rpc") => show_rpc(alloc, hex),
        [a, hex] if is_text(a, b"smb") => show_smb(alloc, hex),
        _ => Err(LineError::Bad),
    }
}

/// The line out of a line.
#[tactic(auto, using(crate::proofs::ShowLaws::few_shown), unfolding(crate::specs::Show::show_line))]
fn line_shown(alloc: Global, line: &[u8]) -> Result<Vec<u8>, LineError>
    ensures { ReadsAs (λ v. v.items) result (show_line line.now) }
{
    if is_passed_over(line) {
        return Ok(Vec::new(alloc));
    }
    let words = words_of(alloc, line)?;
    show_words(alloc, &words)
}

/// The line out of a line `rpc HEX` or `smb HEX`, a message without its frame: no bytes if the line is passed over
/// (empty, or a comment), None if it isn't in the grammar. It fails only if memory runs out.
///
/// A call of ONC RPC (RFC 5531 9) is shown as `call XID PROG VERS PROC WORD`, an accepted reply as `reply XID STAT`, a
/// denied one as `denied XID`; what can't be read as `bad N`, with its fault's number. A message of SMB is shown as
/// `smb COMMAND STATUS MESSAGEID WORD`, the status in eight hex digits, or as `bad N`. WORD is `ok`, `bad` if a call's
/// arguments can't be read or have bytes behind them, or `other` if no layout is known. Of a COMPOUND `ok` is followed
/// by the numbers of its operations, up to the first whose layout isn't known; bytes behind them are passed over.
pub fn show_line(alloc: Global, line: &[u8]) -> Result<Option<Vec<u8>>, AllocError>
    ensures { IfOk result (λ o. option_map (λ v. v.items) o ≡ show_line line.now) }
{
    match line_shown(alloc, line) {
        Ok(text) => Ok(Some(text)),
        Err(LineError::Bad) => Ok(None),
        Err(LineError::NoMemory) => Err(AllocError),
    }
}

#[tactic(auto, using(crate::proofs::LineLaws::is_last_line), unfolding(crate::specs::Show::show_lines))]
/// The lines out of these lines; past says that the last of them is bad.
fn lines_shown(alloc: Global, past: bool, text: &[u8]) -> Result<Vec<u8>, CaptureError>
    ensures { GivesUnless bad_line (λ v. v.items) result (show_lines past [] 0 (lines_of text.now)) }
{
    let mut out = Vec::new(alloc);
    let mut rest = text;
    let mut number = 0u64;
    'lines: while let Some((line, after)) = next_line(rest) {
        number += 1;
        if past && after.is_empty() {
            return Err(CaptureError::BadLine(number));
        }
        let shown = match line_shown(alloc, line) {
            Ok(shown) => shown,
            Err(LineError::Bad) => return Err(CaptureError::BadLine(number)),
            Err(LineError::NoMemory) => return Err(CaptureError::NoMemory),
        };
        if out.extend_from_slice(&shown).is_err() {
            return Err(CaptureError::NoMemory);
        }
        rest = after;
    }
    Ok(out)
}

/// The lines out of a text's lines. BadLine is the number of the first line that isn't in the grammar, counted from 1; of
/// a text past `MOST_BYTES` the line with the byte past them isn't.
#[tactic(auto, unfolding(crate::specs::Show::shown))]
pub fn show_text(alloc: Global, text: &[u8]) -> Result<Vec<u8>, CaptureError>
    ensures { GivesUnless bad_line (λ v. v.items) result (shown text.now) }
{
    lines_shown(alloc, text.len() > MOST_BYTES, looked_at(text))
}
