//! The capture that a journal is written as.
ghost use Rattle.std.specs.Prelude.{◌≡◌, ◌≤◌, ◌++◌, length, codes, Ok, OnOk, IfOk, string_bytes};
ghost use Rattle.std.specs.Fmt.{decimal};
ghost use Rattle.xl_frame.specs.Frames.{wrapped};
ghost use Rattle.xl_names.specs.Texts.{hex_word};
ghost use Rattle.xl_base.specs.Limits.{most_message_bytes};
ghost use Rattle.xl_capture.specs.Again.{IsSayable, said_by};
ghost use Rattle.xl_capture.specs.Capture.{captured, most_bytes};
ghost use Rattle.xl_capture.specs.Written.{answer_words, capture_of, event_line, event_lines, file_lines, address_lines, epoch_line, header_lines, kind_at, kind_word, message_line, name_lines, opened_by, protocol_word, mark_word, stores_end, times_line};

use std::alloc::{AllocError, Global};
use std::fmt::Write;
use xl_base::{
    Entry, Event, Exports, Head, Journal, Kind, MOST_MESSAGE_BYTES, Mark, Protocol, Recorded,
    Sequence,
};
use xl_frame::wrap;
use xl_names::put_hex_word;

/// Adds the lines of the files.
fn put_files(text: &mut Vec<u8>, files: &[Sequence<u8>]) -> Result<(), AllocError>
    ensures { OnOk result (text.new.items ≡ text.old.items ++ file_lines files.now) }
{
    for file in files {
        text.extend_from_slice(b"F ")?;
        text.extend_from_slice(file.as_slice())?;
        text.extend_from_slice(b"\n")?;
    }
    Ok(())
}

/// Adds bytes as a word.
fn put_word(alloc: Global, text: &mut Vec<u8>, bytes: &[u8]) -> Result<(), AllocError>
    ensures { OnOk result (text.new.items ≡ text.old.items ++ hex_word bytes.now) }
{
    let mut word = String::new(alloc);
    put_hex_word(alloc, &mut word, bytes)?;
    text.extend_from_slice(word.as_bytes())?;
    Ok(())
}

/// Adds the lines of the callers' addresses.
fn put_addresses(
    alloc: Global,
    text: &mut Vec<u8>,
    addresses: &[(Sequence<u8>, Sequence<u8>)],
) -> Result<(), AllocError>
    ensures { OnOk result (text.new.items ≡ text.old.items ++ address_lines addresses.now) }
{
    for host in addresses {
        text.extend_from_slice(b"H ")?;
        put_word(alloc, text, host.0.as_slice())?;
        text.extend_from_slice(b" ")?;
        text.extend_from_slice(host.1.as_slice())?;
        text.extend_from_slice(b"\n")?;
    }
    Ok(())
}

/// The line of the times.
#[tactic(auto, unfolding(crate::specs::Written::times_line))]
fn times_line(alloc: Global, exports: &Exports) -> Result<String, AllocError>
    ensures { IfOk result (λ line. string_bytes line ≡ times_line exports.now) }
{
    let mut line = String::new(alloc);
    let (lease, grace, break_time) = (exports.lease, exports.grace, exports.break_time);
    writeln!(line, "L {lease} {grace} {break_time}")?;
    Ok(line)
}

/// The line of the epoch.
fn epoch_line(alloc: Global, epoch: u32) -> Result<String, AllocError>
    ensures { IfOk result (λ line. string_bytes line ≡ epoch_line epoch) }
{
    let mut line = String::new(alloc);
    writeln!(line, "K {epoch}")?;
    Ok(line)
}

/// Adds the word of whose client is recorded.
fn put_protocol(text: &mut Vec<u8>, protocol: Protocol) -> Result<(), AllocError>
    ensures { OnOk result (text.new.items ≡ text.old.items ++ protocol_word protocol) }
{
    match protocol {
        Protocol::Nlm => text.extend_from_slice(b"nlm"),
        Protocol::Nfs | Protocol::Smb => text.extend_from_slice(b"nfs"),
    }
}

/// Adds the mark of a recorded client behind a blank, if it has one.
fn put_mark(alloc: Global, text: &mut Vec<u8>, mark: &Option<Mark>) -> Result<(), AllocError>
    ensures { OnOk result (text.new.items ≡ text.old.items ++ mark_word mark.now) }
{
    if let Some(mark) = mark {
        text.extend_from_slice(b" ")?;
        put_word(alloc, text, mark.as_bytes())?;
    }
    Ok(())
}

/// Adds the lines of the recorded clients.
fn put_names(alloc: Global, text: &mut Vec<u8>, names: &[Recorded]) -> Result<(), AllocError>
    ensures { OnOk result (text.new.items ≡ text.old.items ++ name_lines names.now) }
{
    for client in names {
        text.extend_from_slice(b"N ")?;
        put_protocol(text, client.protocol)?;
        text.extend_from_slice(b" ")?;
        put_word(alloc, text, client.name.as_slice())?;
        put_mark(alloc, text, &client.mark)?;
        text.extend_from_slice(b"\n")?;
    }
    Ok(())
}

/// The lines of what is exported, and of the record that the first start loaded.
fn header_of(alloc: Global, head: &Head) -> Result<Vec<u8>, AllocError>
    ensures { IfOk result (λ text. text.items ≡ header_lines head.now) }
{
    let exports = &head.exports;
    let mut text = Vec::new(alloc);
    put_files(&mut text, exports.files.as_slice())?;
    put_addresses(alloc, &mut text, exports.addresses.as_slice())?;
    text.extend_from_slice(times_line(alloc, exports)?.as_bytes())?;
    text.extend_from_slice(epoch_line(alloc, head.record.epoch())?.as_bytes())?;
    put_names(alloc, &mut text, head.record.names())?;
    Ok(text)
}

/// What a connection speaks that this event opened.
fn opened_by(event: &Event) -> Kind
    ensures { result ≡ opened_by event.now }
{
    match event {
        Event::Open(kind) => *kind,
        _ => Kind::Rpc,
    }
}

/// What the connection of this number speaks.
fn kind_at(entries: &[Entry], number: u64) -> Kind
    ensures { result ≡ kind_at entries.now number }
{
    match entries.get(number as usize) {
        Some(entry) => opened_by(&entry.event),
        None => Kind::Rpc,
    }
}

/// Adds the word of what a connection speaks.
fn put_kind(text: &mut String, kind: Kind) -> Result<(), AllocError>
    ensures { OnOk result (string_bytes text.new ≡ string_bytes text.old ++ kind_word kind) }
{
    match kind {
        Kind::Rpc => text.push_str("rpc")?,
        Kind::Smb => text.push_str("smb")?,
    }
    Ok(())
}

/// Adds a message as one whole frame.
fn put_frame(alloc: Global, text: &mut String, kind: Kind, bytes: &[u8]) -> Result<(), AllocError>
    requires { length bytes.now ≤ most_message_bytes }
    ensures { OnOk result (string_bytes text.new ≡ string_bytes text.old ++ hex_word (wrapped kind bytes.now)) }
{
    let frame = wrap(alloc, kind, bytes)?;
    put_hex_word(alloc, text, &frame)
}

/// Adds the end of an event line.
fn put_stores(text: &mut String, stores: u64) -> Result<(), AllocError>
    ensures { OnOk result (string_bytes text.new ≡ string_bytes text.old ++ stores_end stores) }
{
    writeln!(text, " !{stores}")?;
    Ok(())
}

/// Adds the line of a message, unless it is too long for a frame.
#[tactic(auto, unfolding(crate::specs::Written::message_line))]
fn put_message(
    alloc: Global,
    text: &mut String,
    kind: Kind,
    number: u64,
    bytes: &[u8],
    stores: u64,
) -> Result<(), AllocError>
    ensures { OnOk result (string_bytes text.new ≡ string_bytes text.old ++ message_line kind number bytes.now stores) }
{
    if bytes.len() <= MOST_MESSAGE_BYTES {
        write!(text, "B {number} ")?;
        put_frame(alloc, text, kind, bytes)?;
        put_stores(text, stores)?;
    }
    Ok(())
}

/// Adds the answer of a call, if there is one.
fn put_answer(
    alloc: Global,
    text: &mut String,
    answer: &Option<Sequence<u8>>,
) -> Result<(), AllocError>
    ensures { OnOk result (string_bytes text.new ≡ string_bytes text.old ++ answer_words answer.now) }
{
    if let Some(bytes) = answer {
        text.push_str(" ")?;
        put_hex_word(alloc, text, bytes.as_slice())?;
    }
    Ok(())
}

/// Adds the line of a call that ended.
fn put_called(
    alloc: Global,
    text: &mut String,
    call: u64,
    answer: &Option<Sequence<u8>>,
    stores: u64,
) -> Result<(), AllocError>
    ensures { OnOk result (string_bytes text.new ≡ string_bytes text.old ++ (codes "C " ++ decimal call) ++ answer_words answer.now ++ stores_end stores) }
{
    write!(text, "C {call}")?;
    put_answer(alloc, text, answer)?;
    put_stores(text, stores)
}

/// Adds the line of an opening.
fn put_open(text: &mut String, kind: Kind, stores: u64) -> Result<(), AllocError>
    ensures { OnOk result (string_bytes text.new ≡ string_bytes text.old ++ codes "O " ++ kind_word kind ++ stores_end stores) }
{
    text.push_str("O ")?;
    put_kind(text, kind)?;
    put_stores(text, stores)
}

/// Adds the line of an event of these entries.
#[tactic(auto, unfolding(crate::specs::Written::event_line))]
fn put_event(
    alloc: Global,
    text: &mut String,
    all: &[Entry],
    event: &Event,
    stores: u64,
) -> Result<(), AllocError>
    ensures { OnOk result (string_bytes text.new ≡ string_bytes text.old ++ event_line all.now event.now stores) }
{
    match event {
        Event::Open(kind) => put_open(text, *kind, stores)?,
        Event::Message(number, bytes) => {
            let kind = kind_at(all, *number);
            put_message(alloc, text, kind, *number, bytes.as_slice(), stores)?;
        }
        Event::End(number) => writeln!(text, "E {number} !{stores}")?,
        Event::Called(call, answer) => put_called(alloc, text, *call, answer, stores)?,
        Event::Tick(moment) => {
            let milliseconds = moment.0;
            writeln!(text, "T {milliseconds} !{stores}")?;
        }
        Event::Restart => writeln!(text, "R !{stores}")?,
    }
    Ok(())
}

/// Adds the lines of the entries' events.
fn put_events(alloc: Global, text: &mut String, all: &[Entry]) -> Result<(), AllocError>
    ensures { OnOk result (string_bytes text.new ≡ string_bytes text.old ++ event_lines all.now all.now) }
{
    for entry in all {
        put_event(alloc, text, all, &entry.event, entry.stores)?;
    }
    Ok(())
}

/// The capture of a journal: what it began from, the record that the first start loaded among it, and then a line for each
/// entry, which ends with the number of its stores; a message stands as one whole frame. A message of more than 65,536 bytes
/// has no frame, and no line.
#[tactic(auto, using(crate::proofs::WrittenLaws::written_again))]
pub fn capture_of(alloc: Global, journal: &Journal) -> Result<Vec<u8>, AllocError>
    ensures text { IfOk result (λ text. text.items ≡ capture_of journal.now) }
    // What is written is read: the head, and each event with its stores.
    ensures again { IsSayable journal.now → IfOk result (λ text. length text.items ≤ most_bytes → captured text.items ≡ Ok (said_by journal.now)) }
{
    write(alloc, journal)
}

#[tactic(auto, unfolding(crate::specs::Written::capture_of))]
fn write(alloc: Global, journal: &Journal) -> Result<Vec<u8>, AllocError>
    ensures { IfOk result (λ text. text.items ≡ capture_of journal.now) }
{
    let mut text = header_of(alloc, &journal.head)?;
    let mut lines = String::new(alloc);
    put_events(alloc, &mut lines, journal.entries.as_slice())?;
    text.extend_from_slice(lines.as_bytes())?;
    Ok(text)
}
