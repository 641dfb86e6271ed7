//! The text of a capture.
ghost use Rattle.std.specs.Prelude.{◌≡◌, ℕ, ◌∷◌, [], ◌++◌, length, map, take, Option, Some, None, MatchOption, IfOk, IfSome, ◌<◌, ◌==◌, nat_le, ◌&&◌, ◌||◌, bytes_eq, codes, position, true};
ghost use Rattle.std.specs.List.{list_all};
ghost use Rattle.std.specs.Option.{option_and_then};
ghost use Rattle.xl_base.specs.Results.{GivesUnless};
ghost use Rattle.xl_base.specs.Stable.{is_mark_of, is_reclaiming, is_recordable};
ghost use Rattle.xl_capture.specs.declared.capture.CaptureError.TheVariants.{NoMemory as capture_no_memory};
ghost use Rattle.xl_capture.specs.declared.capture.LineError.TheVariants.{NoMemory as line_no_memory};

use crate::addresses::Addresses;
use crate::links::{Link, Links};
use crate::numbers::number_of;
use crate::step::{ALL_STORES, Step};
use hex::FromHexError;
use std::alloc::{AllocError, AllocFailed, Global};
use xl_base::{
    Event, Kind, MOST_CONNECTIONS, Mark, Moment, Protocol, Record, RecordNameError, Recorded,
    Sequence,
};

/// The most bytes of a capture.
pub const MOST_BYTES: usize = 268435456;

/// The most files of a capture.
const MOST_FILES: usize = 1024;

/// How long a lease lasts if nothing is said of it, in milliseconds.
pub const DEFAULT_LEASE: u64 = 90_000;

/// How long grace lasts if nothing is said of it, in milliseconds.
pub const DEFAULT_GRACE: u64 = 90_000;

/// How long a break lasts if nothing is said of it, in milliseconds.
pub const DEFAULT_BREAK: u64 = 35_000;

/// The longest time that may be said, in milliseconds.
const LONGEST_TIME: u64 = 4_000_000_000;

/// The most stores that a line may say.
const MOST_STORES: u64 = 9_999;

/// What a capture says: the exported files, the addresses of callers, how long leases, grace and breaks last, the record
/// before the start, and the events in order.
#[derive(Drop)]
pub struct Capture {
    /// The names of the files, numbered from 1 in this order.
    pub files: Sequence<Sequence<u8>>,
    /// The callback addresses of NLM callers, in order: a caller's name, which no other has, and 1 to 64 graphic bytes
    /// of ASCII.
    pub addresses: Addresses,
    /// How long a lease of an NFSv4 client lasts, in milliseconds, from 1 to 4,000,000,000; so do the next two.
    pub lease: u64,
    /// How long the grace for reclaims lasts.
    pub grace: u64,
    /// How long a break of a cache is waited for.
    pub break_time: u64,
    /// The record that the first start loads.
    pub stable: Record,
    /// The events in order, each with the stores that succeed in it.
    pub steps: Sequence<Step>,
}

/// What is known at a line of a capture.
#[derive(Drop)]
struct Reading {
    /// What the lines so far say.
    capture: Capture,
    /// The connections that are open.
    links: Links,
    /// Whether the times stood.
    timed: bool,
    /// Whether the epoch stood.
    counted: bool,
    /// Whether an event line stood.
    begun: bool,
}

/// Why a text is no capture.
#[derive(Clone, Copy, Debug)]
pub enum CaptureError {
    /// Memory ran out.
    NoMemory,
    /// The line of this number, counted from 1, is the first that isn't in the grammar.
    BadLine(u64),
}

/// Why a line can't be added to a capture.
#[derive(Clone, Copy)]
pub(crate) enum LineError {
    NoMemory,
    Bad,
}

impl From<AllocError> for LineError {
    ghost from_gives = { λ _ e. e ≡ line_no_memory };

    fn from(_e: AllocError) -> LineError {
        LineError::NoMemory
    }
}

impl<T: Drop> From<AllocFailed<T>> for LineError {
    ghost from_gives = { λ _ e. e ≡ line_no_memory };

    fn from(_e: AllocFailed<T>) -> LineError {
        LineError::NoMemory
    }
}

ghost use Rattle.xl_capture.specs.Capture.{is_line_end, lines_of, words_of, is_name_byte, is_file_name, is_graphic, is_address, bytes_of, is_named, takes_file, with_file, takes_address, with_address, with_host, time_of, with_times, with_lasting, epoch_of, with_count, with_epoch, protocol_of, with_client, with_named, mark_said, with_marked, with_events, kind_of, with_opened, with_open, with_piece, with_bytes, with_ended, with_end, with_reply, with_no_reply, with_tick, with_restart, with_event, few_stores, stores_of, said_stores, with_entries, with_words, is_passed_over, with_line, with_lines, no_reading, capture_in, looked_at, captured, bad_line, Follows, ReadsAs};
ghost use Rattle.xl_capture.specs.Numbers.{number_of};

#[tactic(auto, using(crate::proofs::LineLaws::first_line, crate::proofs::LineLaws::only_line))]
/// The first line of a text and what comes after its end, or None if there is no line.
pub(crate) fn next_line(text: &[u8]) -> Option<(&[u8], &[u8])>
    ensures lines { MatchOption result (text.now ≡ []) (λ p. lines_of text.now ≡ p.0.now ∷ lines_of p.1.now) }
    ensures shorter { IfSome result (λ p. length p.1.now < length text.now) }
{
    if text.is_empty() {
        return None;
    }
    match line_end(text) {
        Some(end) => {
            let (line, _) = text.split_at(end);
            let (_, rest) = text.split_at(end + 1);
            Some((line, rest))
        }
        None => {
            let (line, rest) = text.split_at(text.len());
            Some((line, rest))
        }
    }
}

/// Where the first line ends, if it has an end.
fn line_end(text: &[u8]) -> Option<usize>
    ensures { result ≡ position is_line_end text.now }
{
    text.iter().position(|b| *b == b'\n')
}

fn is_name_byte(b: u8) -> bool
    ensures { result ≡ is_name_byte b }
{
    matches!(b, b'a'..=b'z' | b'0'..=b'9' | b'.' | b'_' | b'-')
}

fn is_file_name(name: &[u8]) -> bool
    ensures { result ≡ is_file_name name.now }
{
    1 <= name.len() && name.len() <= 64 && are_name_bytes(name)
}

fn are_name_bytes(name: &[u8]) -> bool
    ensures { result ≡ list_all is_name_byte name.now }
{
    name.iter().all(|b| is_name_byte(*b))
}

fn is_address(address: &[u8]) -> bool
    ensures { result ≡ is_address address.now }
{
    1 <= address.len() && address.len() <= 64 && are_graphic(address)
}

fn are_graphic(address: &[u8]) -> bool
    ensures { result ≡ list_all is_graphic address.now }
{
    address.iter().all(|b| b.is_ascii_graphic())
}

pub(crate) fn is_text(bytes: &[u8], text: &[u8]) -> bool
    ensures { result ≡ bytes_eq bytes.now text.now }
{
    bytes == text
}

fn is_named(name: &[u8], names: &[Sequence<u8>]) -> bool
    ensures { result ≡ is_named name.now names.now }
{
    names.iter().any(|held| is_text(held.as_slice(), name))
}

/// The bytes of a hex word.
pub(crate) fn bytes_of(alloc: Global, word: &[u8]) -> Result<Vec<u8>, LineError>
    ensures { ReadsAs (λ v. v.items) result (bytes_of word.now) }
{
    if word.is_empty() {
        return Err(LineError::Bad);
    }
    if is_text(word, b"-") {
        return Ok(Vec::new(alloc));
    }
    match hex::decode(alloc, word) {
        Ok(bytes) => Ok(bytes),
        Err(FromHexError::OutOfMemory) => Err(LineError::NoMemory),
        Err(_) => Err(LineError::Bad),
    }
}

/// Whether a file of this name may be added.
fn takes_file(reading: &Reading, name: &[u8]) -> bool
    ensures { result ≡ takes_file reading.now name.now }
{
    !reading.begun
        && reading.capture.files.len() < MOST_FILES
        && is_file_name(name)
        && !is_named(name, reading.capture.files.as_slice())
}

/// Adds a line `F NAME`.
#[tactic(auto, unfolding(crate::specs::Capture::with_file))]
fn add_file(alloc: Global, reading: &mut Reading, name: &[u8]) -> Result<(), LineError>
    ensures { Follows result (with_file reading.old name.now) reading.new }
{
    if !takes_file(reading, name) {
        return Err(LineError::Bad);
    }
    let name = Sequence::from_slice(alloc, name)?;
    reading.capture.files.push(name)?;
    Ok(())
}

/// Whether this address of this caller may be added.
fn takes_address(reading: &Reading, caller: &Sequence<u8>, address: &[u8]) -> bool
    ensures { result ≡ takes_address reading.now caller.now address.now }
{
    is_address(address) && !reading.begun && !reading.capture.addresses.has(caller)
}

/// Adds the address of a caller.
#[tactic(auto, unfolding(crate::specs::Capture::with_address))]
fn add_address(
    alloc: Global,
    reading: &mut Reading,
    caller: Sequence<u8>,
    address: &[u8],
) -> Result<(), LineError>
    ensures { Follows result (with_address reading.old caller address.now) reading.new }
{
    if !takes_address(reading, &caller, address) {
        return Err(LineError::Bad);
    }
    let address = Sequence::from_slice(alloc, address)?;
    reading.capture.addresses.push(alloc, caller, address)?;
    Ok(())
}

/// Adds a line `H HEX ADDR`.
#[tactic(auto, unfolding(crate::specs::Capture::with_host))]
fn add_host(
    alloc: Global,
    reading: &mut Reading,
    hex: &[u8],
    address: &[u8],
) -> Result<(), LineError>
    ensures { Follows result (with_host reading.old hex.now address.now) reading.new }
{
    let caller = Sequence::from_vec(bytes_of(alloc, hex)?);
    add_address(alloc, reading, caller, address)
}

/// A time in milliseconds.
fn time_of(word: &[u8]) -> Option<u64>
    ensures { result ≡ time_of word.now }
{
    match number_of(word) {
        Some(time) if 1 <= time && time <= LONGEST_TIME => Some(time),
        _ => None,
    }
}

/// Adds the times, if none stood.
fn add_times(
    reading: &mut Reading,
    lease: u64,
    grace: u64,
    break_time: u64,
) -> Result<(), LineError>
    ensures { Follows result (with_times reading.old lease grace break_time) reading.new }
{
    if reading.begun || reading.timed {
        return Err(LineError::Bad);
    }
    reading.timed = true;
    reading.capture.lease = lease;
    reading.capture.grace = grace;
    reading.capture.break_time = break_time;
    Ok(())
}

/// Adds a line `L LEASE GRACE BREAK`.
#[tactic(auto, unfolding(crate::specs::Capture::with_lasting))]
fn add_lasting(
    reading: &mut Reading,
    lease: &[u8],
    grace: &[u8],
    break_time: &[u8],
) -> Result<(), LineError>
    ensures { Follows result (with_lasting reading.old lease.now grace.now break_time.now) reading.new }
{
    let Some(lease) = time_of(lease) else {
        return Err(LineError::Bad);
    };
    let Some(grace) = time_of(grace) else {
        return Err(LineError::Bad);
    };
    let Some(break_time) = time_of(break_time) else {
        return Err(LineError::Bad);
    };
    add_times(reading, lease, grace, break_time)
}

/// An epoch.
fn epoch_of(word: &[u8]) -> Option<u32>
    ensures { result ≡ epoch_of word.now }
{
    match number_of(word) {
        Some(epoch) if epoch <= u64::from(u32::MAX) => Some(epoch as u32),
        _ => None,
    }
}

/// Adds the epoch, if none stood.
fn add_count(reading: &mut Reading, epoch: u32) -> Result<(), LineError>
    ensures { Follows result (with_count reading.old epoch) reading.new }
{
    if reading.begun || reading.counted {
        return Err(LineError::Bad);
    }
    reading.counted = true;
    reading.capture.stable.set_epoch(epoch);
    Ok(())
}

/// Adds a line `K EPOCH`.
#[tactic(auto, unfolding(crate::specs::Capture::with_epoch))]
fn add_epoch(reading: &mut Reading, word: &[u8]) -> Result<(), LineError>
    ensures { Follows result (with_epoch reading.old word.now) reading.new }
{
    match epoch_of(word) {
        Some(epoch) => add_count(reading, epoch),
        None => Err(LineError::Bad),
    }
}

/// Whose clients are recorded by this word.
fn protocol_of(word: &[u8]) -> Option<Protocol>
    ensures said { result ≡ protocol_of word.now }
    ensures reclaims { IfSome result (λ protocol. is_reclaiming protocol ≡ true) }
{
    if is_text(word, b"nfs") {
        Some(Protocol::Nfs)
    } else if is_text(word, b"nlm") {
        Some(Protocol::Nlm)
    } else {
        None
    }
}

/// Records the client of this name, with this mark or none, if it may be recorded.
#[tactic(auto, unfolding(crate::specs::Capture::with_client))]
fn add_client(
    reading: &mut Reading,
    protocol: Protocol,
    name: Sequence<u8>,
    mark: Option<Mark>,
) -> Result<(), LineError>
    requires { is_recordable (record { protocol = protocol; name = name; mark = mark }) ≡ true }
    ensures { Follows result (with_client reading.old protocol name mark) reading.new }
{
    if reading.begun {
        return Err(LineError::Bad);
    }
    match reading.capture.stable.add(Recorded {
        protocol,
        name,
        mark,
    }) {
        Ok(()) => Ok(()),
        Err(RecordNameError::NoMemory) => Err(LineError::NoMemory),
        Err(RecordNameError::Unfit | RecordNameError::Twice) => Err(LineError::Bad),
    }
}

/// Adds a line `N PROTOCOL HEX`.
#[tactic(auto, unfolding(crate::specs::Capture::with_named))]
fn add_named(alloc: Global, reading: &mut Reading, word: &[u8], hex: &[u8]) -> Result<(), LineError>
    ensures { Follows result (with_named reading.old word.now hex.now) reading.new }
{
    let Some(protocol) = protocol_of(word) else {
        return Err(LineError::Bad);
    };
    let name = Sequence::from_vec(bytes_of(alloc, hex)?);
    add_client(reading, protocol, name, None)
}

/// The mark of an NFSv4 client or an NLM client of these bytes, None if they are too many or too few.
fn mark_said(protocol: Protocol, bytes: &[u8]) -> Option<Mark>
    requires { is_reclaiming protocol ≡ true }
    ensures said { result ≡ mark_said protocol bytes.now }
    ensures fits { is_mark_of protocol result ≡ true }
{
    match protocol {
        Protocol::Nlm if bytes.len() == 4 => Some(Mark::State(four(bytes))),
        Protocol::Nfs if bytes.len() == 8 => Some(Mark::Verifier(eight(bytes))),
        _ => None,
    }
}

fn four(bytes: &[u8]) -> [u8; 4]
    requires { length bytes.now ≡ 4 }
    ensures { result ≡ bytes.now }
{
    let (front, _) = bytes.split_first_chunk::<4>().unwrap();
    *front
}

fn eight(bytes: &[u8]) -> [u8; 8]
    requires { length bytes.now ≡ 8 }
    ensures { result ≡ bytes.now }
{
    let (front, _) = bytes.split_first_chunk::<8>().unwrap();
    *front
}

/// Adds a line `N PROTOCOL HEX MARK`.
#[tactic(auto, unfolding(crate::specs::Capture::with_marked))]
fn add_marked(
    alloc: Global,
    reading: &mut Reading,
    word: &[u8],
    hex: &[u8],
    mark: &[u8],
) -> Result<(), LineError>
    ensures { Follows result (with_marked reading.old word.now hex.now mark.now) reading.new }
{
    let Some(protocol) = protocol_of(word) else {
        return Err(LineError::Bad);
    };
    let name = Sequence::from_vec(bytes_of(alloc, hex)?);
    let bytes = bytes_of(alloc, mark)?;
    let Some(kept) = mark_said(protocol, &bytes) else {
        return Err(LineError::Bad);
    };
    add_client(reading, protocol, name, Some(kept))
}

/// Adds an event, in which so many stores succeed.
fn add_step(reading: &mut Reading, stores: u64, event: Event) -> Result<(), LineError>
    ensures { Follows result (Some (with_events reading.old stores (event ∷ []) reading.old.links)) reading.new }
{
    reading.begun = true;
    reading.capture.steps.push(Step { event, stores })?;
    Ok(())
}

/// What a connection of this word speaks.
fn kind_of(word: &[u8]) -> Option<Kind>
    ensures { result ≡ kind_of word.now }
{
    if is_text(word, b"rpc") {
        Some(Kind::Rpc)
    } else if is_text(word, b"smb") {
        Some(Kind::Smb)
    } else {
        None
    }
}

/// Adds the opening of a connection of this kind. Its number is the place of this event.
#[tactic(auto, unfolding(crate::specs::Capture::with_opened))]
fn add_opened(
    alloc: Global,
    reading: &mut Reading,
    stores: u64,
    kind: Kind,
) -> Result<(), LineError>
    ensures { Follows result (Some (with_opened reading.old stores kind)) reading.new }
{
    let place = reading.capture.steps.len() as u64;
    add_step(reading, stores, Event::Open(kind))?;
    if reading.links.len() < MOST_CONNECTIONS {
        reading.links.push(Link::open(alloc, place, kind))?;
    }
    Ok(())
}

/// Adds a line `O KIND`.
#[tactic(auto, unfolding(crate::specs::Capture::with_open))]
fn add_open(alloc: Global, reading: &mut Reading, stores: u64, word: &[u8]) -> Result<(), LineError>
    ensures { Follows result (with_open reading.old stores word.now) reading.new }
{
    match kind_of(word) {
        Some(kind) => add_opened(alloc, reading, stores, kind),
        None => Err(LineError::Bad),
    }
}

/// Adds bytes that come by the connection of this number.
#[tactic(auto, unfolding(crate::specs::Capture::with_piece))]
fn add_piece(
    alloc: Global,
    reading: &mut Reading,
    stores: u64,
    conn: u64,
    bytes: &[u8],
) -> Result<(), LineError>
    ensures { Follows result (Some (with_piece reading.old stores conn bytes.now)) reading.new }
{
    reading.begun = true;
    let Some(link) = reading.links.take_out(conn) else {
        return Ok(());
    };
    if let Some(open) = link.feed(alloc, stores, bytes, &mut reading.capture.steps)? {
        reading.links.push(open)?;
    }
    Ok(())
}

/// Adds a line `B CONN HEX`.
#[tactic(auto, unfolding(crate::specs::Capture::with_bytes))]
fn add_bytes(
    alloc: Global,
    reading: &mut Reading,
    stores: u64,
    conn: &[u8],
    hex: &[u8],
) -> Result<(), LineError>
    ensures { Follows result (with_bytes reading.old stores conn.now hex.now) reading.new }
{
    let Some(conn) = number_of(conn) else {
        return Err(LineError::Bad);
    };
    let bytes = bytes_of(alloc, hex)?;
    add_piece(alloc, reading, stores, conn, &bytes)
}

/// Adds the end of the connection of this number, if it is open.
#[tactic(auto, unfolding(crate::specs::Capture::with_ended))]
fn add_ended(reading: &mut Reading, stores: u64, conn: u64) -> Result<(), LineError>
    ensures { Follows result (Some (with_ended reading.old stores conn)) reading.new }
{
    reading.begun = true;
    match reading.links.take_out(conn) {
        Some(link) => add_step(reading, stores, Event::End(link.conn())),
        None => Ok(()),
    }
}

/// Adds a line `E CONN`.
#[tactic(auto, unfolding(crate::specs::Capture::with_end))]
fn add_end(reading: &mut Reading, stores: u64, conn: &[u8]) -> Result<(), LineError>
    ensures { Follows result (with_end reading.old stores conn.now) reading.new }
{
    match number_of(conn) {
        Some(conn) => add_ended(reading, stores, conn),
        None => Err(LineError::Bad),
    }
}

/// Adds a line `C CALL HEX`.
#[tactic(auto, unfolding(crate::specs::Capture::with_reply, crate::specs::Capture::with_called))]
fn add_reply(
    alloc: Global,
    reading: &mut Reading,
    stores: u64,
    call: &[u8],
    hex: &[u8],
) -> Result<(), LineError>
    ensures { Follows result (with_reply reading.old stores call.now hex.now) reading.new }
{
    let Some(call) = number_of(call) else {
        return Err(LineError::Bad);
    };
    let reply = Sequence::from_vec(bytes_of(alloc, hex)?);
    add_step(reading, stores, Event::Called(call, Some(reply)))
}

/// Adds a line `C CALL`.
#[tactic(auto, unfolding(crate::specs::Capture::with_no_reply, crate::specs::Capture::with_called))]
fn add_no_reply(reading: &mut Reading, stores: u64, call: &[u8]) -> Result<(), LineError>
    ensures { Follows result (with_no_reply reading.old stores call.now) reading.new }
{
    match number_of(call) {
        Some(call) => add_step(reading, stores, Event::Called(call, None)),
        None => Err(LineError::Bad),
    }
}

/// Adds a line `T MS`.
#[tactic(auto, unfolding(crate::specs::Capture::with_tick))]
fn add_tick(reading: &mut Reading, stores: u64, moment: &[u8]) -> Result<(), LineError>
    ensures { Follows result (with_tick reading.old stores moment.now) reading.new }
{
    match number_of(moment) {
        Some(moment) => add_step(reading, stores, Event::Tick(Moment(moment))),
        None => Err(LineError::Bad),
    }
}

/// Adds a line `R`, behind which no connection is open.
fn add_restart(alloc: Global, reading: &mut Reading, stores: u64) -> Result<(), LineError>
    ensures { Follows result (Some (with_restart reading.old stores)) reading.new }
{
    add_step(reading, stores, Event::Restart)?;
    reading.links = Links::new(alloc);
    Ok(())
}

/// Adds an event line, given by its words without ` !n`; in each of its entries so many stores succeed.
#[tactic(auto, unfolding(crate::specs::Capture::with_event))]
fn add_event(
    alloc: Global,
    reading: &mut Reading,
    stores: u64,
    words: &[&[u8]],
) -> Result<(), LineError>
    ensures { Follows result (with_event reading.old stores (map (λ w. w.now) words.now)) reading.new }
{
    match words {
        [a] if is_text(a, b"R") => add_restart(alloc, reading, stores),
        [a, kind] if is_text(a, b"O") => add_open(alloc, reading, stores, kind),
        [a, conn] if is_text(a, b"E") => add_end(reading, stores, conn),
        [a, call] if is_text(a, b"C") => add_no_reply(reading, stores, call),
        [a, moment] if is_text(a, b"T") => add_tick(reading, stores, moment),
        [a, conn, hex] if is_text(a, b"B") => add_bytes(alloc, reading, stores, conn, hex),
        [a, call, hex] if is_text(a, b"C") => add_reply(alloc, reading, stores, call, hex),
        _ => Err(LineError::Bad),
    }
}

/// So many stores, if a line may say so.
fn few_of(stores: Option<u64>) -> Option<u64>
    ensures { result ≡ option_and_then few_stores stores }
{
    match stores {
        Some(stores) if stores <= MOST_STORES => Some(stores),
        _ => None,
    }
}

/// The number of stores that a word `!n` says.
fn stores_of(word: &[u8]) -> Option<u64>
    ensures { result ≡ stores_of word.now }
{
    match word {
        [b'!', digits @ ..] => few_of(number_of(digits)),
        _ => None,
    }
}

/// Adds an event line, given by its words, of which the last may say how many stores succeed.
#[tactic(auto, using(crate::proofs::LineLaws::no_entries, crate::proofs::LineLaws::said_entries, crate::proofs::LineLaws::unsaid_entries))]
fn add_entries(alloc: Global, reading: &mut Reading, words: &[&[u8]]) -> Result<(), LineError>
    ensures { Follows result (with_entries reading.old (map (λ w. w.now) words.now) (said_stores (map (λ w. w.now) words.now))) reading.new }
{
    let Some((last, rest)) = words.split_last() else {
        return Err(LineError::Bad);
    };
    match stores_of(last) {
        Some(stores) => add_event(alloc, reading, stores, rest),
        None => add_event(alloc, reading, ALL_STORES, words),
    }
}

/// Adds a line, given by its words.
#[tactic(auto, unfolding(crate::specs::Capture::with_words))]
fn add_words(alloc: Global, reading: &mut Reading, words: &[&[u8]]) -> Result<(), LineError>
    ensures { Follows result (with_words reading.old (map (λ w. w.now) words.now)) reading.new }
{
    match words {
        [a, name] if is_text(a, b"F") => add_file(alloc, reading, name),
        [a, epoch] if is_text(a, b"K") => add_epoch(reading, epoch),
        [a, caller, address] if is_text(a, b"H") => add_host(alloc, reading, caller, address),
        [a, protocol, name] if is_text(a, b"N") => add_named(alloc, reading, protocol, name),
        [a, b, c, d] if is_text(a, b"L") => add_lasting(reading, b, c, d),
        [a, protocol, name, mark] if is_text(a, b"N") => {
            add_marked(alloc, reading, protocol, name, mark)
        }
        _ => add_entries(alloc, reading, words),
    }
}

/// The first words of a line: as many as tell whether it is in the grammar, in which no line has more than four.
pub(crate) fn words_of(alloc: Global, line: &[u8]) -> Result<Vec<&[u8]>, AllocError>
    ensures { IfOk result (λ v. map (λ w. w.now) v.items ≡ take 5 (words_of line.now)) }
{
    line.split(|b| *b == b' ' || *b == b'\t')
        .take(5)
        .collect(alloc)
}

/// Whether a line is passed over: one that is empty, or begins with `#`.
pub(crate) fn is_passed_over(line: &[u8]) -> bool
    ensures { result ≡ is_passed_over line.now }
{
    matches!(line, [] | [b'#', ..])
}

/// Adds a line.
#[tactic(auto, using(crate::proofs::LineLaws::few_words), unfolding(crate::specs::Capture::with_line))]
fn add_line(alloc: Global, reading: &mut Reading, line: &[u8]) -> Result<(), LineError>
    ensures { Follows result (with_line reading.old line.now) reading.new }
{
    if is_passed_over(line) {
        return Ok(());
    }
    let words = words_of(alloc, line)?;
    add_words(alloc, reading, &words)
}

/// What is looked at of a text: no more than one byte past `MOST_BYTES`.
#[tactic(auto, using(crate::proofs::LineLaws::looked_whole))]
pub(crate) fn looked_at(text: &[u8]) -> &[u8]
    ensures { result.now ≡ looked_at text.now }
{
    if text.len() > MOST_BYTES {
        &text[..MOST_BYTES + 1]
    } else {
        text
    }
}

#[tactic(auto, using(crate::proofs::LineLaws::is_last_line), unfolding(crate::specs::Capture::with_lines))]
/// Reads the lines of a capture; past says that the last of them is bad.
fn read_lines(alloc: Global, past: bool, text: &[u8]) -> Result<Capture, CaptureError>
    ensures { GivesUnless bad_line (λ c. c) result (capture_in (with_lines past no_reading 0 (lines_of text.now))) }
{
    let mut reading = Reading {
        capture: Capture {
            files: Sequence::new(alloc),
            addresses: Addresses::new(alloc),
            lease: DEFAULT_LEASE,
            grace: DEFAULT_GRACE,
            break_time: DEFAULT_BREAK,
            stable: Record::new(alloc),
            steps: Sequence::new(alloc),
        },
        links: Links::new(alloc),
        timed: false,
        counted: false,
        begun: false,
    };
    let mut rest = text;
    let mut number = 0u64;
    'lines: while let Some((line, after)) = next_line(rest) {
        number += 1;
        if past && after.is_empty() {
            return Err(CaptureError::BadLine(number));
        }
        match add_line(alloc, &mut reading, line) {
            Ok(()) => {}
            Err(LineError::Bad) => return Err(CaptureError::BadLine(number)),
            Err(LineError::NoMemory) => return Err(CaptureError::NoMemory),
        }
        rest = after;
    }
    Ok(reading.capture)
}

/// Reads a capture. Of a text past `MOST_BYTES` the line with the byte past them is bad, if none before it is.
#[tactic(auto, unfolding(crate::specs::Capture::captured))]
pub fn read_capture(alloc: Global, text: &[u8]) -> Result<Capture, CaptureError>
    ensures { GivesUnless bad_line (λ c. c) result (captured text.now) }
{
    read_lines(alloc, text.len() > MOST_BYTES, looked_at(text))
}
