//! The program's words.
ghost use Rattle.std.specs.Prelude.{◌≡◌, ◌≢◌, ◌<◌, ◌≤◌, ◌^◌, [], List, map, codes, None, Some, option_map, IfOk, IfErr, IfSome, position, string_bytes, false};
ghost use Rattle.clap.specs.Words.{app_of, fault_of, first_of, found_of, kind_of, rows_of, rule_of, subcommand_rows_of};
ghost use Rattle.xl_words.specs.Words.{program, asked, option_of, wanted, make_of, number_in, number_or, number_to, port_in, is_dot, parted, byte_from, next_byte, address_of, given_address, make_job, serve_job, job_by, job, job_of, HasFit};

use clap::error::ErrorKind;
use clap::{Arg, ArgAction, ArgMatches, Command, Error};
use std::alloc::Global;
use xl_capture::number_of;

/// The most calls that are made.
const MOST_MADE: u64 = 1_000_000;

/// The most lanes of a kind.
const MOST_LANES: u64 = 16;

/// The most turns of a worker.
const MOST_TURNS: u64 = 1_000_000_000;

/// How a served machine is reached, and how long.
#[derive(Clone, Copy)]
pub struct Serving {
    /// The port for ONC RPC, at least 1.
    pub rpc: u16,
    /// The port for SMB, at least 1.
    pub smb: u16,
    /// How many lanes each kind has, 1 to 16.
    pub lanes: u32,
    /// How many turns each lane and caller has, 1 to 1,000,000,000.
    pub turns: u32,
    /// The IPv4 address of this machine that is listened at, its first byte in front; None for 127.0.0.1, from which alone clients
    /// come then, and where alone they are called.
    pub address: Option<(u8, u8, u8, u8)>,
}

/// What the program's words ask for.
#[derive(Clone, Copy)]
pub enum Job {
    /// Read a capture, replay it, and write its transcript.
    Replay,
    /// Read messages, one in a line, and write a line on each.
    Show,
    /// Step so many calls, at most 1,000,000, by the draws of a seed below 2^31, and write a summary.
    Make(u32, u32),
    /// Read exports, serve them, and write the capture of what was served.
    Serve(Serving),
}

/// Why words ask for no job.
#[derive(Clone, Copy)]
pub enum ParseError {
    /// Memory ran out.
    NoMemory,
    /// They aren't the words of a command, or ask for help or the version.
    Usage,
}

/// An argument that has to be given.
fn wanted<'a>(alloc: Global, id: &'a str) -> Arg<'a>
    ensures rule { rule_of result ≡ wanted id.entry.now }
    ensures local { result.global ≡ false }
{
    Arg::new(alloc, id).required(true)
}

/// An option with a value, under its own name.
fn option_of<'a>(alloc: Global, id: &'a str, required: bool) -> Arg<'a>
    ensures rule { rule_of result ≡ option_of id.entry.now required }
    ensures local { result.global ≡ false }
{
    Arg::new(alloc, id)
        .long(id)
        .required(required)
        .action(ArgAction::Set)
}

/// The words as the command line takes them.
fn matches<'a>(alloc: Global, words: &'a [String]) -> Result<ArgMatches<'a>, Error>
    ensures ok { IfOk result (λ m. asked (map string_bytes words.entry.now) ≡ subcommand_rows_of m) }
    ensures err { IfErr result (λ e. kind_of e ≢ ErrorKind.OutOfMemory → asked (map string_bytes words.entry.now) ≡ None) }
{
    let replay = Command::new(alloc, "replay");
    let show = Command::new(alloc, "show");
    let bare = Command::new(alloc, "xlockd");
    let strict = bare.subcommand_required(true);
    let first = strict.subcommand(replay)?;
    let second = first.subcommand(show)?;
    let seed = wanted(alloc, "SEED");
    let count = wanted(alloc, "COUNT");
    let unasked = Command::new(alloc, "make");
    let seeded = unasked.arg(seed)?;
    let make = seeded.arg(count)?;
    let third = second.subcommand(make)?;
    let rpc = option_of(alloc, "rpc", true);
    let smb = option_of(alloc, "smb", true);
    let path = option_of(alloc, "record", true);
    let lanes = option_of(alloc, "lanes", false);
    let turns = option_of(alloc, "turns", false);
    let listen = option_of(alloc, "listen", false);
    let idle = Command::new(alloc, "serve");
    let calls = idle.arg(rpc)?;
    let both = calls.arg(smb)?;
    let kept = both.arg(path)?;
    let wide = kept.arg(lanes)?;
    let timed = wide.arg(turns)?;
    let serve = timed.arg(listen)?;
    let program = third.subcommand(serve)?;
    program.try_get_matches_from(words)
}

/// The job of `make` with these numbers, if they are in their ranges.
fn make_of(seed: u64, count: u64) -> Option<Job>
    ensures is { result ≡ make_of seed count }
    ensures fit { IfSome result HasFit }
{
    if seed < 1 << 31 && count <= MOST_MADE {
        Some(Job::Make(seed as u32, count as u32))
    } else {
        None
    }
}

/// The number that a word of a command is.
#[tactic(auto, using(crate::proofs::WordLaws::told_number, crate::proofs::WordLaws::told_none))]
fn number_in(words: &ArgMatches, id: &str) -> Option<u64>
    ensures { result ≡ number_in id.now (rows_of (found_of words.now)) }
{
    match words.get_str(id) {
        Some(word) => number_of(word.as_bytes()),
        None => None,
    }
}

/// The job of `make` with its own words.
fn make_job(words: &ArgMatches) -> Option<Job>
    ensures is { result ≡ make_job (number_in (codes "SEED") (rows_of (found_of words.now))) (number_in (codes "COUNT") (rows_of (found_of words.now))) }
    ensures fit { IfSome result HasFit }
{
    let seed = number_in(words, "SEED")?;
    let count = number_in(words, "COUNT")?;
    make_of(seed, count)
}

/// A number from 1 to the most.
fn number_to(number: Option<u64>, most: u64) -> Option<u64>
    ensures is { result ≡ number_to number most }
    ensures fit { IfSome result (λ n. (1 ≤ n) × (n ≤ most)) }
{
    let number = number?;
    if 1 <= number && number <= most {
        Some(number)
    } else {
        None
    }
}

/// The number of an option from 1 to the most, or this one if the option isn't there.
#[tactic(auto, using(crate::proofs::WordLaws::given_number, crate::proofs::WordLaws::given_none))]
fn number_or(words: &ArgMatches, id: &str, otherwise: u64, most: u64) -> Option<u64>
    requires { (1 ≤ otherwise) × (otherwise ≤ most) }
    ensures is { result ≡ number_or id.now otherwise most (rows_of (found_of words.now)) }
    ensures fit { IfSome result (λ n. (1 ≤ n) × (n ≤ most)) }
{
    match words.get_str(id) {
        Some(word) => number_to(number_of(word.as_bytes()), most),
        None => Some(otherwise),
    }
}

/// A port.
fn port_in(words: &ArgMatches, id: &str) -> Option<u16>
    ensures is { result ≡ port_in id.now (rows_of (found_of words.now)) }
    ensures fit { IfSome result (λ n. 1 ≤ n) }
{
    let number = number_to(number_in(words, id), 65_535)?;
    Some(number as u16)
}

/// Where the first dot stands.
fn first_dot(text: &[u8]) -> Option<usize>
    ensures { result ≡ position is_dot text.now }
{
    text.iter().position(|b| *b == b'.')
}

/// What stands before the first dot, and what behind it.
fn parted(text: &[u8]) -> (&[u8], Option<&[u8]>)
    ensures { (result.0.now, option_map (λ rest. rest.now) result.1) ≡ parted text.now }
{
    match first_dot(text) {
        Some(at) => {
            let (front, _) = text.split_at(at);
            let (_, rest) = text.split_at(at + 1);
            (front, Some(rest))
        }
        None => (text, None),
    }
}

/// A number of a byte.
fn byte_from(number: Option<u64>) -> Option<u8>
    ensures { result ≡ byte_from number }
{
    let number = number?;
    if number < 256 {
        Some(number as u8)
    } else {
        None
    }
}

/// The byte that the text up to its first dot is, and what stands behind the dot.
fn next_byte(text: Option<&[u8]>) -> Option<(u8, Option<&[u8]>)>
    ensures { option_map (λ r. (r.0, option_map (λ rest. rest.now) r.1)) result ≡ next_byte (option_map (λ t. t.now) text.entry) }
{
    let (word, rest) = parted(text?);
    let byte = byte_from(number_of(word))?;
    Some((byte, rest))
}

/// An IPv4 address of four decimal numbers with dots between them (RFC 1123 2.1).
#[tactic(auto, unfolding(crate::specs::Words::address_of))]
fn address_of(text: &[u8]) -> Option<(u8, u8, u8, u8)>
    ensures { result ≡ address_of text.now }
{
    let (one, rest) = next_byte(Some(text))?;
    let (two, rest) = next_byte(rest)?;
    let (three, rest) = next_byte(rest)?;
    let (four, rest) = next_byte(rest)?;
    match rest {
        Some(_) => None,
        None => Some((one, two, three, four)),
    }
}

/// The address that a word is. None outside says that it is none.
fn listened(text: &[u8]) -> Option<Option<(u8, u8, u8, u8)>>
    ensures { result ≡ option_map Some (address_of text.now) }
{
    match address_of(text) {
        Some(address) => Some(Some(address)),
        None => None,
    }
}

/// The address that is listened at: None outside if the word is no address, None inside if there is no word.
#[tactic(auto, using(crate::proofs::WordLaws::told_nowhere))]
fn listen_in(words: &ArgMatches) -> Option<Option<(u8, u8, u8, u8)>>
    ensures { result ≡ given_address (first_of (codes "listen") (rows_of (found_of words.now))) }
{
    match words.get_str("listen") {
        Some(word) => listened(word.as_bytes()),
        None => Some(None),
    }
}

/// The job of `serve` with its own words.
#[tactic(auto, unfolding(crate::specs::Words::serve_job))]
fn serve_job(words: &ArgMatches) -> Option<Job>
    ensures is { result ≡ serve_job (rows_of (found_of words.now)) }
    ensures fit { IfSome result HasFit }
{
    let rpc = port_in(words, "rpc")?;
    let smb = port_in(words, "smb")?;
    let lanes = number_or(words, "lanes", 2, MOST_LANES)?;
    let turns = number_or(words, "turns", 1_000_000, MOST_TURNS)?;
    let address = listen_in(words)?;
    Some(Job::Serve(Serving {
        rpc,
        smb,
        lanes: lanes as u32,
        turns: turns as u32,
        address,
    }))
}

/// The job of a subcommand with its own words.
fn job_by(name: &str, words: &ArgMatches) -> Option<Job>
    ensures is { result ≡ job_by name.now (rows_of (found_of words.now)) }
    ensures fit { IfSome result HasFit }
{
    match name {
        "replay" => Some(Job::Replay),
        "show" => Some(Job::Show),
        "make" => make_job(words),
        "serve" => serve_job(words),
        _ => None,
    }
}

fn job_of(found: &ArgMatches) -> Option<Job>
    ensures is { result ≡ job_of (subcommand_rows_of found.now) }
    ensures fit { IfSome result HasFit }
{
    let (name, words) = found.subcommand()?;
    job_by(name, words)
}

/// What the words ask for; the program's name is the first of them. Help and the version are no job.
pub fn parse(alloc: Global, words: &[String]) -> Result<Job, ParseError>
    ensures ok { IfOk result (λ j. job (map string_bytes words.now) ≡ Some j) }
    ensures fit { IfOk result HasFit }
    ensures usage { result ≡ Err ParseError.Usage → job (map string_bytes words.now) ≡ None }
{
    match matches(alloc, words) {
        Ok(found) => match job_of(&found) {
            Some(job) => Ok(job),
            None => Err(ParseError::Usage),
        },
        Err(error) => match error.kind() {
            ErrorKind::OutOfMemory => Err(ParseError::NoMemory),
            _ => Err(ParseError::Usage),
        },
    }
}

/// The path of the record that the words of `serve` name; None if they name none, or memory runs out.
pub fn record_path(alloc: Global, words: &[String]) -> Option<String> {
    let Ok(found) = matches(alloc, words) else {
        return None;
    };
    let (_, words) = found.subcommand()?;
    String::from_str(alloc, words.get_str("record")?).ok()
}
