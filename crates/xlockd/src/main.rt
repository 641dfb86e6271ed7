//! The lock state server's program: its words, its standard streams, its sockets, its record file, and its status.
#![tactic(auto)]

ghost use Rattle.std.specs.Prelude.{◌≡◌, ◌≤◌, vec_len};

mod served;
mod standard;

use served::system;
use standard::{StandardInput, StandardOutput};
use std::alloc::{AllocError, Global};
use std::process::ExitCode;
use std::rt::Env;
use std::sync::Wait;
use std::thread::Threads;
use std::{env, io};
use xl_base::{
    Caller, Clock, Keeper, Lane, MemoryCaller, MemoryClock, MemoryKeeper, MemoryLane, Moment,
    Record,
};
use xl_top::{Job, Outside, parse, run};

/// The program's words, its name first.
fn words(rt: &(impl Env + AllocGlobal)) -> io::Result<Vec<String>> {
    Ok(env::args(rt)?.collect(rt.alloc())?)
}

/// What words that could not be had ask for: a word that isn't UTF-8 is none of a command's.
fn without_words(error: &io::Error) -> (u8, &'static str) {
    match error.kind() {
        io::ErrorKind::OutOfMemory => (6, NO_MEMORY),
        _ => (1, USAGE),
    }
}

/// What is said of words that ask for no job.
const USAGE: &str = "xlockd: usage: replay, serve, show or make SEED COUNT";

/// What is said when memory ran out.
pub(crate) const NO_MEMORY: &str = "xlockd: no memory";

/// What is said of an ending on standard error.
fn message(alloc: Global, status: u8, line: u64) -> Result<Option<String>, AllocError> {
    let text = match status {
        0 => return Ok(None),
        1 => USAGE,
        2 => "xlockd: read fault",
        3 => "xlockd: write fault",
        4 => return Ok(Some(format!(in alloc; "xlockd: bad input at line {line}")?)),
        5 => "xlockd: keeper fault",
        7 => "xlockd: journal full",
        _ => NO_MEMORY,
    };
    Ok(Some(String::from_str(alloc, text)?))
}

/// A keeper and a clock in memory, for a job that serves nobody, and no lanes and callers.
fn nobody(alloc: Global) -> Outside<MemoryKeeper, MemoryLane, MemoryCaller, MemoryClock>
    ensures { (vec_len result.lanes ≡ 0) × (vec_len result.callers ≡ 0) }
{
    Outside {
        keeper: MemoryKeeper::new(alloc, Record::new(alloc), Vec::new(alloc)),
        lanes: Vec::new(alloc),
        callers: Vec::new(alloc),
        clock: MemoryClock::new(alloc, Moment(0), Vec::new(alloc)),
    }
}

/// Does the job of these words by the standard streams: the status, and the number of a bad line.
fn work<
    K: Keeper + Send + Drop,
    L: Lane + Send + Drop,
    C: Caller + Send + Drop,
    T: Clock + Send + Drop,
    R: Threads + Wait + Sync + Print + Input + AllocGlobal,
>(rt: &R, words: &[String], outside: Outside<K, L, C, T>) -> (u8, u64)
    requires { (vec_len outside.lanes ≤ 64) × (vec_len outside.callers ≤ 64) }
{
    let mut input = StandardInput::new(rt.reader());
    let mut out = StandardOutput::new(io::writer(rt));
    let done = run(rt, rt.alloc(), words, &mut input, &mut out, outside);
    (done.status, done.line)
}

fn main(rt: HostRuntime) -> ExitCode {
    let words = match words(&rt) {
        Ok(words) => words,
        Err(error) => {
            let (status, text) = without_words(&error);
            let _ = eprintln!(rt; "{text}");
            return ExitCode::from(status);
        }
    };
    let (status, line) = match parse(rt.alloc(), &words) {
        Ok(Job::Serve(serving)) => match system(rt, &words, serving) {
            Some(outside) => work(&rt, &words, outside),
            None => (6, 0),
        },
        _ => work(&rt, &words, nobody(rt.alloc())),
    };
    match message(rt.alloc(), status, line) {
        Ok(None) => {}
        Ok(Some(text)) => {
            let _ = eprintln!(rt; "{text}");
        }
        Err(_) => {
            let _ = eprintln!(rt; "{NO_MEMORY}");
        }
    }
    ExitCode::from(status)
}
